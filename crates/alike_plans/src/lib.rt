// Two plans whose samples are alike and whose cells are the same: they build one table, bit by bit. Nothing runs here.

#![tactic(auto)]
