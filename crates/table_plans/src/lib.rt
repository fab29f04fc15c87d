// The plans of our tables: which engine, which border and which kind of cell. Nothing runs here.

#![tactic(auto)]
