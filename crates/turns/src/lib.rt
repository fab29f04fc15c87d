// Work that is done in turns. There is nothing to run here: a loop in turns is written where its units are, and specs/
// and proofs/ say what all such loops have in common.

#![tactic(auto)]
