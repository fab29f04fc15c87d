// Formulas as terms. There is nothing to run here: a formula's code is written where its model is. specs/ says what a
// term means in f64, what it means exactly, and what its derivative is; proofs/ decide by computing whether two terms
// are the same number.

#![tactic(auto)]
