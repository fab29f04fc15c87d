// Rounding keeps the order of numbers. There is nothing to run here: proofs/ says what of f64s compares as the exact
// numbers do.

#![tactic(auto)]
