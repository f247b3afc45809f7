// What the planner and the judge are together: a register that the planner answers, put in place of that level's POR, stops every
// forbidden access of that level in the list that the judge then makes, and both levels' registers stop those of both. `specs/Separation.antt`
// has the statements and `proofs/Separation.antt` the theorems. This crate has no code: it holds the two layers against each other.
#![tactic(auto)]
