// The rights layer (document 01, 'Numbers for no' 1 to 5, 'The order a judgement is made in' up to the attribute steps, 'Stage 1 rights' and
// 'Stage 2 rights'). It sees `records` alone.
//
// There are two ways through the rules. `order::judge_rights` takes one access by the paper's steps and relies on no earlier check. `words`
// takes all accesses of a leaf at once, with their causes, for the list. `promise` is what the planner may know, and `pass` all accesses of a level, for the
// planner.
#![tactic(auto)]

pub mod answers;
pub mod checks;
mod direct;
mod indirect;
pub mod order;
mod overlay;
pub mod pass;
pub mod promise;
mod stage1;
mod stage2;
mod steps;
pub mod words;
