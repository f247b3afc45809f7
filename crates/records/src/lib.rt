// The record layer (document 01, 'Setup and leaf records', and the file part of 'File, program, host'): setups, leaves, descriptor fields with the
// two indices, accesses and map files, decoded from bytes. It is the only layer that reads a raw bit of a record, but for the planner's pass
// (docs/DESIGN.md). It judges nothing.
//
// No public function has a `requires`, but `descriptor::places::leaf_places`, which reads a leaf of a list, and `table::table_of`, which takes a closure: each
// refuses what it can't read, or is total.
#![tactic(auto)]

pub mod access;
pub mod descriptor;
pub mod leaf;
pub mod mapfile;
mod number;
pub mod refusal;
pub mod setup;
pub mod table;
