// All accesses of a leaf at once, for the planner: rights are bits of a number, by access number, and what a setup decides once is
// in a table. Words of a setup and descriptors go in as they stand. The definitions that it cites are in specs/Mirror and mirror the code; the
// laws of proofs/Agree, proofs/Masks and proofs/Table tie them to those of single accesses.
mod direct;
mod indirect;
pub(crate) mod level;
pub(crate) mod stage1;
pub(crate) mod stage2;
pub mod table;
