// The judge, above the layers of rights and attributes (document 01, 'The order a judgement is made in'): `access::judge_access` judges one access of
// a leaf, `list::list_rights` all accesses of a list of leaves. No public function has a `requires`, and none relies on an earlier check by its
// caller.
#![tactic(auto)]

pub mod access;
mod fields;
mod fill;
mod groups;
mod leaves;
pub mod list;
mod walk;
