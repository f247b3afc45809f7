// The planner layer: the overlay register of a level that stops every forbidden access of that level on a list of leaves, with each
// slot bit on that may be on (document 01, 'The planner'; refusals 1 to 7 and 10 to 13).
//
// `plan_level` and `plan_levels`, of both levels, are the public functions and have no `requires`. Of the rights layer the planner sees the checks, `promise` with specs/Promise and
// proofs/PromiseLaws, and the setup's table that it hands through (`pass::table`); tests/promise holds it to that.
#![tactic(auto)]

ghost use Rattle.std.specs.Prelude.{◌≡◌, ◌/◌, length};
ghost use Rattle.planner.specs.Demands.{PlannerDemands, BothDemands};
ghost use Rattle.planner.specs.Mirror.Masks.{plans_by};
ghost use Rattle.planner.specs.Plan.{in_order, plan_of, both_of};

use crate::cut::plan_leaf;
use crate::masks::{cut_mask, first_of, pack};
use crate::start::begin;
use records::refusal::{LeafRefusal, Refusal};
use records::setup::PerLevel;
use rights::pass::table::mode_table;
use rights::promise::LevelSetup;

mod cut;
mod masks;
mod start;

// One pass over the list: each leaf's 5, 6 or 7, then 10, then the register.
fn plan_leaves(s: &LevelSetup, leaves: &[u8]) -> Result<u64, LeafRefusal>
    ensures { result ≡ in_order (plans_by s.now.control s.now.on s.now.base s.now.level leaves.now) (length leaves.now / 18) }
{
    let n = leaves.len() / 18;
    let mut masks = [7u8; 8];
    let mut first = None; // the first leaf that no register cures
    for i in 0..n {
        let a = i * 18;
        // `map_err` with a closure over `i` is no shorter, and its proof names one step more
        let cut = match plan_leaf(s, &leaves[a..a + 18]) {
            Ok(cut) => cut,
            Err(refusal) => return Err(LeafRefusal { refusal, leaf: i }),
        };
        masks[cut.place] = cut_mask(masks[cut.place], cut.taken);
        first = first_of(first, i, cut.uncured);
    }
    if let Some(leaf) = first {
        return Err(LeafRefusal {
            refusal: Refusal::NotSeparable,
            leaf,
        });
    }
    Ok(pack(masks))
}

// 13, the checks before the leaves, then the leaves.
fn planned(setup: &[u8], level: u64, leaves: &[u8]) -> Result<u64, LeafRefusal>
    ensures { result ≡ plan_of setup.now level leaves.now }
{
    let q = records::setup::read_words(setup)?;
    let c = records::setup::read_control(q.control);
    let level = begin(c, level, leaves.len())?;
    let s = LevelSetup {
        level,
        control: q.control,
        on: c.overlay.of(level),
        base: mode_table(q.control, q.pir.privileged, q.pir.unprivileged),
    };
    plan_leaves(&s, leaves)
}

// The register of a level (0 privileged, 1 unprivileged) for a setup of 52 bytes and leaves of 18 bytes each.
pub fn plan_level(setup: &[u8], level: u64, leaves: &[u8]) -> Result<u64, LeafRefusal>
    ensures answer { result ≡ plan_of setup.now level leaves.now }
    ensures demands { PlannerDemands setup.now level leaves.now result }
{
    planned(setup, level, leaves)
}

// The registers of both levels (request A5).
pub fn plan_levels(setup: &[u8], leaves: &[u8]) -> PerLevel<Result<u64, LeafRefusal>>
    ensures answer { result ≡ both_of setup.now leaves.now }
    ensures demands { BothDemands setup.now leaves.now result }
{
    PerLevel {
        privileged: plan_level(setup, 0, leaves),
        unprivileged: plan_level(setup, 1, leaves),
    }
}
