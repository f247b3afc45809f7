// The loader's interface: judge, list and planner over the C convention (document 01, 'File, program, host', last sentences). Each takes
// byte slices as pointer and length, has no `requires`, and answers 64 bits, packed as specs/Packing.antt defines and
// docs/INTERFACE.md lists. Of each it is promised that the answer is packed so, and that the values read from it are those of an answer that meets the
// user's demands.
#![tactic(auto)]

ghost use Rattle.std.specs.Prelude.{◌≡◌, ◌<◌};
ghost use Rattle.judge.specs.Answers.{Judgement, Listed, judgement_values, list_values};
ghost use Rattle.judge.specs.Demands.{JudgeDemands, ListDemands};
ghost use Rattle.judge.specs.Judge.{judge_of};
ghost use Rattle.judge.specs.List.{list_of};
ghost use Rattle.planner.specs.Demands.{PlannerDemands};
ghost use Rattle.planner.specs.Plan.{Plan, plan_values, plan_of};
ghost use Rattle.sonsiplex.specs.Packing.{pack_judgement, judgement_fields, pack_list, list_fields, pack_plan, plan_fields};

use crate::packing::{pack_judgement, pack_numbers};

mod packing;

// The judgement of access number `access` of a leaf of 18 bytes under a setup of 52 bytes.
#[unsafe(no_mangle)]
pub extern "C" fn sonsiplex_judge(setup: &[u8], leaf: &[u8], access: u64) -> u64
    ensures packed { result ≡ pack_judgement (judgement_values (judge_of setup.now leaf.now access)) }
    ensures demanded { (j : Judgement) × (judgement_fields result ≡ judgement_values j) × JudgeDemands setup.now leaf.now access j }
{
    pack_judgement(judge::access::judge_access(setup, leaf, access))
}

// Writes one rights byte for each leaf of 18 bytes to the start of `out`, and six bytes, the causes of its accesses, to the start of `causes`. A refused
// call changes no lent byte: `kept`, which is that of ListDemands.
#[unsafe(no_mangle)]
pub extern "C" fn sonsiplex_list(
    setup: &[u8],
    leaves: &[u8],
    out: &mut [u8],
    causes: &mut [u8],
) -> u64
    ensures packed { result ≡ pack_list (list_values (list_of setup.now leaves.now out.old causes.old).answer) }
    ensures written { out.new ≡ (list_of setup.now leaves.now out.old causes.old).out }
    ensures caused { causes.new ≡ (list_of setup.now leaves.now out.old causes.old).causes }
    ensures demanded { (x : Listed) × (list_fields result ≡ list_values x) × ListDemands setup.now leaves.now out.old causes.old x out.new causes.new }
    ensures kept { 0 < (list_fields result).number → (out.new ≡ out.old) × (causes.new ≡ causes.old) }
{
    // as in `sonsiplex_plan`: must-fail/leaf_left_out and must-fail/register_in_a_refusal are each about one of the two
    match judge::list::list_rights(setup, leaves, out, causes) {
        Ok(n) => pack_numbers(0, 0, n as u32),
        Err(e) => pack_numbers(e.refusal.number(), e.leaf as u16, 0),
    }
}

// The overlay register of a level (0 privileged, 1 unprivileged) for the leaves.
#[unsafe(no_mangle)]
pub extern "C" fn sonsiplex_plan(setup: &[u8], level: u64, leaves: &[u8]) -> u64
    ensures packed { result ≡ pack_plan (plan_values (plan_of setup.now level leaves.now)) }
    ensures demanded { (p : Plan) × (plan_fields result ≡ plan_values p) × PlannerDemands setup.now level leaves.now p }
{
    match planner::plan_level(setup, level, leaves) {
        Ok(register) => pack_numbers(0, 0, register as u32),
        Err(r) => pack_numbers(r.refusal.number(), r.leaf as u16, 0),
    }
}
