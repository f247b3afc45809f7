// One access, step by step (document 01, 'The order a judgement is made in'): the first fault or refusal is the answer. The public function
// has no `requires`.
ghost use Rattle.std.specs.Prelude.{◌≡◌};
ghost use Rattle.rights.specs.Order.{stages_answer, leaf_answer, rights_answer};

use crate::answers::Stop;
use crate::checks::{check_access, check_leaf, check_setup};
use crate::stage1::stage1_answer;
use crate::stage2::stage2_answer;
use records::access::Access;
use records::descriptor::{Limits, Stage1, Stage2};
use records::leaf::Leaf;
use records::setup::Setup;

// Both stages of an access: no check comes before them. A stage that is off permits everything.
#[tactic(auto, unfolding(crate::specs::Order::stages_answer))]
fn judge_stages(s: Setup, d: Stage1, e: Stage2, t: Limits, a: Access) -> Result<(), Stop>
    ensures { result ≡ stages_answer s d e t a }
{
    if s.control.stage1 {
        stage1_answer(s, d, t, a)?;
    }
    if s.control.stage2 {
        stage2_answer(e, a)?;
    }
    Ok(())
}

fn judge_leaf(s: Setup, f: Leaf, a: Access) -> Result<(), Stop>
    ensures { result ≡ leaf_answer s f a }
{
    let d = records::descriptor::read_stage1(f.stage1);
    let e = records::descriptor::read_stage2(f.stage2);
    let t = records::descriptor::read_limits(f.limits);
    judge_stages(s, d, e, t, a)
}

// 1 to 5, then both stages: `Ok` exactly where the order reaches the attribute steps.
#[tactic(auto, unfolding(crate::specs::Order::rights_answer))]
pub fn judge_rights(s: Setup, f: Leaf, n: u64) -> Result<(), Stop>
    ensures { result ≡ rights_answer s f n }
{
    let c = s.control;
    check_setup(c)?;
    let a = check_access(c.two, n)?;
    check_leaf(f)?;
    judge_leaf(s, f, a)
}
