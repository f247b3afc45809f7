// One access of a leaf.
ghost use Rattle.std.specs.Prelude.{◌≡◌};
ghost use Rattle.judge.specs.Demands.{JudgeDemands};
ghost use Rattle.judge.specs.Judge.{judged, judge_of};

use attributes::Memory;
use attributes::order::access_attributes;
use records::descriptor::{read_stage1, read_stage2};
use records::leaf::{Leaf, read_leaf};
use records::setup::{Setup, read_setup};
use rights::answers::Stop;
use rights::order::judge_rights;

// From 1 on: checks, stage 1, stage 2, then 8, 8, 9. Accesses 2 and 5 are fetches.
#[tactic(auto, unfolding(crate::specs::Judge::judged))]
pub(crate) fn judge_read(s: Setup, f: Leaf, n: u64) -> Result<Memory, Stop>
    ensures { result ≡ judged s f n }
{
    judge_rights(s, f, n)?;
    let d = read_stage1(f.stage1);
    let e = read_stage2(f.stage2);
    Ok(access_attributes(s, d, e, (n == 2) | (n == 5))?)
}

// 13 for lengths before all else, then 1 to 5, stage 1, stage 2, 8, 8, 9, the first that applies.
#[tactic(auto, unfolding(crate::specs::Judge::judge_of))]
fn judge_bytes(setup: &[u8], leaf: &[u8], access: u64) -> Result<Memory, Stop>
    ensures { result ≡ judge_of setup.now leaf.now access }
{
    let s = read_setup(setup)?;
    let f = read_leaf(leaf)?;
    judge_read(s, f, access)
}

// The judgement of an access: its byte and SH where it is allowed.
pub fn judge_access(setup: &[u8], leaf: &[u8], access: u64) -> Result<Memory, Stop>
    ensures answer { result ≡ judge_of setup.now leaf.now access }
    ensures demands { JudgeDemands setup.now leaf.now access result }
{
    judge_bytes(setup, leaf, access)
}
