// The walk of a refused list by the judge's own function, leaf by leaf and access by access, lowest first: which leaf is refused, and its number.
ghost use Rattle.std.specs.Prelude.{◌≡◌, ℕ, ◌+◌, ◌*◌, ◌≤◌, length};
ghost use Rattle.records.specs.Leaf.{leaf_at};
ghost use Rattle.judge.specs.LeafRights.{leaf_rights};
ghost use Rattle.judge.specs.List.{walk};
ghost use Rattle.judge.specs.Mirror.Walked.{refusal_by, refusal_in, listed_of};

use crate::access::judge_read;
use attributes::Memory;
use records::leaf::{Leaf, read_leaf};
use records::refusal::{LeafRefusal, Refusal};
use records::setup::Setup;
use rights::answers::Stop;

// Leaf `i` of a list.
pub(crate) fn leaf_of(leaves: &[u8], i: usize) -> Leaf
    requires { i * 18 + 18 ≤ length leaves.now }
    ensures { result ≡ leaf_at leaves.now i }
{
    let from = i * 18;
    read_leaf(&leaves[from..from + 18]).unwrap()
}

// The refusal of an access, if its judgement is one.
fn refusal_by(j: Result<Memory, Stop>) -> Result<(), Refusal>
    ensures { result ≡ refusal_by j }
{
    match j {
        Err(Stop::Refused(refusal)) => Err(refusal),
        _ => Ok(()),
    }
}

// The refusal of a leaf: that of its lowest judged access that has one. With one level only accesses 0 to 2 are judged.
#[tactic(auto, unfolding(crate::specs::LeafRights::leaf_rights))]
pub(crate) fn leaf_refusal(s: Setup, f: Leaf) -> Result<(), Refusal>
    ensures { result ≡ refusal_in (leaf_rights s f) }
{
    let end: u64 = if s.control.two { 6 } else { 3 };
    for a in 0..end {
        refusal_by(judge_read(s, f, a))?;
    }
    Ok(())
}

// The first refusal of `n` leaves in order, with its leaf; or their number, where none is refused.
pub(crate) fn first_refusal(s: Setup, leaves: &[u8], n: usize) -> Result<usize, LeafRefusal>
    requires { n * 18 ≤ length leaves.now }
    ensures { result ≡ listed_of (walk (λ (i : ℕ). leaf_rights s (leaf_at leaves.now i)) 0 n) n }
{
    for i in 0..n {
        let l = leaf_of(leaves, i);
        // `map_err` with a closure over `i` is no shorter
        if let Err(refusal) = leaf_refusal(s, l) {
            return Err(LeafRefusal { refusal, leaf: i });
        }
    }
    Ok(n)
}
