// A list of leaves: one rights byte each, and six bytes of causes, all or nothing. A refused list changes no lent byte.
ghost use Rattle.std.specs.Prelude.{◌≡◌, ◌+◌, ◌*◌, ◌≤◌, length};
ghost use Rattle.records.specs.Leaf.{leaf_count};
ghost use Rattle.records.specs.Values.{passes};
ghost use Rattle.rights.specs.Checks.{setup_check};
ghost use Rattle.judge.specs.Demands.{ListDemands};
ghost use Rattle.judge.specs.List.{list_check, leaves_of, list_of};

use crate::leaves::{SHORT, list_leaves};
use records::refusal::{LeafRefusal, Refusal, check_if};
use records::setup::{Control, Setup, read_setup};

// 1, 2, 3, then 11, for a list of `len` bytes, an output of `room` bytes and a buffer of `causes` bytes.
#[tactic(auto, unfolding(crate::specs::List::list_check))]
fn check_list(c: Control, len: usize, room: usize, causes: usize) -> Result<(), Refusal>
    ensures { result ≡ list_check c len room causes }
{
    rights::checks::check_setup(c)?;
    let n = len / 18;
    let fits = (len % 18 == 0) & (n <= 2048) & ((n <= room) & (6 * n <= causes));
    check_if(!fits, Refusal::ListLength)
}

// The leaves of an accepted list by way of buffers for `R` leaves. Short lists have short ones, since buffers are cleared at each call, and in a function of
// their own, since the compiler clears those of a function at its begin; that of the causes has two bytes more, since `put` stores eight.
fn by_buffers<const R: usize, const C: usize>(
    s: Setup,
    leaves: &[u8],
    out: &mut [u8],
    causes: &mut [u8],
) -> Result<usize, LeafRefusal>
    requires sizes { (R ≤ 2048) × (C ≤ 12290) }
    requires buffers { (leaf_count leaves.now ≤ R) × (6 * leaf_count leaves.now + 2 ≤ C) }
    requires room { (leaf_count leaves.now ≤ length out.old) × (6 * leaf_count leaves.now ≤ length causes.old) }
    requires accepted { (leaf_count leaves.now ≤ 2048) × (setup_check s.control ≡ passes) }
    ensures answer { result ≡ (leaves_of s leaves.now out.old causes.old).answer }
    ensures out { out.new ≡ (leaves_of s leaves.now out.old causes.old).out }
    ensures causes { causes.new ≡ (leaves_of s leaves.now out.old causes.old).causes }
{
    let mut rights = [0u8; R];
    let mut found = [0u8; C];
    list_leaves(s, leaves, &mut rights, &mut found, out, causes)
}

// 13, 1, 2, 3, 11, then the leaves.
fn list_bytes(
    setup: &[u8],
    leaves: &[u8],
    out: &mut [u8],
    causes: &mut [u8],
) -> Result<usize, LeafRefusal>
    ensures answer { result ≡ (list_of setup.now leaves.now out.old causes.old).answer }
    ensures out { out.new ≡ (list_of setup.now leaves.now out.old causes.old).out }
    ensures causes { causes.new ≡ (list_of setup.now leaves.now out.old causes.old).causes }
{
    let s = read_setup(setup)?;
    check_list(s.control, leaves.len(), out.len(), causes.len())?;
    if leaves.len() <= SHORT * 18 {
        return by_buffers::<64, 386>(s, leaves, out, causes);
    }
    by_buffers::<2048, 12290>(s, leaves, out, causes)
}

// The list: the number of leaves. One rights byte per leaf goes to the start of `out`, six bytes per leaf in access order to the start of `causes`, and later
// bytes keep their values; a refusal changes no lent byte.
pub fn list_rights(
    setup: &[u8],
    leaves: &[u8],
    out: &mut [u8],
    causes: &mut [u8],
) -> Result<usize, LeafRefusal>
    ensures answer { result ≡ (list_of setup.now leaves.now out.old causes.old).answer }
    ensures out { out.new ≡ (list_of setup.now leaves.now out.old causes.old).out }
    ensures causes { causes.new ≡ (list_of setup.now leaves.now out.old causes.old).causes }
    ensures demands { ListDemands setup.now leaves.now out.old causes.old result out.new causes.new }
{
    list_bytes(setup, leaves, out, causes)
}
