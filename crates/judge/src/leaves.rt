// The leaves of an accepted list, by way of two buffers that hold their rights and causes until it is known that no leaf is refused. The list that has a refused
// leaf is walked again by the judge's own function.
ghost use Rattle.std.specs.Prelude.{◌≡◌, ◌+◌, ◌*◌, ◌≤◌, true, false, eqb, length};
ghost use Rattle.records.specs.Leaf.{leaf_count};
ghost use Rattle.records.specs.Values.{passes};
ghost use Rattle.rights.specs.Checks.{setup_check};
ghost use Rattle.judge.specs.List.{leaves_of};
ghost use Rattle.judge.specs.Mirror.Words.{clear, Found};

use crate::fields::Fields;
use crate::fill::fill;
use crate::groups::{Groups, Second};
use crate::walk::first_refusal;
use records::refusal::LeafRefusal;
use records::setup::Setup;
use rights::words::groups::{DirectGroups, IndirectGroups, OffGroups};

// The most leaves of a short list, which has short buffers and is judged by single fields. Tables of groups pay from about 75 leaves on.
pub(crate) const SHORT: usize = 64;

// The rights and causes of a long list with stage 1 under Direct. The answer is 0 exactly where no leaf is marked. Each mode has a function, since all tables that
// a function makes are cleared when it is called: one function for all modes takes 2 instructions more a leaf.
fn direct_list(second: &Second, leaves: &[u8], rights: &mut [u8], found: &mut [u8]) -> u64
    requires room { (leaf_count leaves.now ≤ length rights.old) × (6 * leaf_count leaves.now + 2 ≤ length found.old) }
    requires mode { (second.now.setup.control.stage1 ≡ true) × (second.now.setup.control.indirect ≡ false) }
    ensures { (eqb result 0 ≡ clear second.now.setup leaves.now (leaf_count leaves.now)) × Found second.now.setup leaves.now (leaf_count leaves.now) rights.new found.new }
{
    let setup = &second.setup;
    let first = &DirectGroups::of(second.setup, &second.memory.stage1);
    let second = &second.groups;
    fill(
        &Groups {
            setup,
            first,
            second,
        },
        leaves,
        rights,
        found,
    )
}

// The same under Indirect.
fn indirect_list(second: &Second, leaves: &[u8], rights: &mut [u8], found: &mut [u8]) -> u64
    requires room { (leaf_count leaves.now ≤ length rights.old) × (6 * leaf_count leaves.now + 2 ≤ length found.old) }
    requires mode { (second.now.setup.control.stage1 ≡ true) × (second.now.setup.control.indirect ≡ true) }
    ensures { (eqb result 0 ≡ clear second.now.setup leaves.now (leaf_count leaves.now)) × Found second.now.setup leaves.now (leaf_count leaves.now) rights.new found.new }
{
    let setup = &second.setup;
    let first = &IndirectGroups::of(second.setup, &second.memory.stage1);
    let second = &second.groups;
    fill(
        &Groups {
            setup,
            first,
            second,
        },
        leaves,
        rights,
        found,
    )
}

// The same with stage 1 off. Stage 2 is looked at before the leaves, since the compiler does not take the test out of so short a loop, which takes 13 percent longer
// with it.
fn off_list(second: &Second, leaves: &[u8], rights: &mut [u8], found: &mut [u8]) -> u64
    requires room { (leaf_count leaves.now ≤ length rights.old) × (6 * leaf_count leaves.now + 2 ≤ length found.old) }
    requires mode { second.now.setup.control.stage1 ≡ false }
    ensures { (eqb result 0 ≡ clear second.now.setup leaves.now (leaf_count leaves.now)) × Found second.now.setup leaves.now (leaf_count leaves.now) rights.new found.new }
{
    let setup = &second.setup;
    let first = &OffGroups::of(setup.control.two);
    match &second.groups {
        Some(second) => fill(
            &Groups {
                setup,
                first,
                second,
            },
            leaves,
            rights,
            found,
        ),
        None => {
            let second = &second.groups;
            fill(
                &Groups {
                    setup,
                    first,
                    second,
                },
                leaves,
                rights,
                found,
            )
        }
    }
}

// The same in any mode.
fn long_list(setup: Setup, leaves: &[u8], rights: &mut [u8], found: &mut [u8]) -> u64
    requires { (leaf_count leaves.now ≤ length rights.old) × (6 * leaf_count leaves.now + 2 ≤ length found.old) }
    ensures { (eqb result 0 ≡ clear setup leaves.now (leaf_count leaves.now)) × Found setup leaves.now (leaf_count leaves.now) rights.new found.new }
{
    let second = &Second::of(setup);
    if setup.control.stage1 {
        if setup.control.indirect {
            return indirect_list(second, leaves, rights, found);
        }
        return direct_list(second, leaves, rights, found);
    }
    off_list(second, leaves, rights, found)
}

// The same of any list.
fn fill_list(setup: Setup, leaves: &[u8], rights: &mut [u8], found: &mut [u8]) -> u64
    requires { (leaf_count leaves.now ≤ length rights.old) × (6 * leaf_count leaves.now + 2 ≤ length found.old) }
    ensures { (eqb result 0 ≡ clear setup leaves.now (leaf_count leaves.now)) × Found setup leaves.now (leaf_count leaves.now) rights.new found.new }
{
    if SHORT < leaves.len() / 18 {
        return long_list(setup, leaves, rights, found);
    }
    fill(&Fields::of(setup), leaves, rights, found)
}

// Rights and causes go to `out` and `causes` by way of `rights` and `found`.
pub(crate) fn list_leaves(
    s: Setup,
    leaves: &[u8],
    rights: &mut [u8],
    found: &mut [u8],
    out: &mut [u8],
    causes: &mut [u8],
) -> Result<usize, LeafRefusal>
    requires buffers { (leaf_count leaves.now ≤ length rights.old) × (6 * leaf_count leaves.now + 2 ≤ length found.old) }
    requires room { (leaf_count leaves.now ≤ length out.old) × (6 * leaf_count leaves.now ≤ length causes.old) }
    requires accepted { (leaf_count leaves.now ≤ 2048) × (setup_check s.control ≡ passes) }
    ensures answer { result ≡ (leaves_of s leaves.now out.old causes.old).answer }
    ensures out { out.new ≡ (leaves_of s leaves.now out.old causes.old).out }
    ensures causes { causes.new ≡ (leaves_of s leaves.now out.old causes.old).causes }
{
    let n = leaves.len() / 18;
    let marks = fill_list(s, leaves, rights, found);
    let marked = marks != 0;
    if marked {
        return first_refusal(s, leaves, n);
    }
    out[..n].copy_from_slice(&rights[..n]);
    causes[..6 * n].copy_from_slice(&found[..6 * n]);
    Ok(n)
}
