// A map file: a setup field, then leaf fields (document 01, the file part of 'File, program, host'). Part of the record layer. No public
// function has a `requires`.
ghost use Rattle.std.specs.Prelude.{◌≡◌, ◌*◌, ◌≤◌, length, drop};
ghost use Rattle.records.specs.MapFile.{begins_with, leaves_of, read_file, setup_in};
ghost use Rattle.records.specs.Mirror.LeafFields.{leaves_in, delivered};

use crate::number::short;
use crate::refusal::Refusal;

// Whether a whole field with this tag and length begins at index `at`.
#[tactic(auto, unfolding(crate::specs::MapFile::begins_with))]
fn begins_with(s: &[u8], at: usize, tag: u8, len: usize) -> bool
    requires { (at ≤ length s.now) × (len ≤ 65535) }
    ensures { result ≡ begins_with tag len (drop at s.now) }
{
    if s.len() - at < len + 3 {
        return false;
    }
    (s[at] == tag) & (usize::from(short(s, at + 1)) == len)
}

// Puts the values of the leaf fields, which begin at index 55, one after the other at the start of `values`, and answers how many there are, if nothing else
// is there.
fn leaf_fields(file: &[u8], values: &mut [u8]) -> Option<usize>
    requires { (55 ≤ length file.now) × (36864 ≤ length values.old) }
    ensures { leaves_of 2048 (drop 55 file.now) ≡ leaves_in result values.new }
{
    for n in 0..2048 {
        let at = 55 + n * 21;
        if file.len() == at {
            return Some(n);
        }
        if !begins_with(file, at, 2, 18) {
            return None; // no whole leaf field
        }
        values[n * 18..n * 18 + 18].copy_from_slice(&file[at + 3..at + 21]);
    }
    if file.len() == 43063 {
        return Some(2048);
    }
    None // one leaf field too many
}

// Hands over the `n` leaves that `values` begins with, where the lent buffer is long enough.
fn deliver(values: &[u8], n: usize, leaves: &mut [u8]) -> Result<usize, Refusal>
    requires { (n ≤ 2048) × (n * 18 ≤ length values.now) }
    ensures answer { result ≡ (delivered values.now n leaves.old).answer }
    ensures leaves { leaves.new ≡ (delivered values.now n leaves.old).leaves }
{
    let end = n * 18;
    if leaves.len() < end {
        return Err(Refusal::ListLength);
    }
    leaves[..end].copy_from_slice(&values[..end]);
    Ok(n)
}

// Reads a map file: its leaves' bytes, one leaf after the other, go to the start of `leaves`; later bytes are unchanged. One pass
// over the file.
pub fn read_file(file: &[u8], leaves: &mut [u8]) -> Result<usize, Refusal>
    ensures answer { result ≡ (read_file file.now leaves.old).answer }
    ensures leaves { leaves.new ≡ (read_file file.now leaves.old).leaves }
{
    if !begins_with(file, 0, 1, 52) {
        return Err(Refusal::IllFormed);
    }
    let mut values = [0u8; 36864];
    let Some(n) = leaf_fields(file, &mut values) else {
        return Err(Refusal::IllFormed);
    };
    deliver(&values, n, leaves)
}

// The setup's bytes, in a file that `read_file` reads as a map: bytes 3 to 54 of any file, and none of one that is shorter.
#[tactic(auto, unfolding(crate::specs::MapFile::setup_in))]
pub fn setup_bytes(file: &[u8]) -> &[u8]
    ensures { result.now ≡ setup_in file.now }
{
    if file.len() < 55 {
        return &file[..0];
    }
    &file[3..55]
}
