// Little-endian numbers. `from_le_bytes` belongs to each type: a trait over the three would be longer than they are.
ghost use Rattle.std.specs.Prelude.{◌≡◌, ◌+◌, ◌≤◌, length};
ghost use Rattle.records.specs.Bytes.{le16, le32, le64};

// The 16-bit number at index `at`.
pub(crate) fn short(b: &[u8], at: usize) -> u16
    requires { at + 2 ≤ length b.now }
    ensures { result ≡ le16 b.now at }
{
    u16::from_le_bytes([b[at], b[at + 1]])
}

// The 32-bit number at index `at`.
pub(crate) fn half(b: &[u8], at: usize) -> u32
    requires { at + 4 ≤ length b.now }
    ensures { result ≡ le32 b.now at }
{
    u32::from_le_bytes([b[at], b[at + 1], b[at + 2], b[at + 3]])
}

// The 64-bit number at index `at`.
#[tactic(auto, unfolding(crate::specs::Bytes::le64))]
pub(crate) fn word(b: &[u8], at: usize) -> u64
    requires { at + 8 ≤ length b.now }
    ensures { result ≡ le64 b.now at }
{
    u64::from_le_bytes([
        b[at],
        b[at + 1],
        b[at + 2],
        b[at + 3],
        b[at + 4],
        b[at + 5],
        b[at + 6],
        b[at + 7],
    ])
}
