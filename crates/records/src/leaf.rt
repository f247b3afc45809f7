// A leaf: both descriptors whole, the limits byte and the forbidden byte.
ghost use Rattle.std.specs.Prelude.{◌≡◌};
ghost use Rattle.records.specs.Leaf.{read_leaf};

use crate::number::word;
use crate::refusal::Refusal;

#[derive(Clone, Copy)]
pub struct Leaf {
    pub stage1: u64,
    pub stage2: u64,
    pub limits: u8,
    pub forbidden: u8,
}

// The leaf of 18 bytes, or 13.
#[tactic(auto, unfolding(crate::specs::Leaf::read_leaf, crate::specs::Leaf::leaf_of))]
pub fn read_leaf(s: &[u8]) -> Result<Leaf, Refusal>
    ensures { result ≡ read_leaf s.now }
{
    if s.len() != 18 {
        return Err(Refusal::IllFormed);
    }
    Ok(Leaf {
        stage1: word(s, 0),
        stage2: word(s, 8),
        limits: s[16],
        forbidden: s[17],
    })
}
