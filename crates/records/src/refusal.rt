// Why nothing is answered (document 01, 'Numbers for no'), and at which leaf. Part of the record layer. No public function has a `requires`.
ghost use Rattle.std.specs.Prelude.{◌≡◌};
ghost use Rattle.records.specs.Values.{check_if, refusal_number, unplaced};

use std::fmt;

// The refusals by the paper's numbers, from 1 on.
#[derive(Clone, Copy, PartialEq, Eq, Debug)]
pub enum Refusal {
    // 1: a control bit above 12 is set.
    ControlBits,
    // 2: two levels clear with what needs them, or DC with stage 1 on or stage 2 off.
    Clash,
    // 3: WXN or PAN with Indirect or an overlay.
    WxnOrPan,
    // 4: an access or a planner's level that is not judged.
    UnknownAccess,
    // 5: limits above 15 or forbidden bits above 63.
    LeafBits,
    // 6: a base or overlay code is reserved.
    ReservedCode,
    // 7: a permission form that is not judged yet.
    Unjudged,
    // 8: a memory attribute code is reserved or needs an extension.
    MemoryCode,
    // 9: SH is 01.
    ReservedSh,
    // 10: no overlay separates.
    NotSeparable,
    // 11: a list's length, or too little room for its answer.
    ListLength,
    // 12: planning where stage 1 or that level's overlay is off.
    OverlayOff,
    // 13: the file is ill-formed, or a setup or single leaf has another length.
    IllFormed,
}

impl Refusal {
    // The paper's number.
    pub fn number(self) -> u8
        ensures { result ≡ refusal_number self }
    {
        match self {
            Refusal::ControlBits => 1,
            Refusal::Clash => 2,
            Refusal::WxnOrPan => 3,
            Refusal::UnknownAccess => 4,
            Refusal::LeafBits => 5,
            Refusal::ReservedCode => 6,
            Refusal::Unjudged => 7,
            Refusal::MemoryCode => 8,
            Refusal::ReservedSh => 9,
            Refusal::NotSeparable => 10,
            Refusal::ListLength => 11,
            Refusal::OverlayOff => 12,
            Refusal::IllFormed => 13,
        }
    }
}

// The number.
impl fmt::Display for Refusal {
    ghost use Rattle.std.specs.Prelude.{Some, decimal};

    ghost output = { λ r. Some (decimal (refusal_number r)) };

    fn fmt<W: fmt::Write>(&self, f: &mut fmt::Formatter<W>) -> fmt::Result {
        write!(f, "{}", self.number())
    }
}

// A list's refusal, with the index of the leaf that is at fault, 0 if none is.
#[derive(Clone, Copy, PartialEq, Eq, Debug)]
pub struct LeafRefusal {
    pub refusal: Refusal,
    // 0 and no Option: document 01 says so, and `unplaced` and the C interface with it.
    pub leaf: usize,
}

impl From<Refusal> for LeafRefusal {
    ghost from_gives = { λ r e. e ≡ unplaced r };

    fn from(refusal: Refusal) -> LeafRefusal {
        LeafRefusal { refusal, leaf: 0 }
    }
}

impl fmt::Display for LeafRefusal {
    ghost use Rattle.std.specs.Prelude.{Some, ◌++◌, codes, decimal};

    ghost output = { λ r. Some (decimal (refusal_number r.refusal) ++ (codes " leaf " ++ decimal r.leaf)) };

    fn fmt<W: fmt::Write>(&self, f: &mut fmt::Formatter<W>) -> fmt::Result {
        write!(f, "{} leaf {}", self.refusal, self.leaf)
    }
}

// A refusal where something is bad, whatever a refusal is.
pub fn check_if<E: Copy>(bad: bool, refusal: E) -> Result<(), E>
    ensures { result ≡ check_if bad refusal }
{
    if bad {
        return Err(refusal);
    }
    Ok(())
}
