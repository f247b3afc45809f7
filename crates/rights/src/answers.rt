// Answers of the rights layer (document 01, 'Numbers for no'), and the first steps of both stages. No public function has a `requires`.
ghost use Rattle.std.specs.Prelude.{◌≡◌, Err};
ghost use Rattle.rights.specs.Answers.{stage_number, fault_unless, descriptor_answer};
ghost use Rattle.rights.specs.declared.answers.Stop.TheVariants.{Refused};

use records::refusal::{Refusal, check_if};
use std::fmt;

#[derive(Clone, Copy, PartialEq, Eq, Debug)]
pub enum Stage {
    One,
    Two,
}

impl Stage {
    pub fn number(self) -> u8
        ensures { result ≡ stage_number self }
    {
        match self {
            Stage::One => 1,
            Stage::Two => 2,
        }
    }
}

// The number.
impl fmt::Display for Stage {
    ghost use Rattle.std.specs.Prelude.{Some, decimal};

    ghost output = { λ s. Some (decimal (stage_number s)) };

    fn fmt<W: fmt::Write>(&self, f: &mut fmt::Formatter<W>) -> fmt::Result {
        write!(f, "{}", self.number())
    }
}

#[derive(Clone, Copy, PartialEq, Eq, Debug)]
pub enum Kind {
    Translation,
    AccessFlag,
    Permission,
    Overlay,
}

#[derive(Clone, Copy, PartialEq, Eq, Debug)]
pub struct Fault {
    pub stage: Stage,
    pub kind: Kind,
    // What took the right away, by request A1's number: 1 to 14. A number and no enum: ListDemands and the C interface have it as a byte, and `first_remover`
    // of specs/Steps, `cause-fixes` and the words of a leaf reckon with it, 0 for none.
    pub cause: u8,
}

// Why an access is not allowed.
#[derive(Clone, Copy, PartialEq, Eq, Debug)]
pub enum Stop {
    Faulted(Fault),
    Refused(Refusal),
}

impl From<Refusal> for Stop {
    ghost from_gives = { λ r s. s ≡ Refused r };

    fn from(refusal: Refusal) -> Stop {
        Stop::Refused(refusal)
    }
}

// Every fault is made here.
pub(crate) fn fault_unless(ok: bool, stage: Stage, kind: Kind, cause: u8) -> Result<(), Stop>
    ensures { result ≡ fault_unless ok stage kind cause }
{
    if ok {
        return Ok(());
    }
    Err(Stop::Faulted(Fault { stage, kind, cause }))
}

// The first steps of a stage, with the causes of its Translation fault and its Access flag fault.
pub(crate) fn descriptor_answer(
    stage: Stage,
    translation: u8,
    flag: u8,
    valid: bool,
    af: bool,
    dirty: bool,
) -> Result<(), Stop>
    ensures { result ≡ descriptor_answer stage translation flag valid af dirty }
{
    fault_unless(valid, stage, Kind::Translation, translation)?;
    fault_unless(af, stage, Kind::AccessFlag, flag)?;
    check_if(dirty, Refusal::Unjudged)?;
    Ok(())
}
