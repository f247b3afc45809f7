// The six accesses by number, and sets of them (document 01, 'Setup and leaf records'). Part of the record layer. No public function has a
// `requires`.
ghost use Rattle.std.specs.Prelude.{◌≡◌, ◌<◌};
ghost use Rattle.records.specs.Access.{read_access, level_in, has_right, has, bits_in};

use std::fmt;

#[derive(Clone, Copy, PartialEq, Eq, Debug)]
pub enum Level {
    Privileged,
    Unprivileged,
}

#[derive(Clone, Copy, PartialEq, Eq, Debug)]
pub enum Right {
    Read,
    Write,
    Execute,
}

impl fmt::Display for Level {
    ghost use Rattle.std.specs.Prelude.{Some};
    ghost use Rattle.records.specs.Access.{level_text};

    ghost output = { λ l. Some (level_text l) };

    fn fmt<W: fmt::Write>(&self, f: &mut fmt::Formatter<W>) -> fmt::Result {
        f.write_str(match self {
            Level::Privileged => "privileged",
            Level::Unprivileged => "unprivileged",
        })
    }
}

impl fmt::Display for Right {
    ghost use Rattle.std.specs.Prelude.{Some};
    ghost use Rattle.records.specs.Access.{right_text};

    ghost output = { λ r. Some (right_text r) };

    fn fmt<W: fmt::Write>(&self, f: &mut fmt::Formatter<W>) -> fmt::Result {
        f.write_str(match self {
            Right::Read => "read",
            Right::Write => "write",
            Right::Execute => "execute",
        })
    }
}

// A right of a level.
#[derive(Clone, Copy)]
pub struct Access {
    pub level: Level,
    pub right: Right,
}

// The six rights: read, write and execute, privileged and unprivileged.
#[derive(Clone, Copy)]
pub struct Rights {
    pub pr: bool,
    pub pw: bool,
    pub px: bool,
    pub ur: bool,
    pub uw: bool,
    pub ux: bool,
}

// Rights of one level.
#[derive(Clone, Copy)]
pub struct LevelRights {
    pub read: bool,
    pub write: bool,
    pub execute: bool,
}

// The access of a number, if one has it. No TryFrom: its error would say nothing that `None` does not.
#[tactic(auto, unfolding(crate::specs::Access::read_access))]
pub fn read_access(n: u64) -> Option<Access>
    ensures { result ≡ read_access n }
{
    let level = if n < 3 {
        Level::Privileged
    } else {
        Level::Unprivileged
    };
    let right = match n {
        0 | 3 => Right::Read,
        1 | 4 => Right::Write,
        2 | 5 => Right::Execute,
        _ => return None,
    };
    Some(Access { level, right })
}

// The rights of a level among the six.
fn level_in(r: Rights, l: Level) -> LevelRights
    ensures { result ≡ level_in r l }
{
    match l {
        Level::Privileged => LevelRights {
            read: r.pr,
            write: r.pw,
            execute: r.px,
        },
        Level::Unprivileged => LevelRights {
            read: r.ur,
            write: r.uw,
            execute: r.ux,
        },
    }
}

pub fn has_right(l: LevelRights, r: Right) -> bool
    ensures { result ≡ has_right l r }
{
    match r {
        Right::Read => l.read,
        Right::Write => l.write,
        Right::Execute => l.execute,
    }
}

pub fn has(r: Rights, a: Access) -> bool
    ensures { result ≡ has r a }
{
    let level = a.level;
    let right = a.right;
    has_right(level_in(r, level), right)
}

// The three bits of a level among six that stand by access number, as those of a forbidden byte do: bit 0 read, bit 1 write, bit 2 execute.
pub fn level_bits(m: u8, l: Level) -> u8
    ensures { result ≡ bits_in m l }
{
    match l {
        Level::Privileged => m % 8,
        Level::Unprivileged => (m >> 3) % 8,
    }
}
