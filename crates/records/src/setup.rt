// A setup of 52 bytes (document 01, 'Setup and leaf records', first paragraph): as words, and with the control word by its bits. Part of the
// record layer. No public function has a `requires`: each refuses what it can't read, or is total.
ghost use Rattle.std.specs.Prelude.{◌≡◌, length};
ghost use Rattle.records.specs.Setup.{words_of, read_words, control_of, setup_from, read_setup, of_level, byte_in};

use crate::access::Level;
use crate::number::{half, word};
use crate::refusal::Refusal;

// One for each privilege level.
#[derive(Clone, Copy)]
pub struct PerLevel<T> {
    pub privileged: T,
    pub unprivileged: T,
}

impl<T: Copy> PerLevel<T> {
    // That of a level.
    pub fn of(self, l: Level) -> T
        ensures { result ≡ of_level self l }
    {
        match l {
            Level::Privileged => self.privileged,
            Level::Unprivileged => self.unprivileged,
        }
    }
}

// A setup as it stands: the control word and six registers.
#[derive(Clone, Copy)]
pub struct Words {
    pub control: u32,
    pub mair: u64,
    pub mair2: u64,
    pub pir: PerLevel<u64>,
    pub por: PerLevel<u64>,
}

// The control bits, 0 to 12 in order, and whether one above 12 is set.
#[derive(Clone, Copy)]
pub struct Control {
    // Two privilege levels.
    pub two: bool,
    pub stage1: bool,
    pub stage2: bool,
    pub indirect: bool,
    pub overlay: PerLevel<bool>,
    pub wxn: bool,
    pub pan: bool,
    // Table limits disabled.
    pub unlimited: bool,
    pub fwb: bool,
    pub dc: bool,
    // Instruction cacheable.
    pub icacheable: bool,
    pub aie: bool,
    pub above: bool,
}

// A setup: the control bits by name, and the registers.
#[derive(Clone, Copy)]
pub struct Setup {
    pub control: Control,
    pub mair: u64,
    pub mair2: u64,
    pub pir: PerLevel<u64>,
    pub por: PerLevel<u64>,
}

// The byte that AttrIndx[2:0] picks in MAIR or MAIR2.
pub fn byte_in(mair: u64, attrindx: u8) -> u8
    ensures { result ≡ byte_in mair attrindx }
{
    ((mair >> (8 * (attrindx % 8))) % 256) as u8
}

#[tactic(auto, unfolding(crate::specs::Setup::words_of))]
fn words_of(s: &[u8]) -> Words
    requires { length s.now ≡ 52 }
    ensures { result ≡ words_of s.now }
{
    Words {
        control: half(s, 0),
        mair: word(s, 4),
        mair2: word(s, 12),
        pir: PerLevel {
            privileged: word(s, 20),
            unprivileged: word(s, 28),
        },
        por: PerLevel {
            privileged: word(s, 36),
            unprivileged: word(s, 44),
        },
    }
}

// The words of a setup of 52 bytes, or 13.
#[tactic(auto, unfolding(crate::specs::Setup::read_words))]
pub fn read_words(s: &[u8]) -> Result<Words, Refusal>
    ensures { result ≡ read_words s.now }
{
    if s.len() != 52 {
        return Err(Refusal::IllFormed);
    }
    Ok(words_of(s))
}

// The control bits of a control word.
#[tactic(auto, unfolding(crate::specs::Setup::control_of))]
pub fn read_control(w: u32) -> Control
    ensures { result ≡ control_of w }
{
    Control {
        two: (w >> 0) % 2 == 1,
        stage1: (w >> 1) % 2 == 1,
        stage2: (w >> 2) % 2 == 1,
        indirect: (w >> 3) % 2 == 1,
        overlay: PerLevel {
            privileged: (w >> 4) % 2 == 1,
            unprivileged: (w >> 5) % 2 == 1,
        },
        wxn: (w >> 6) % 2 == 1,
        pan: (w >> 7) % 2 == 1,
        unlimited: (w >> 8) % 2 == 1,
        fwb: (w >> 9) % 2 == 1,
        dc: (w >> 10) % 2 == 1,
        icacheable: (w >> 11) % 2 == 1,
        aie: (w >> 12) % 2 == 1,
        above: 8192 <= w,
    }
}

// The setup of these words.
#[tactic(auto, unfolding(crate::specs::Setup::setup_from))]
fn setup_from(w: Words) -> Setup
    ensures { result ≡ setup_from w }
{
    let pir = w.pir;
    let por = w.por;
    Setup {
        control: read_control(w.control),
        mair: w.mair,
        mair2: w.mair2,
        pir,
        por,
    }
}

// The setup of 52 bytes, or 13.
#[tactic(auto, unfolding(crate::specs::Setup::read_setup, crate::specs::Setup::read_words, crate::specs::Setup::setup_of))]
pub fn read_setup(s: &[u8]) -> Result<Setup, Refusal>
    ensures { result ≡ read_setup s.now }
{
    Ok(setup_from(read_words(s)?))
}
