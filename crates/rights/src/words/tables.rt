// The pairs of the fields of a leaf, one for each value of a field: what it keeps of the six accesses, and what it takes away. In a word that keeps, byte a
// and bit 48 + a are set where access a is kept, and bit 56 + a where it stays good; bits 54, 55 and 62 keep what refuses a pair of base codes. In a word that
// takes away, byte a is the cause, and bit 48 + a is set where access a meets a refusal.
ghost use Rattle.std.specs.Prelude.{◌≡◌};
ghost use Rattle.records.specs.declared.access.Level.TheVariants.{Privileged, Unprivileged};
ghost use Rattle.rights.specs.Mirror.Parts.{state1_words, state2_words, permissions2_words, last_words, slot_words, code_words, descriptor_words, limits_words};

use crate::words::pair::Pair;

// A table, with a line for each pair.
macro_rules! pairs {
    [$(($keeps:literal, $takes:literal)),* $(,)?] => {
        [$(Pair { keeps: $keeps, takes: $takes }),*]
    };
}

// Valid, AF and dirty state of stage 1 (11, 12).
static STATE1: [Pair; 8] = pairs![
    (0x0000_0000_0000_0000, 0x0000_0B0B_0B0B_0B0B), // -
    (0x0000_0000_0000_0000, 0x0000_0C0C_0C0C_0C0C), // valid
    (0x0000_0000_0000_0000, 0x0000_0B0B_0B0B_0B0B), // AF
    (0x7FFF_FFFF_FFFF_FFFF, 0x0000_0000_0000_0000), // valid AF
    (0x0000_0000_0000_0000, 0x0000_0B0B_0B0B_0B0B), // dirty
    (0x0000_0000_0000_0000, 0x0000_0C0C_0C0C_0C0C), // valid dirty
    (0x0000_0000_0000_0000, 0x0000_0B0B_0B0B_0B0B), // AF dirty
    (0x40FF_FFFF_FFFF_FFFF, 0x003F_0000_0000_0000), // valid AF dirty
];

// Valid, AF and dirty state of stage 2 (13, 14).
static STATE2: [Pair; 8] = pairs![
    (0x40C0_0000_0000_0000, 0x0000_0D0D_0D0D_0D0D), // -
    (0x40C0_0000_0000_0000, 0x0000_0E0E_0E0E_0E0E), // valid
    (0x40C0_0000_0000_0000, 0x0000_0D0D_0D0D_0D0D), // AF
    (0x7FFF_FFFF_FFFF_FFFF, 0x0000_0000_0000_0000), // valid AF
    (0x40C0_0000_0000_0000, 0x0000_0D0D_0D0D_0D0D), // dirty
    (0x40C0_0000_0000_0000, 0x0000_0E0E_0E0E_0E0E), // valid dirty
    (0x40C0_0000_0000_0000, 0x0000_0D0D_0D0D_0D0D), // AF dirty
    (0x40FF_FFFF_FFFF_FFFF, 0x003F_0000_0000_0000), // valid AF dirty
];

// Stage 2: S2AP (9) and XN (10).
static PERMISSIONS2: [Pair; 16] = pairs![
    (0x64E4_FF00_00FF_0000, 0x0000_0009_0900_0909), // S2AP -, XN 00
    (0x6DED_FF00_FFFF_00FF, 0x0000_0009_0000_0900), // S2AP read, XN 00
    (0x76F6_FFFF_00FF_FF00, 0x0000_0000_0900_0009), // S2AP write, XN 00
    (0x7FFF_FFFF_FFFF_FFFF, 0x0000_0000_0000_0000), // S2AP read write, XN 00
    (0x60E0_FF00_0000_0000, 0x0000_0009_090A_0909), // S2AP -, XN 01
    (0x69E9_FF00_FF00_00FF, 0x0000_0009_000A_0900), // S2AP read, XN 01
    (0x72F2_FFFF_0000_FF00, 0x0000_0000_090A_0009), // S2AP write, XN 01
    (0x7BFB_FFFF_FF00_FFFF, 0x0000_0000_000A_0000), // S2AP read write, XN 01
    (0x40C0_0000_0000_0000, 0x0000_0A09_090A_0909), // S2AP -, XN 10
    (0x49C9_0000_FF00_00FF, 0x0000_0A09_000A_0900), // S2AP read, XN 10
    (0x52D2_00FF_0000_FF00, 0x0000_0A00_090A_0009), // S2AP write, XN 10
    (0x5BDB_00FF_FF00_FFFF, 0x0000_0A00_000A_0000), // S2AP read write, XN 10
    (0x44C4_0000_00FF_0000, 0x0000_0A09_0900_0909), // S2AP -, XN 11
    (0x4DCD_0000_FFFF_00FF, 0x0000_0A09_0000_0900), // S2AP read, XN 11
    (0x56D6_00FF_00FF_FF00, 0x0000_0A00_0900_0009), // S2AP write, XN 11
    (0x5FDF_00FF_FFFF_FFFF, 0x0000_0A00_0000_0000), // S2AP read write, XN 11
];

// Unprivileged write (5), WXN (6) and PAN (7), by what they read.
static LAST: [Pair; 16] = pairs![
    (0x7FFF_FFFF_FFFF_FFFF, 0x0000_0000_0000_0000), // -
    (0x7FFF_FFFF_FFFF_FFFF, 0x0000_0000_0000_0000), // pw
    (0x7FFF_FFFF_FFFF_FFFF, 0x0000_0000_0000_0000), // WXN
    (0x7BFB_FFFF_FF00_FFFF, 0x0000_0000_0006_0000), // pw WXN
    (0x7FFF_FFFF_FFFF_FFFF, 0x0000_0000_0000_0000), // ur
    (0x7BFB_FFFF_FF00_FFFF, 0x0000_0000_0005_0000), // pw ur
    (0x7FFF_FFFF_FFFF_FFFF, 0x0000_0000_0000_0000), // WXN ur
    (0x5BDB_00FF_FF00_FFFF, 0x0000_0600_0005_0000), // pw WXN ur
    (0x7FFF_FFFF_FFFF_FFFF, 0x0000_0000_0000_0000), // PAN
    (0x7FFF_FFFF_FFFF_FFFF, 0x0000_0000_0000_0000), // pw PAN
    (0x7FFF_FFFF_FFFF_FFFF, 0x0000_0000_0000_0000), // WXN PAN
    (0x7BFB_FFFF_FF00_FFFF, 0x0000_0000_0006_0000), // pw WXN PAN
    (0x7CFC_FFFF_FFFF_0000, 0x0000_0000_0000_0707), // ur PAN
    (0x78F8_FFFF_FF00_0000, 0x0000_0000_0005_0707), // pw ur PAN
    (0x7CFC_FFFF_FFFF_0000, 0x0000_0000_0000_0707), // WXN ur PAN
    (0x58D8_00FF_FF00_0000, 0x0000_0600_0005_0707), // pw WXN ur PAN
];

// Overlay slots (8), reserved from 8 on, of the privileged level and of the unprivileged one.
static PRIVILEGED_SLOTS: [Pair; 16] = pairs![
    (0x78F8_FFFF_FF00_0000, 0x0000_0000_0008_0808), // 0
    (0x79F9_FFFF_FF00_00FF, 0x0000_0000_0008_0800), // 1
    (0x7CFC_FFFF_FFFF_0000, 0x0000_0000_0000_0808), // 2
    (0x7DFD_FFFF_FFFF_00FF, 0x0000_0000_0000_0800), // 3
    (0x7AFA_FFFF_FF00_FF00, 0x0000_0000_0008_0008), // 4
    (0x7BFB_FFFF_FF00_FFFF, 0x0000_0000_0008_0000), // 5
    (0x7EFE_FFFF_FFFF_FF00, 0x0000_0000_0000_0008), // 6
    (0x7FFF_FFFF_FFFF_FFFF, 0x0000_0000_0000_0000), // 7
    (0x78F8_FFFF_FF00_0000, 0x0007_0000_0008_0808), // 8
    (0x78F8_FFFF_FF00_0000, 0x0007_0000_0008_0808), // 9
    (0x78F8_FFFF_FF00_0000, 0x0007_0000_0008_0808), // 10
    (0x78F8_FFFF_FF00_0000, 0x0007_0000_0008_0808), // 11
    (0x78F8_FFFF_FF00_0000, 0x0007_0000_0008_0808), // 12
    (0x78F8_FFFF_FF00_0000, 0x0007_0000_0008_0808), // 13
    (0x78F8_FFFF_FF00_0000, 0x0007_0000_0008_0808), // 14
    (0x78F8_FFFF_FF00_0000, 0x0007_0000_0008_0808), // 15
];

static UNPRIVILEGED_SLOTS: [Pair; 16] = pairs![
    (0x47C7_0000_00FF_FFFF, 0x0000_0808_0800_0000), // 0
    (0x4FCF_0000_FFFF_FFFF, 0x0000_0808_0000_0000), // 1
    (0x67E7_FF00_00FF_FFFF, 0x0000_0008_0800_0000), // 2
    (0x6FEF_FF00_FFFF_FFFF, 0x0000_0008_0000_0000), // 3
    (0x57D7_00FF_00FF_FFFF, 0x0000_0800_0800_0000), // 4
    (0x5FDF_00FF_FFFF_FFFF, 0x0000_0800_0000_0000), // 5
    (0x77F7_FFFF_00FF_FFFF, 0x0000_0000_0800_0000), // 6
    (0x7FFF_FFFF_FFFF_FFFF, 0x0000_0000_0000_0000), // 7
    (0x47C7_0000_00FF_FFFF, 0x0038_0808_0800_0000), // 8
    (0x47C7_0000_00FF_FFFF, 0x0038_0808_0800_0000), // 9
    (0x47C7_0000_00FF_FFFF, 0x0038_0808_0800_0000), // 10
    (0x47C7_0000_00FF_FFFF, 0x0038_0808_0800_0000), // 11
    (0x47C7_0000_00FF_FFFF, 0x0038_0808_0800_0000), // 12
    (0x47C7_0000_00FF_FFFF, 0x0038_0808_0800_0000), // 13
    (0x47C7_0000_00FF_FFFF, 0x0038_0808_0800_0000), // 14
    (0x47C7_0000_00FF_FFFF, 0x0038_0808_0800_0000), // 15
];

// Base codes (1). Bits 60 and 61: the code is refused; bit 62: px of the privileged code, uw of the unprivileged one.
static PRIVILEGED_CODES: [Pair; 16] = pairs![
    (0x38B8_FFFF_FF00_0000, 0x0000_0000_0001_0101), // 0
    (0x39B9_FFFF_FF00_00FF, 0x0000_0000_0001_0100), // 1
    (0x7CBC_FFFF_FFFF_0000, 0x0000_0000_0000_0101), // 2
    (0x7DBD_FFFF_FFFF_00FF, 0x0000_0000_0000_0100), // 3
    (0x38F8_FFFF_FF00_0000, 0x0000_0000_0001_0101), // 4
    (0x3BBB_FFFF_FF00_FFFF, 0x0000_0000_0001_0000), // 5
    (0x38F8_FFFF_FF00_0000, 0x0000_0000_0001_0101), // 6
    (0x7FBF_FFFF_FFFF_FFFF, 0x0000_0000_0000_0000), // 7
    (0x39B9_FFFF_FF00_00FF, 0x0000_0000_0001_0100), // 8
    (0x39B9_FFFF_FF00_00FF, 0x0000_0000_0001_0100), // 9
    (0x7DBD_FFFF_FFFF_00FF, 0x0000_0000_0000_0100), // 10
    (0x38F8_FFFF_FF00_0000, 0x0000_0000_0001_0101), // 11
    (0x3BBB_FFFF_FF00_FFFF, 0x0000_0000_0001_0000), // 12
    (0x38F8_FFFF_FF00_0000, 0x0000_0000_0001_0101), // 13
    (0x7FBF_FFFF_FFFF_FFFF, 0x0000_0000_0000_0000), // 14
    (0x38F8_FFFF_FF00_0000, 0x0000_0000_0001_0101), // 15
];

static UNPRIVILEGED_CODES: [Pair; 16] = pairs![
    (0x0747_0000_00FF_FFFF, 0x0000_0101_0100_0000), // 0
    (0x0F4F_0000_FFFF_FFFF, 0x0000_0101_0000_0000), // 1
    (0x2767_FF00_00FF_FFFF, 0x0000_0001_0100_0000), // 2
    (0x2F6F_FF00_FFFF_FFFF, 0x0000_0001_0000_0000), // 3
    (0x07C7_0000_00FF_FFFF, 0x0000_0101_0100_0000), // 4
    (0x5F5F_00FF_FFFF_FFFF, 0x0000_0100_0000_0000), // 5
    (0x07C7_0000_00FF_FFFF, 0x0000_0101_0100_0000), // 6
    (0x7F7F_FFFF_FFFF_FFFF, 0x0000_0000_0000_0000), // 7
    (0x0F4F_0000_FFFF_FFFF, 0x0000_0101_0000_0000), // 8
    (0x0F4F_0000_FFFF_FFFF, 0x0000_0101_0000_0000), // 9
    (0x2F6F_FF00_FFFF_FFFF, 0x0000_0001_0000_0000), // 10
    (0x07C7_0000_00FF_FFFF, 0x0000_0101_0100_0000), // 11
    (0x5F5F_00FF_FFFF_FFFF, 0x0000_0100_0000_0000), // 12
    (0x07C7_0000_00FF_FFFF, 0x0000_0101_0100_0000), // 13
    (0x7F7F_FFFF_FFFF_FFFF, 0x0000_0000_0000_0000), // 14
    (0x07C7_0000_00FF_FFFF, 0x0000_0101_0100_0000), // 15
];

// AP (1), PXN and UXN (3).
static DESCRIPTOR: [Pair; 16] = pairs![
    (0x2727_FF00_00FF_FFFF, 0x0000_0001_0100_0000), // -
    (0x3F3F_FFFF_FFFF_FFFF, 0x0000_0000_0000_0000), // AP[1]
    (0x2525_FF00_00FF_00FF, 0x0000_0001_0100_0100), // AP[2]
    (0x2D2D_FF00_FFFF_00FF, 0x0000_0001_0000_0100), // AP[1] AP[2]
    (0x2323_FF00_0000_FFFF, 0x0000_0001_0103_0000), // PXN
    (0x3B3B_FFFF_FF00_FFFF, 0x0000_0000_0003_0000), // AP[1] PXN
    (0x2121_FF00_0000_00FF, 0x0000_0001_0103_0100), // AP[2] PXN
    (0x2929_FF00_FF00_00FF, 0x0000_0001_0003_0100), // AP[1] AP[2] PXN
    (0x0707_0000_00FF_FFFF, 0x0000_0301_0100_0000), // UXN
    (0x1F1F_00FF_FFFF_FFFF, 0x0000_0300_0000_0000), // AP[1] UXN
    (0x0505_0000_00FF_00FF, 0x0000_0301_0100_0100), // AP[2] UXN
    (0x0D0D_0000_FFFF_00FF, 0x0000_0301_0000_0100), // AP[1] AP[2] UXN
    (0x0303_0000_0000_FFFF, 0x0000_0301_0103_0000), // PXN UXN
    (0x1B1B_00FF_FF00_FFFF, 0x0000_0300_0003_0000), // AP[1] PXN UXN
    (0x0101_0000_0000_00FF, 0x0000_0301_0103_0100), // AP[2] PXN UXN
    (0x0909_0000_FF00_00FF, 0x0000_0301_0003_0100), // AP[1] AP[2] PXN UXN
];

// APTable (2), PXNTable and UXNTable (4).
static LIMITS: [Pair; 16] = pairs![
    (0x7FFF_FFFF_FFFF_FFFF, 0x0000_0000_0000_0000), // -
    (0x67E7_FF00_00FF_FFFF, 0x0000_0002_0200_0000), // APTable[0]
    (0x6DED_FF00_FFFF_00FF, 0x0000_0002_0000_0200), // APTable[1]
    (0x65E5_FF00_00FF_00FF, 0x0000_0002_0200_0200), // APTable[0] APTable[1]
    (0x7BFB_FFFF_FF00_FFFF, 0x0000_0000_0004_0000), // PXNTable
    (0x63E3_FF00_0000_FFFF, 0x0000_0002_0204_0000), // APTable[0] PXNTable
    (0x69E9_FF00_FF00_00FF, 0x0000_0002_0004_0200), // APTable[1] PXNTable
    (0x61E1_FF00_0000_00FF, 0x0000_0002_0204_0200), // APTable[0] APTable[1] PXNTable
    (0x5FDF_00FF_FFFF_FFFF, 0x0000_0400_0000_0000), // UXNTable
    (0x47C7_0000_00FF_FFFF, 0x0000_0402_0200_0000), // APTable[0] UXNTable
    (0x4DCD_0000_FFFF_00FF, 0x0000_0402_0000_0200), // APTable[1] UXNTable
    (0x45C5_0000_00FF_00FF, 0x0000_0402_0200_0200), // APTable[0] APTable[1] UXNTable
    (0x5BDB_00FF_FF00_FFFF, 0x0000_0400_0004_0000), // PXNTable UXNTable
    (0x43C3_0000_0000_FFFF, 0x0000_0402_0204_0000), // APTable[0] PXNTable UXNTable
    (0x49C9_0000_FF00_00FF, 0x0000_0402_0004_0200), // APTable[1] PXNTable UXNTable
    (0x41C1_0000_0000_00FF, 0x0000_0402_0204_0200), // APTable[0] APTable[1] PXNTable UXNTable
];

// The same two with one level.
static DESCRIPTOR_ONE: [Pair; 16] = pairs![
    (0x0707_0000_00FF_FFFF, 0x0000_0101_0100_0000), // -
    (0x0707_0000_00FF_FFFF, 0x0000_0101_0100_0000), // AP[1]
    (0x0505_0000_00FF_00FF, 0x0000_0101_0100_0100), // AP[2]
    (0x0505_0000_00FF_00FF, 0x0000_0101_0100_0100), // AP[1] AP[2]
    (0x0707_0000_00FF_FFFF, 0x0000_0101_0100_0000), // PXN
    (0x0707_0000_00FF_FFFF, 0x0000_0101_0100_0000), // AP[1] PXN
    (0x0505_0000_00FF_00FF, 0x0000_0101_0100_0100), // AP[2] PXN
    (0x0505_0000_00FF_00FF, 0x0000_0101_0100_0100), // AP[1] AP[2] PXN
    (0x0303_0000_0000_FFFF, 0x0000_0101_0103_0000), // XN
    (0x0303_0000_0000_FFFF, 0x0000_0101_0103_0000), // AP[1] XN
    (0x0101_0000_0000_00FF, 0x0000_0101_0103_0100), // AP[2] XN
    (0x0101_0000_0000_00FF, 0x0000_0101_0103_0100), // AP[1] AP[2] XN
    (0x0303_0000_0000_FFFF, 0x0000_0101_0103_0000), // PXN XN
    (0x0303_0000_0000_FFFF, 0x0000_0101_0103_0000), // AP[1] PXN XN
    (0x0101_0000_0000_00FF, 0x0000_0101_0103_0100), // AP[2] PXN XN
    (0x0101_0000_0000_00FF, 0x0000_0101_0103_0100), // AP[1] AP[2] PXN XN
];

static LIMITS_ONE: [Pair; 16] = pairs![
    (0x7FFF_FFFF_FFFF_FFFF, 0x0000_0000_0000_0000), // -
    (0x7FFF_FFFF_FFFF_FFFF, 0x0000_0000_0000_0000), // APTable[0]
    (0x6DED_FF00_FFFF_00FF, 0x0000_0002_0000_0200), // APTable[1]
    (0x6DED_FF00_FFFF_00FF, 0x0000_0002_0000_0200), // APTable[0] APTable[1]
    (0x7FFF_FFFF_FFFF_FFFF, 0x0000_0000_0000_0000), // PXNTable
    (0x7FFF_FFFF_FFFF_FFFF, 0x0000_0000_0000_0000), // APTable[0] PXNTable
    (0x6DED_FF00_FFFF_00FF, 0x0000_0002_0000_0200), // APTable[1] PXNTable
    (0x6DED_FF00_FFFF_00FF, 0x0000_0002_0000_0200), // APTable[0] APTable[1] PXNTable
    (0x7BFB_FFFF_FF00_FFFF, 0x0000_0000_0004_0000), // XNTable
    (0x7BFB_FFFF_FF00_FFFF, 0x0000_0000_0004_0000), // APTable[0] XNTable
    (0x69E9_FF00_FF00_00FF, 0x0000_0002_0004_0200), // APTable[1] XNTable
    (0x69E9_FF00_FF00_00FF, 0x0000_0002_0004_0200), // APTable[0] APTable[1] XNTable
    (0x7BFB_FFFF_FF00_FFFF, 0x0000_0000_0004_0000), // PXNTable XNTable
    (0x7BFB_FFFF_FF00_FFFF, 0x0000_0000_0004_0000), // APTable[0] PXNTable XNTable
    (0x69E9_FF00_FF00_00FF, 0x0000_0002_0004_0200), // APTable[1] PXNTable XNTable
    (0x69E9_FF00_FF00_00FF, 0x0000_0002_0004_0200), // APTable[0] APTable[1] PXNTable XNTable
];

// Of valid, AF and dirty state of stage 1.
#[tactic(auto, unfolding(crate::specs::Mirror::Parts::state1_words, crate::specs::Mirror::Words::keep_of, crate::specs::Mirror::Words::take_of))]
pub(crate) fn state1_words() -> &'static [Pair; 8]
    ensures { result.now ≡ state1_words }
{
    &STATE1
}

// Of valid, AF and dirty state of stage 2.
#[tactic(auto, unfolding(crate::specs::Mirror::Parts::state2_words, crate::specs::Mirror::Words::keep_of, crate::specs::Mirror::Words::take_of))]
pub(crate) fn state2_words() -> &'static [Pair; 8]
    ensures { result.now ≡ state2_words }
{
    &STATE2
}

// Of S2AP and XN.
#[tactic(auto, unfolding(crate::specs::Mirror::Parts::permissions2_words, crate::specs::Mirror::Words::keep_of, crate::specs::Mirror::Words::take_of, crate::specs::Stage2::xn_px, crate::specs::Stage2::xn_ux))]
pub(crate) fn permissions2_words() -> &'static [Pair; 16]
    ensures { result.now ≡ permissions2_words }
{
    &PERMISSIONS2
}

// Of the steps that read rights.
#[tactic(auto, unfolding(crate::specs::Mirror::Parts::last_words, crate::specs::Mirror::Words::keep_of, crate::specs::Mirror::Words::take_of))]
pub(crate) fn last_words() -> &'static [Pair; 16]
    ensures { result.now ≡ last_words }
{
    &LAST
}

// Of overlay slots.
#[tactic(auto, unfolding(crate::specs::Mirror::Parts::slot_words, crate::specs::Mirror::Words::keep_of, crate::specs::Mirror::Words::take_of))]
pub(crate) fn privileged_slot_words() -> &'static [Pair; 16]
    ensures { result.now ≡ slot_words Privileged }
{
    &PRIVILEGED_SLOTS
}

// The same of the unprivileged level.
#[tactic(auto, unfolding(crate::specs::Mirror::Parts::slot_words, crate::specs::Mirror::Words::keep_of, crate::specs::Mirror::Words::take_of))]
pub(crate) fn unprivileged_slot_words() -> &'static [Pair; 16]
    ensures { result.now ≡ slot_words Unprivileged }
{
    &UNPRIVILEGED_SLOTS
}

// Of base codes.
#[tactic(auto, unfolding(crate::specs::Mirror::Parts::code_words, crate::specs::Mirror::Words::keep_of, crate::specs::Mirror::Words::take_of, crate::specs::Indirect::code_of))]
pub(crate) fn privileged_code_words() -> &'static [Pair; 16]
    ensures { result.now ≡ code_words Privileged }
{
    &PRIVILEGED_CODES
}

// The same of the unprivileged level.
#[tactic(auto, unfolding(crate::specs::Mirror::Parts::code_words, crate::specs::Mirror::Words::keep_of, crate::specs::Mirror::Words::take_of, crate::specs::Indirect::code_of))]
pub(crate) fn unprivileged_code_words() -> &'static [Pair; 16]
    ensures { result.now ≡ code_words Unprivileged }
{
    &UNPRIVILEGED_CODES
}

// Of AP, PXN and UXN.
#[tactic(auto, unfolding(crate::specs::Mirror::Parts::descriptor_words, crate::specs::Mirror::Words::keep_of, crate::specs::Mirror::Words::take_of, crate::specs::Direct::ap))]
pub(crate) fn descriptor_words(two: bool) -> &'static [Pair; 16]
    ensures { result.now ≡ descriptor_words two }
{
    if two {
        return &DESCRIPTOR;
    }
    &DESCRIPTOR_ONE
}

// Of the limits.
#[tactic(auto, unfolding(crate::specs::Mirror::Parts::limits_words, crate::specs::Mirror::Words::keep_of, crate::specs::Mirror::Words::take_of, crate::specs::Direct::ap))]
pub(crate) fn limits_words(two: bool) -> &'static [Pair; 16]
    ensures { result.now ≡ limits_words two }
{
    if two {
        return &LIMITS;
    }
    &LIMITS_ONE
}
