// Stage 1's byte `b` combined with stage 2's MemAttr `m`. Part of the attribute layer.
ghost use Rattle.std.specs.Prelude.{◌≡◌, ◌<◌};
ghost use Rattle.attributes.specs.Mair.{class_of};
ghost use Rattle.attributes.specs.Combine.{with_device, weaker, level_nibble, normal_byte, combine_clear, combine_set, combine, result_of};

use crate::mair::is_device;
use records::setup::Setup;

// The class of a nibble: 1 Non-cacheable, 2 Write-Through, 3 Write-Back. A number and no enum: stage 2's are two bits of MemAttr as they stand (`outer_class`,
// `inner_class` of specs/StageTwoType), 0 among them, and the theorem `weakens` compares both.
fn class(n: u8) -> u8
    ensures { result ≡ class_of n }
{
    if n == 4 {
        return 1;
    }
    if (n >> 2) % 2 == 1 {
        return 3;
    }
    2
}

// The weaker of a nibble's class and another.
fn weaker_class(n: u8, c: u8) -> u8
    ensures { result ≡ weaker (class_of n) c }
{
    class(n).min(c)
}

// The stricter of stage 1's byte, where it is a Device, and stage 2's Device.
fn with_device(b: u8, m: u8) -> u8
    requires { m < 4 }
    ensures { result ≡ with_device b m }
{
    let device = 4 * m;
    if is_device(b) & (b <= device) {
        return b;
    }
    device
}

// The nibble of a level that becomes class `c`, where stage 1 has nibble `n` of a Normal byte or of a Device's.
fn level_nibble(normal: bool, n: u8, c: u8) -> u8
    ensures { (result ≡ level_nibble normal n c) × (result < 16) }
{
    if c == 1 {
        return 4;
    }
    if normal & (n != 4) {
        let hints = 8 * (n / 8 % 2) + n % 4; // bit 3, and bits 1:0
        if c == 3 {
            return 4 + hints;
        }
        return hints;
    }
    15
}

// The byte whose outer level has class `o` and whose inner level has class `i`, with stage 1's hints.
fn normal_byte(b: u8, o: u8, i: u8) -> u8
    ensures { result ≡ normal_byte b o i }
{
    let normal = !is_device(b);
    16 * level_nibble(normal, b / 16, o) + level_nibble(normal, b % 16, i)
}

// FWB clear, no Device at stage 2.
fn combine_clear(b: u8, m: u8) -> u8
    ensures { result ≡ combine_clear b m }
{
    if is_device(b) {
        return b;
    }
    normal_byte(b, weaker_class(b / 16, m / 4), weaker_class(b % 16, m % 4))
}

// FWB set, no Device at stage 2: 5 makes Normal 44, 6 forces Write-Back, 7 keeps stage 1's type.
fn combine_set(b: u8, m: u8) -> u8
    ensures { result ≡ combine_set b m }
{
    match m {
        5 => {
            if is_device(b) {
                return b;
            }
            0x44
        }
        6 => normal_byte(b, 3, 3),
        _ => b,
    }
}

// Stage 1's byte combined with MemAttr.
#[tactic(auto, unfolding(crate::specs::Combine::combine))]
fn combined(fwb: bool, b: u8, m: u8) -> u8
    ensures { result ≡ combine fwb b m }
{
    if m < 4 {
        return with_device(b, m);
    }
    if fwb {
        return combine_set(b, m);
    }
    combine_clear(b, m)
}

// The answer's byte. With stage 2 off, stage 1's byte stands.
#[tactic(auto, unfolding(crate::specs::Combine::result_of))]
pub(crate) fn result_byte(s: Setup, b: u8, m: u8) -> u8
    ensures { result ≡ result_of s b m }
{
    if s.control.stage2 {
        return combined(s.control.fwb, b, m);
    }
    b
}
