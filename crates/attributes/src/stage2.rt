// Stage 2's type: values of MemAttr. Part of the attribute layer.
ghost use Rattle.std.specs.Prelude.{◌≡◌};
ghost use Rattle.attributes.specs.StageTwoType.{mem_attr_of, reserved_code, uncached_code};

use records::descriptor::Stage2;

// MemAttr, which has four bits.
#[tactic(auto, unfolding(crate::specs::StageTwoType::mem_attr_of))]
pub(crate) fn mem_attr(e: Stage2) -> u8
    ensures { result ≡ mem_attr_of e }
{
    e.memattr % 16
}

// MemAttr is reserved or needs an extension.
pub(crate) fn reserved_code(fwb: bool, m: u8) -> bool
    ensures { result ≡ reserved_code fwb m }
{
    if fwb {
        return ((m >> 3) % 2 == 1) | (m % 8 == 4);
    }
    (m == 4) | ((m == 8) | (m == 12))
}

// Stage 2's own type is a Device or 44.
pub(crate) fn uncached_code(m: u8) -> bool
    ensures { result ≡ uncached_code m }
{
    (m < 4) | (m == 5)
}
