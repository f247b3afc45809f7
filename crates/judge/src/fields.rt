// The words of leaves by single fields, for short lists.
ghost use Rattle.std.specs.Prelude.{◌≡◌};
ghost use Rattle.attributes.specs.Mirror.Known.{IsRefused};

use crate::fill::{LeafWord, Words};
use crate::walk::leaf_of;
use attributes::known::{Refused, refused_memory};
use records::setup::Setup;
use rights::words::{known_word, leaf_word};

// A setup, with what it refuses of memory.
#[derive(Drop)]
pub(crate) struct Fields {
    setup: Setup,
    memory: Refused,
    ghost made: { IsRefused setup.control setup.mair setup.mair2 memory },
}

impl Fields {
    pub(crate) fn of(setup: Setup) -> Fields
        ensures { result.setup ≡ setup }
    {
        Fields {
            setup,
            memory: refused_memory(setup.control, setup.mair, setup.mair2),
        }
    }
}

impl Words for Fields {
    ghost setup_of = { λ s. s.setup };

    #[tactic(auto, using(crate::proofs::Filled::word_is))]
    fn leaf(&self, leaves: &[u8], i: usize) -> LeafWord {
        let l = leaf_of(leaves, i);
        let known = self.memory.is_known(l.stage1, l.stage2);
        LeafWord {
            word: known_word(known, leaf_word(self.setup, l)),
            limits: l.limits,
            forbidden: l.forbidden,
        }
    }
}
