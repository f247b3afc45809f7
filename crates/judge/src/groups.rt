// The words of leaves by groups of fields, for long lists: the tables of the groups are made first.
ghost use Rattle.std.specs.Prelude.{◌≡◌};
ghost use Rattle.attributes.specs.Mirror.Known.{IsRefused};
ghost use Rattle.rights.specs.Mirror.Groups.{IsStage2If};
ghost use Rattle.judge.specs.Mirror.Words.{groups_at, Gives};

use crate::fill::{LeafWord, Words};
use attributes::known::{Refused, refused_memory};
use records::descriptor::places::leaf_places;
use records::setup::Setup;
use rights::words::groups::{Stage1Groups, Stage2, Stage2Groups, stage2_groups};

// What a setup decides whatever stage 1's mode is: what it refuses of memory, and the groups of stage 2, where it is on.
#[derive(Drop)]
pub(crate) struct Second {
    pub setup: Setup,
    pub memory: Refused,
    pub groups: Option<Stage2Groups>,
    ghost refused: { IsRefused setup.control setup.mair setup.mair2 memory },
    ghost made: { IsStage2If memory.stage2 setup.control.stage2 groups },
}

impl Second {
    pub(crate) fn of(setup: Setup) -> Second
        ensures { result.setup ≡ setup }
    {
        let memory = refused_memory(setup.control, setup.mair, setup.mair2);
        Second {
            setup,
            memory,
            groups: stage2_groups(setup.control.stage2, &memory.stage2),
        }
    }
}

// A setup, with what makes the words of stage 1 in its mode and of stage 2.
#[derive(Drop)]
pub(crate) struct Groups<'a, F: Stage1Groups, S: Stage2> {
    pub setup: &'a Setup,
    pub first: &'a F,
    pub second: &'a S,
    ghost gives: { Gives setup.now (groups_at (F.number first.now) (S.number second.now)) },
}

impl<'a, F: Stage1Groups, S: Stage2> Words for Groups<'a, F, S> {
    ghost setup_of = { λ s. s.setup.now };

    fn leaf(&self, leaves: &[u8], i: usize) -> LeafWord {
        let f = leaf_places(leaves, i);
        let left = self.second.word(f.stage2);
        LeafWord {
            word: self.first.word(f.stage1, f.limits, left),
            limits: f.limits,
            forbidden: f.forbidden,
        }
    }
}
