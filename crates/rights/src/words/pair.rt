// What a field of a leaf, or several, keep of a word and what they take away.
ghost use Rattle.std.specs.Prelude.{◌≡◌, ◌<◌, ℕ};
ghost use Rattle.rights.specs.Mirror.Parts.{after};
ghost use Rattle.rights.specs.Mirror.Groups.{before, masked, pair_in};

#[derive(Clone, Copy)]
pub struct Pair {
    pub keeps: u64,
    pub takes: u64,
}

impl Pair {
    // Before the word of what follows.
    #[tactic(auto, unfolding(crate::specs::Mirror::Parts::after))]
    pub(crate) fn join(self, w: u64) -> u64
        ensures { result ≡ after self w }
    {
        self.takes | (self.keeps & w)
    }

    // Before other fields.
    #[tactic(auto, unfolding(crate::specs::Mirror::Groups::before))]
    pub(crate) fn before(self, q: Pair) -> Pair
        ensures { result ≡ before self q }
    {
        Pair {
            keeps: self.keeps & q.keeps,
            takes: self.takes | (self.keeps & q.takes),
        }
    }

    // Under a mask.
    #[tactic(auto, unfolding(crate::specs::Mirror::Groups::masked))]
    pub(crate) fn masked(self, mask: u64) -> Pair
        ensures { result ≡ masked self mask }
    {
        Pair {
            keeps: mask & self.keeps,
            takes: mask & self.takes,
        }
    }
}

// A table of pairs. What its entries keep and what they take away are two arrays, since an array of pairs was tried and takes 2 to 7 instructions more a leaf: a
// processor multiplies an index by 8 as it reads, and not by 16.
#[derive(Clone, Copy)]
pub struct Table<const N: usize> {
    pub(crate) keeps: [u64; N],
    pub(crate) takes: [u64; N],
}

impl<const N: usize> Table<N> {
    // The table that has `f` of `k` at each entry `k`.
    pub(crate) fn of<F: Fn(usize) -> Pair>(f: F) -> Table<N>
        requires { (k : ℕ) → k < N → F.pre f k }
        ensures { (k : ℕ) → k < N → F.post f k (pair_in result k) }
    {
        let mut t = Table {
            keeps: [0; N],
            takes: [0; N],
        };
        for k in 0..N {
            let p = f(k);
            t.keeps[k] = p.keeps;
            t.takes[k] = p.takes;
        }
        t
    }

    // The pair of entry `k` before the word of what follows.
    pub(crate) fn join(&self, k: usize, w: u64) -> u64
        requires { k < N }
        ensures { result ≡ after (pair_in self.now k) w }
    {
        let p = Pair {
            keeps: self.keeps[k],
            takes: self.takes[k],
        };
        p.join(w)
    }
}
