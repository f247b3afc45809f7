// The rights and causes of a list of leaves, from one pass by the words of its leaves. A leaf that is refused is marked.
ghost use Rattle.std.specs.Prelude.{◌≡◌, ◌+◌, ◌*◌, ◌≤◌, List, ℕ, eqb, length};
ghost use Rattle.records.specs.Leaf.{leaf_count};
ghost use Rattle.records.specs.declared.setup.Setup.{Setup};
ghost use Rattle.judge.specs.Mirror.Words.{marks_in, total, put_at, clear, Found, found_at};

// What is read of a leaf: its word, and the bytes that may be too high.
#[derive(Clone, Copy)]
pub(crate) struct LeafWord {
    pub word: u64,
    pub limits: u8,
    pub forbidden: u8,
}

// A way to the words of leaves, for a setup.
pub(crate) trait Words {
    ghost setup_of: { Self → Setup };

    // What is read of leaf `i` of a list.
    fn leaf(&self, leaves: &[u8], i: usize) -> LeafWord
        requires { i * 18 + 18 ≤ length leaves.now }
        ensures { result ≡ found_at (setup_of self.now) leaves.now i };
}

// The marks of a word: bits 0 to 7 and 14 are 0 exactly where no access is open and not good and no base codes are refused.
#[tactic(auto, unfolding(crate::specs::Mirror::Words::marks_in))]
pub(crate) fn marks_in(w: u64) -> u64
    ensures { result ≡ marks_in w }
{
    (w >> 48) ^ (w >> 56)
}

// Not 0 exactly where `marks` has a mark, or limits or forbidden bits are too high.
pub(crate) fn sum_up(marks: u64, limits: u8, forbidden: u8) -> u64
    ensures { result ≡ total marks limits forbidden }
{
    ((marks % 256) | (marks >> 14)) | ((u64::from(limits) >> 4) | (u64::from(forbidden) >> 6))
}

// The eight bytes of a word, from index `at` on: its six causes, and two more, so that the compiler makes one store of them. They
// are put one by one, not by `to_le_bytes`, since must-fail/cause_of_the_next_access takes one from the next place.
#[tactic(auto, unfolding(crate::specs::Mirror::Words::put_at))]
pub(crate) fn put(causes: &mut [u8], at: usize, w: u64)
    requires { at + 8 ≤ length causes.old }
    ensures { causes.new ≡ put_at causes.old at w }
{
    causes[at] = ((w >> 0) % 256) as u8;
    causes[at + 1] = ((w >> 8) % 256) as u8;
    causes[at + 2] = ((w >> 16) % 256) as u8;
    causes[at + 3] = ((w >> 24) % 256) as u8;
    causes[at + 4] = ((w >> 32) % 256) as u8;
    causes[at + 5] = ((w >> 40) % 256) as u8;
    causes[at + 6] = ((w >> 48) % 256) as u8;
    causes[at + 7] = ((w >> 56) % 256) as u8;
}

// Puts the rights of the leaves at the start of `rights` and their causes at the start of `causes`, which has two bytes more. The answer is 0 exactly where no
// leaf is marked.
pub(crate) fn fill<W: Words>(words: &W, leaves: &[u8], rights: &mut [u8], causes: &mut [u8]) -> u64
    requires { (leaf_count leaves.now ≤ length rights.old) × (6 * leaf_count leaves.now + 2 ≤ length causes.old) }
    ensures { (eqb result 0 ≡ clear (W.setup_of words.now) leaves.now (leaf_count leaves.now)) × Found (W.setup_of words.now) leaves.now (leaf_count leaves.now) rights.new causes.new }
{
    let mut marks: u64 = 0;
    let mut limits: u8 = 0;
    let mut forbidden: u8 = 0;
    for i in 0..leaves.len() / 18 {
        let found = words.leaf(leaves, i);
        marks |= marks_in(found.word);
        limits |= found.limits;
        forbidden |= found.forbidden;
        rights[i] = ((found.word >> 48) % 256) as u8;
        put(causes, 6 * i, found.word);
    }
    sum_up(marks, limits, forbidden)
}
