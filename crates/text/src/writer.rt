// Writes text into a lent buffer.
ghost use Rattle.std.specs.Prelude.{◌≤◌, length};

// The text so far is the first `len` bytes of `out`. What no longer fits is left out, so that no method asks for room.
pub(crate) struct Writer<'a> {
    out: &'a mut [u8],
    len: usize,
    ghost within: { len ≤ length out.now },
}

impl<'a> Writer<'a> {
    ghost use Rattle.std.specs.Prelude.{◌≡◌, []};
    ghost use Rattle.text.specs.Lines.{decimal, hex16};
    ghost use Rattle.text.specs.Mirror.Writer.{Adds, Holds};

    pub(crate) fn new(out: &'a mut [u8]) -> Writer<'a>
        ensures same { result.out.ghost_name ≡ out.entry.ghost_name }
        ensures empty { Holds out.old [] result }
    {
        Writer { out, len: 0 }
    }

    pub(crate) fn word(&mut self, word: &[u8])
        ensures { Adds self.old word.now self.new }
    {
        let n = word.len().min(self.out.len() - self.len);
        let end = self.len + n;
        self.out[self.len..end].copy_from_slice(&word[..n]);
        self.len = end;
    }

    // A number in decimal. No `write!` here or below: its one clause is of an `Ok`, and nothing says that its answer is one.
    pub(crate) fn number(&mut self, n: u64)
        ensures { Adds self.old (decimal n) self.new }
    {
        let mut digits = [0u8; 20];
        let k = io::decimal(n, &mut digits);
        self.word(&digits[..k]);
    }

    // A register as 16 hex digits.
    pub(crate) fn hex(&mut self, n: u64)
        ensures { Adds self.old (hex16 n) self.new }
    {
        let mut digits = [0u8; 16];
        let k = io::hex(n, 16, &mut digits);
        self.word(&digits[..k]);
    }

    // Ends the text and answers its length.
    pub(crate) fn finish(self) -> usize
        ensures len { result ≡ self.entry.len }
        ensures out { self.exit.0.now ≡ self.entry.out.now }
    {
        let Writer { out: _, len } = self;
        len
    }
}
