// The lines of the program's text.
use crate::writer::Writer;

impl Writer<'_> {
    ghost use Rattle.std.specs.Prelude.{◌≤◌, length};
    ghost use Rattle.text.specs.Lines.{ascii, last_number, leaf_line, refusal_line, register_line};
    ghost use Rattle.text.specs.Mirror.Writer.{Adds};

    // The leaf count.
    pub(crate) fn leaf_count(&mut self, n: usize)
        ensures { Adds self.old (last_number (ascii "leaves ") n) self.new }
    {
        self.word(b"leaves ");
        self.number(n as u64);
        self.word(b"\n");
    }

    // A leaf: index, rights, forbidden and their common bits.
    pub(crate) fn leaf(&mut self, i: usize, r: u8, f: u8)
        ensures { Adds self.old (leaf_line i r f) self.new }
    {
        self.number(i as u64);
        self.word(b" ");
        self.number(u64::from(r));
        self.word(b" ");
        self.number(u64::from(f));
        self.word(b" ");
        self.number(u64::from(r & f));
        self.word(b"\n");
    }

    pub(crate) fn register(&mut self, r: u64)
        ensures { Adds self.old (register_line r) self.new }
    {
        self.hex(r);
        self.word(b"\n");
    }

    // A refusal: refusals 5 to 10 show the leaf. Its number and leaf stand apart, as `refusal_line` has them.
    #[tactic(auto, using(crate::proofs::Lengths::refusal_length))]
    pub(crate) fn refusal(&mut self, number: u8, leaf: usize)
        ensures text { Adds self.old (refusal_line number leaf) self.new }
        ensures short { length (refusal_line number leaf) ≤ 64 }
    {
        self.word(b"refused ");
        self.number(u64::from(number));
        if (5 <= number) & (number <= 10) {
            self.word(b" leaf ");
            self.number(leaf as u64);
        }
        self.word(b"\n");
    }
}
