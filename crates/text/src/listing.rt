// The text of a map file.
use crate::writer::Writer;
use records::refusal::LeafRefusal;

impl Writer<'_> {
    ghost use Rattle.std.specs.Prelude.{◌/◌, ◌≤◌, length};
    ghost use Rattle.text.specs.Listing.{line_at, lines_from, plan_line, plan_lines, map_lines, map_text, text_of};
    ghost use Rattle.text.specs.Mirror.Writer.{Adds};

    // A line for each leaf.
    fn leaves(&mut self, leaves: &[u8], rights: &[u8])
        requires { length leaves.now / 18 ≤ length rights.now }
        ensures { Adds self.old (lines_from (line_at rights.now leaves.now) (length leaves.now / 18) 0) self.new }
    {
        for (i, (leaf, right)) in leaves.chunks_exact(18).zip(rights).enumerate() {
            self.leaf(i, *right, leaf[17]);
        }
    }

    // The register of a level, or its refusal.
    #[tactic(auto, using(crate::proofs::Lengths::register_length))]
    fn plan(&mut self, plan: Result<u64, LeafRefusal>)
        ensures text { Adds self.old (plan_line plan) self.new }
        ensures short { length (plan_line plan) ≤ 64 }
    {
        match plan {
            Ok(register) => self.register(register),
            Err(r) => self.refusal(r.refusal.number(), r.leaf),
        }
    }

    // A line for each level.
    #[tactic(auto, unfolding(crate::specs::Listing::plan_lines), using(crate::proofs::Lengths::plans_length))]
    fn plans(&mut self, setup: &[u8], leaves: &[u8])
        ensures text { Adds self.old (plan_lines setup.now leaves.now) self.new }
        ensures short { length (plan_lines setup.now leaves.now) ≤ 192 }
    {
        self.word(b"privileged ");
        self.plan(planner::plan_level(setup, 0, leaves));
        self.word(b"unprivileged ");
        self.plan(planner::plan_level(setup, 1, leaves));
    }

    // The lines of a map whose list is not refused.
    #[tactic(auto, unfolding(crate::specs::Listing::map_lines), using(crate::proofs::Lengths::map_length, crate::proofs::Lengths::leaves_lines))]
    fn map(&mut self, setup: &[u8], leaves: &[u8], rights: &[u8; 2048])
        requires { length leaves.now ≤ 36864 }
        ensures text { Adds self.old (map_lines setup.now leaves.now (length leaves.now / 18) rights.now) self.new }
        ensures short { length (map_lines setup.now leaves.now (length leaves.now / 18) rights.now) ≤ 36864 }
    {
        self.leaf_count(leaves.len() / 18);
        self.leaves(leaves, rights);
        self.plans(setup, leaves);
    }

    // The text of a map: its lines, or the refusal of its list.
    #[tactic(auto, using(crate::proofs::Files::refused))]
    fn list(&mut self, setup: &[u8], leaves: &[u8])
        requires { length leaves.now ≤ 36864 }
        ensures text { Adds self.old (map_text setup.now leaves.now (length leaves.now / 18)) self.new }
        ensures short { length (map_text setup.now leaves.now (length leaves.now / 18)) ≤ 36864 }
    {
        let mut rights = [0u8; 2048];
        let mut causes = [0u8; 12288];
        match judge::list::list_rights(setup, leaves, &mut rights, &mut causes) {
            Ok(_) => self.map(setup, leaves, &rights),
            Err(r) => self.refusal(r.refusal.number(), r.leaf),
        }
    }

    // The text of a file.
    pub(crate) fn file(&mut self, file: &[u8])
        ensures text { Adds self.old (text_of file.now) self.new }
        ensures short { length (text_of file.now) ≤ 36864 }
    {
        let mut leaves = [0u8; 36864];
        match records::mapfile::read_file(file, &mut leaves) {
            Ok(n) => self.list(records::mapfile::setup_bytes(file), &leaves[..n * 18]),
            Err(refusal) => self.refusal(refusal.number(), 0),
        }
    }
}
