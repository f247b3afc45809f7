// The program's text (document 01, 'File, program, host'): the lines for a map file, made in a lent buffer. `write_listing` is the one public
// function and has no `requires`.
#![tactic(auto)]

ghost use Rattle.std.specs.Prelude.{◌≡◌};
ghost use Rattle.io.specs.Counts.{IsPrefixLen};
ghost use Rattle.text.specs.Listing.{written};

use crate::writer::Writer;

mod lines;
mod listing;
mod writer;

// Writes the text of a file to the start of `out` and answers its length; with fewer than 36,864 bytes it answers 0 and writes nothing.
pub fn write_listing(file: &[u8], out: &mut [u8]) -> usize
    ensures count { result ≡ (written file.now out.old).count }
    ensures text { out.new ≡ (written file.now out.old).out }
    ensures within { IsPrefixLen result out.new }
{
    if out.len() < 36864 {
        return 0;
    }
    let mut writer = Writer::new(out);
    writer.file(file);
    writer.finish()
}
