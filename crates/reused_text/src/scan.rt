// A text as a whole: whether it is refused, and what it says.
ghost use Rattle.std.specs.Prelude.{◌≡◌};
ghost use Rattle.reused_text.specs.Form.{head_fine, line_fine};
ghost use Rattle.reused_text.specs.Parts.{sizes_in, bit_entry_in, judged, scanned_as, scanned_of};

use crate::Sizes;
use crate::form::{read_bit_line, read_sizes};
use numbers::Refusal;
use reused::Entry;
use reused::opening::check_sizes;
use writer::TextRefusal;
use writer::scan::{Read, TextForm, read_text};

// So many entries the four bytes of a log's head can count.
const MOST_ENTRIES: usize = 4294967295;

// The form of document 02, P9.
pub struct BitTexts;

impl TextForm for BitTexts {
    type Opening = Sizes;

    type Entry = Entry;

    ghost headed = { head_fine };

    ghost opening = { sizes_in };

    ghost fine = { line_fine };

    ghost entry = { bit_entry_in };

    #[tactic(auto, unfolding(crate::specs::Parts::sizes_of))]
    fn read_start(line: &[u8]) -> Option<Sizes> {
        read_sizes(line)
    }

    #[tactic(auto, unfolding(crate::specs::Parts::bit_line_of))]
    fn read_line(line: &[u8]) -> Option<Entry> {
        read_bit_line(line)
    }
}

// "16, then 24", then 26: all lines are in the form.
fn judge(read: Read<Sizes>) -> Result<Read<Sizes>, TextRefusal>
    ensures { scanned_as result ≡ judged read.opening read.from read.entries }
{
    check_sizes(read.opening.n, read.opening.m)?;
    if read.entries > MOST_ENTRIES {
        return Err(TextRefusal::from(Refusal::TooMany));
    }
    Ok(read)
}

// A whole text.
pub(crate) fn scan(text: &[u8]) -> Result<Read<Sizes>, TextRefusal>
    ensures { scanned_as result ≡ scanned_of text.now }
{
    match read_text::<BitTexts>(text) {
        Ok(read) => judge(read),
        Err(line) => Err(TextRefusal {
            refusal: Refusal::Form,
            line,
        }),
    }
}
