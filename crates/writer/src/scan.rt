// A text as a whole: whether it is refused, and what it says.
ghost use Rattle.std.specs.Prelude.{◌≡◌, ◌+◌, ◌^◌, ◌<◌, ℕ, Bool, List, ◌∷◌, cond, length};
ghost use Rattle.writer.specs.Form.{head_fine, line_fine, entry_in};
ghost use Rattle.writer.specs.Parts.{opening_in, InForm, entries_left, lines_in, over_lines_by, read_by, scanned_as, scanned_of, judged};

use crate::find::split_once;
use crate::form::{read_line, read_start};
use crate::{Opening, TextRefusal};
use numbers::{Refusal, Sequence, check_range};
use schedule::Start;
use step::Entry;

// A form of texts: what line one says, and what each further line asks for, where they are in the form.
pub trait TextForm {
    type Opening: Copy;

    type Entry: Copy;

    ghost headed: { List ℕ → Bool };

    ghost opening: { List ℕ → Self.Opening };

    ghost fine: { List ℕ → Bool };

    ghost entry: { List ℕ → Self.Entry };

    fn read_start(line: &[u8]) -> Option<Self::Opening>
        ensures { result ≡ cond (headed line.now) (Some (opening line.now)) None };

    fn read_line(line: &[u8]) -> Option<Self::Entry>
        ensures { result ≡ cond (fine line.now) (Some (entry line.now)) None };
}

// What a text in the form says: what line one says, where the further lines begin, and how many there are.
#[derive(Clone, Copy)]
pub struct Read<T> {
    pub opening: T,
    pub from: usize,
    pub entries: usize,
}

// The further lines: how many, or the first that is outside the form, where line one is line 1.
fn read_further<F: TextForm>(lines: &[u8]) -> Result<usize, usize>
    requires { length lines.now + 1 < 2 ^ 64 }
    ensures { result ≡ over_lines_by F.fine 2 0 (lines_in lines.now) }
{
    let mut rest = lines;
    let mut entries = 0;
    while let Some((line, behind)) = split_once(rest, b'\n') {
        if F::read_line(line).is_none() {
            return Err(entries + 2);
        }
        entries += 1;
        rest = behind;
    }
    if rest.is_empty() {
        Ok(entries)
    } else {
        Err(entries + 2)
    }
}

// A whole text of a form, or its first line outside the form.
pub fn read_text<F: TextForm>(text: &[u8]) -> Result<Read<F::Opening>, usize>
    ensures { result ≡ read_by F.headed F.opening F.fine text.now }
{
    let Some((line, lines)) = split_once(text, b'\n') else {
        return Err(1);
    };
    let Some(opening) = F::read_start(line) else {
        return Err(1);
    };
    let entries = read_further::<F>(lines)?;
    Ok(Read {
        opening,
        from: line.len() + 1,
        entries,
    })
}

// The form of document 02, P1.
pub struct Schedules;

impl TextForm for Schedules {
    type Opening = Opening;

    type Entry = Entry;

    ghost headed = { head_fine };

    ghost opening = { opening_in };

    ghost fine = { line_fine };

    ghost entry = { entry_in };

    #[tactic(auto, unfolding(crate::specs::Parts::opening_of))]
    fn read_start(line: &[u8]) -> Option<Opening> {
        read_start(line)
    }

    #[tactic(auto, unfolding(crate::specs::Parts::line_of))]
    fn read_line(line: &[u8]) -> Option<Entry> {
        read_line(line)
    }
}

// "16 (N), 17 (S)", then "26 for more than 5,334 entries": all lines are in the form.
fn judge(read: Read<Opening>) -> Result<Read<Start>, TextRefusal>
    ensures { scanned_as result ≡ judged read.opening read.from read.entries }
{
    let Opening { n, s, v } = read.opening;
    check_range(n as usize, Sequence(s))?;
    if read.entries > 5334 {
        return Err(TextRefusal::from(Refusal::TooMany));
    }
    Ok(Read {
        opening: Start { n: n as u8, s, v },
        from: read.from,
        entries: read.entries,
    })
}

// A whole text.
pub(crate) fn scan(text: &[u8]) -> Result<Read<Start>, TextRefusal>
    ensures { scanned_as result ≡ scanned_of text.now }
{
    match read_text::<Schedules>(text) {
        Ok(read) => judge(read),
        Err(line) => Err(TextRefusal {
            refusal: Refusal::Form,
            line,
        }),
    }
}

// The entry that the next line asks for, and the lines behind it.
pub(crate) fn next_entry(lines: &[u8]) -> (Entry, &[u8])
    requires form { InForm line_fine lines.now }
    requires some { 0 < length (entries_left lines.now) }
    ensures entry { entries_left lines.now ≡ result.0 ∷ entries_left result.1.now }
    ensures form { InForm line_fine result.1.now }
    ensures small { result.0.process.0 < 256 }
{
    let (line, behind) = split_once(lines, b'\n').unwrap();
    let entry = read_line(line).unwrap();
    (entry, behind)
}
