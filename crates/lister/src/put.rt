// The lines of a text, told to what takes them.
ghost use Rattle.std.specs.Prelude.{◌≡◌, true, ◌/◌, ◌<◌, length};
ghost use Rattle.schedule.specs.File.{reading, file_entries};
ghost use Rattle.schedule.specs.Direct.{is_accepted, part_entries};
ghost use Rattle.writer.specs.Made.{entry_line, entry_lines, start_line, listing};
ghost use Rattle.lister.specs.Parts.{plain_line, store_line};

use crate::taker::Taker;
use schedule::{Start, block_of, entry_at, used_entries};
use step::{Entry, Kind, Request};

// `L p`, `V p` or `T p`.
fn put_plain<T: Taker>(to: &mut T, letter: u8, p: u64)
    requires { T.fits to.old (length (plain_line letter p)) }
    ensures { T.takes to.old (plain_line letter p) to.new }
{
    to.letter(letter);
    to.number(p, b'\n');
}

// `S p value`.
fn put_store<T: Taker>(to: &mut T, p: u64, value: u64)
    requires { T.fits to.old (length (store_line p value)) }
    ensures { T.takes to.old (store_line p value) to.new }
{
    to.letter(b'S');
    to.number(p, b' ');
    to.number(value, b'\n');
}

// The line of an entry.
#[tactic(auto, unfolding(writer::specs::Made::entry_line))]
fn put_entry<T: Taker>(to: &mut T, entry: Entry)
    requires { (T.fits to.old (length (entry_line entry))) × (entry.process.0 < 256) }
    ensures { T.takes to.old (entry_line entry) to.new }
{
    let p = entry.process.0 as u64;
    match entry.kind {
        Kind::Ask(Request::Load) => put_plain(to, b'L', p),
        Kind::Ask(Request::Store(value)) => put_store(to, p, value),
        Kind::Ask(Request::Check) => put_plain(to, b'V', p),
        Kind::Step => put_plain(to, b'T', p),
    }
}

// `H N S V`.
fn put_start<T: Taker>(to: &mut T, start: Start)
    requires { T.fits to.old (length (start_line start.n start.s start.v)) }
    ensures { T.takes to.old (start_line start.n start.s start.v) to.new }
{
    to.letter(b'H');
    to.number(u64::from(start.n), b' ');
    to.number(start.s, b' ');
    to.number(start.v, b'\n');
}

// The lines of a part's entries.
fn put_part<T: Taker>(to: &mut T, part: &[u8])
    requires { T.fits to.old (length (entry_lines (part_entries part.now (length part.now / 12)))) }
    ensures { T.takes to.old (entry_lines (part_entries part.now (length part.now / 12))) to.new }
{
    for j in 0..part.len() / 12 {
        put_entry(to, entry_at(part, j));
    }
}

// The lines of an accepted file's entries.
fn put_entries<T: Taker>(to: &mut T, file: &[u8])
    requires { (is_accepted (reading file.now) ≡ true) × (T.fits to.old (length (entry_lines (file_entries file.now)))) }
    ensures { T.takes to.old (entry_lines (file_entries file.now)) to.new }
{
    for k in 1..file.len() / 512 {
        put_part(to, used_entries(block_of(file, k)));
    }
}

// The text of an accepted file whose start this is.
pub(crate) fn put_text<T: Taker>(to: &mut T, file: &[u8], start: Start)
    requires { (is_accepted (reading file.now) ≡ true) × (T.fits to.old (length (listing file.now start.n start.s start.v))) }
    ensures { T.takes to.old (listing file.now start.n start.s start.v) to.new }
{
    put_start(to, start);
    put_entries(to, file);
}
