// The bytes of a block.
ghost use Rattle.std.specs.Prelude.{◌≡◌, ◌++◌, ◌≤◌, ◌<◌, length, take, drop};
ghost use Rattle.numbers.specs.Numbers.{bytes_of};
ghost use Rattle.schedule.specs.File.{check_of};
ghost use Rattle.writer.specs.Form.{line_fine};
ghost use Rattle.writer.specs.Made.{kind_byte, kind_value, entry_made, first_made, later_made};
ghost use Rattle.writer.specs.Parts.{InForm, entries_left};

use crate::scan::next_entry;
use schedule::{Start, check_of};
use step::{Entry, Kind, Request};

// An entry's kind, as its byte 0 has it, and the value that it carries.
fn kind_fields(kind: Kind) -> (u8, u64)
    ensures byte { result.0 ≡ kind_byte kind }
    ensures value { result.1 ≡ kind_value kind }
{
    match kind {
        Kind::Ask(Request::Load) => (1, 0),
        Kind::Ask(Request::Store(value)) => (2, value),
        Kind::Ask(Request::Check) => (3, 0),
        Kind::Step => (4, 0),
    }
}

// The twelve bytes of an entry.
fn entry_bytes(entry: Entry) -> [u8; 12]
    requires { entry.process.0 < 256 }
    ensures { result ≡ entry_made entry }
{
    let (kind, value) = kind_fields(entry.kind);
    let mut bytes = [0; 12];
    bytes[0] = kind;
    bytes[1] = entry.process.0 as u8;
    bytes[4..].copy_from_slice(&value.to_le_bytes());
    bytes
}

// The check of a block's other bytes, in its last two.
fn seal(block: &mut [u8; 512])
    ensures { block.new ≡ take 510 block.old ++ bytes_of 2 (check_of (take 510 block.old)) }
{
    let check = check_of(&block[..510]);
    block[510..].copy_from_slice(&check.to_le_bytes()[..2]);
}

// Block 0.
pub(crate) fn first_block(block: &mut [u8; 512], start: Start, after: usize)
    ensures { block.new ≡ first_made start.n start.s start.v after }
{
    *block = [0; 512];
    block[2] = start.n;
    block[4..8].copy_from_slice(&start.s.to_le_bytes()[..4]);
    block[8..16].copy_from_slice(&start.v.to_le_bytes());
    block[16..18].copy_from_slice(&after.to_le_bytes()[..2]);
    seal(block);
}

// Block k, with the entries that the next c lines ask for; the answer is the lines behind them.
pub(crate) fn later_block<'a>(
    block: &mut [u8; 512],
    lines: &'a [u8],
    k: usize,
    c: usize,
) -> &'a [u8]
    requires form { InForm line_fine lines.now }
    requires some { c ≤ length (entries_left lines.now) }
    requires few { c ≤ 42 }
    ensures block { block.new ≡ later_made k (take c (entries_left lines.now)) }
    ensures left { entries_left result.now ≡ drop c (entries_left lines.now) }
    ensures form { InForm line_fine result.now }
{
    *block = [0; 512];
    block[..2].copy_from_slice(&k.to_le_bytes()[..2]);
    block[2] = c as u8;
    let mut rest = lines;
    for j in 0..c {
        let (entry, behind) = next_entry(rest);
        block[4 + 12 * j..16 + 12 * j].copy_from_slice(&entry_bytes(entry));
        rest = behind;
    }
    seal(block);
    rest
}
