// A schedule file from a text.
ghost use Rattle.std.specs.Prelude.{◌≡◌, ◌+◌, ◌*◌, ◌≤◌, length};
ghost use Rattle.std.proofs.lemmas.List.Edits.{sets};
ghost use Rattle.run_log.specs.Log.{laid};
ghost use Rattle.writer.specs.Form.{line_fine};
ghost use Rattle.writer.specs.Made.{packed, blocks_for, file_made};
ghost use Rattle.writer.specs.Writer.{written_as, written_of, written_in};
ghost use Rattle.writer.specs.Parts.{InForm, entries_left};

use crate::TextRefusal;
use crate::block::{first_block, later_block};
use crate::scan::scan;
use numbers::Refusal;
use schedule::Start;

// How many blocks the entries fill, 42 to a block.
fn block_count(entries: usize) -> usize
    ensures { result ≡ blocks_for entries }
{
    entries.div_ceil(42)
}

// The blocks after block 0, at the front of a part with room for them: each is filled before the next is opened.
fn write_later(lines: &[u8], rest: &mut [u8], entries: usize)
    requires form { InForm line_fine lines.now }
    requires count { entries ≡ length (entries_left lines.now) }
    requires few { entries ≤ 5334 }
    requires room { 512 * blocks_for entries ≤ length rest.old }
    ensures { rest.new ≡ sets rest.old 0 (packed (blocks_for entries) 1 (entries_left lines.now)) }
{
    let mut left = entries;
    let mut behind = lines;
    for k in 0..block_count(entries) {
        let share = left.min(42);
        let (_, part) = rest.split_at_mut(512 * k);
        let block = part.first_chunk_mut::<512>().unwrap();
        behind = later_block(block, behind, k + 1, share);
        left -= share;
    }
}

// The file, where the output has room for it.
fn write_file(start: Start, lines: &[u8], entries: usize, out: &mut [u8])
    requires form { InForm line_fine lines.now }
    requires count { entries ≡ length (entries_left lines.now) }
    requires few { entries ≤ 5334 }
    requires room { 512 + 512 * blocks_for entries ≤ length out.old }
    ensures { out.new ≡ laid (file_made start.n start.s start.v (entries_left lines.now)) out.old }
{
    let (block, rest) = out.split_first_chunk_mut::<512>().unwrap();
    first_block(block, start, block_count(entries));
    write_later(lines, rest, entries);
}

// A text and a lent output: how long the file is that was written, or what turned the text away.
pub fn write_text(text: &[u8], out: &mut [u8]) -> Result<usize, TextRefusal>
    ensures { (written_as result ≡ written_of text.now out.old) × (out.new ≡ written_in text.now out.old) }
{
    let told = scan(text)?;
    let length = 512 + 512 * block_count(told.entries);
    if out.len() < length {
        return Err(TextRefusal::from(Refusal::OutputRoom));
    }
    write_file(told.opening, &text[told.from..], told.entries, out);
    Ok(length)
}
