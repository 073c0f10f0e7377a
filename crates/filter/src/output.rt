// Lines, written one after another.
ghost use Rattle.std.specs.Prelude.{OnOk};
ghost use Rattle.std.specs.Io.KnownBytes.{Appends};
ghost use Rattle.numbers.specs.Refusals.{refusal_number};
ghost use Rattle.run_log.specs.Found.{head_found, note_found};
ghost use Rattle.text.specs.Lines.{refused_line, refused_text_line, head_text, line_text, lines_from, text_of};

use numbers::Refusal;
use run_log::read::read_head;
use schedule::FileRefusal;
use std::io;
use std::io::Write;
use text::line::{ROOM, write_head_of, write_line_of, write_refused_line, write_refused_text_line};
use text::page::write_lines_of;

// The line of a refused file.
pub fn write_refusal<W: Write>(output: &mut W, refusal: FileRefusal) -> io::Result<()>
    ensures { OnOk result (Appends (W.contents output.old) (W.contents output.new)
        (refused_line (refusal_number refusal.refusal) refusal.block refusal.place)) }
{
    let FileRefusal {
        refusal,
        block,
        place,
    } = refusal;
    let mut line = [0u8; ROOM];
    let n = write_refused_line(&mut line, usize::from(refusal.number()), block, place);
    output.write_all(&line[..n])
}

// The line of a refused text. (The type that holds the refusal and the line is the writer's, on which the player does not stand.)
pub fn write_text_refusal<W: Write>(output: &mut W, refusal: Refusal, line: usize) -> io::Result<()>
    ensures { OnOk result (Appends (W.contents output.old) (W.contents output.new) (refused_text_line (refusal_number refusal) line)) }
{
    let mut out = [0u8; ROOM];
    let n = write_refused_text_line(&mut out, u32::from(refusal.number()), line as u64);
    output.write_all(&out[..n])
}

// The head line of a log.
pub fn write_head<W: Write>(output: &mut W, log: &[u8]) -> io::Result<()>
    ensures { OnOk result (Appends (W.contents output.old) (W.contents output.new) (head_text (head_found log.now))) }
{
    let mut line = [0u8; ROOM];
    let n = write_head_of(&mut line, log);
    output.write_all(&line[..n])
}

// The line of an entry of a log.
pub fn write_entry<W: Write>(output: &mut W, log: &[u8], place: u32) -> io::Result<()>
    ensures { OnOk result (Appends (W.contents output.old) (W.contents output.new) (line_text place (note_found log.now place))) }
{
    let mut line = [0u8; ROOM];
    let n = write_line_of(&mut line, log, place);
    output.write_all(&line[..n])
}

// A line for each of the first entries of a log, each in a write of its own: a pipe that takes no more then holds whole lines alone.
pub fn write_lines<W: Write>(output: &mut W, log: &[u8], entries: u32) -> io::Result<()>
    ensures { OnOk result (Appends (W.contents output.old) (W.contents output.new) (lines_from log.now 0 entries)) }
{
    for place in 0..entries {
        write_entry(output, log, place)?;
    }
    Ok(())
}

// The same lines, as many at a time as there is room for: each turn goes on by as many as there was room for, so nothing is counted that a
// `for` could run over.
pub fn write_pages<W: Write>(output: &mut W, log: &[u8], entries: u32) -> io::Result<()>
    ensures { OnOk result (Appends (W.contents output.old) (W.contents output.new) (lines_from log.now 0 entries)) }
{
    let mut lines = [0u8; 65536];
    let mut place = 0;
    while place < entries {
        let filled = write_lines_of(&mut lines, log, place, entries);
        output.write_all(&lines[..filled.bytes])?;
        place = filled.place;
    }
    Ok(())
}

// All that is printed of a log: its head line, and a line for each entry.
pub fn write_log<W: Write>(output: &mut W, log: &[u8]) -> io::Result<()>
    ensures { OnOk result (Appends (W.contents output.old) (W.contents output.new) (text_of log.now)) }
{
    match read_head(log) {
        Some(head) => {
            write_head(output, log)?;
            write_lines(output, log, head.entries)
        }
        None => Ok(()),
    }
}

// The same, with the lines in pages.
pub fn write_log_in_pages<W: Write>(output: &mut W, log: &[u8]) -> io::Result<()>
    ensures { OnOk result (Appends (W.contents output.old) (W.contents output.new) (text_of log.now)) }
{
    let Some(head) = read_head(log) else {
        return Ok(());
    };
    write_head(output, log)?;
    write_pages(output, log, head.entries)
}
