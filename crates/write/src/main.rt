// Writes a schedule file: a text on standard input, the file on standard output. Every byte of the file and of a refusal comes from proved
// functions on byte slices (writer: the file, text: the line of a refusal); this program only moves bytes. Its output is a file, so a
// refusal goes to standard error.
#![tactic(auto)]

use filter::{Program, Trouble, read_whole, write_text_refusal, write_trouble, zeros};
use std::io::{Read, Write};
use writer::write_text;

const WRITE: Program = Program {
    name: "write",
    input: "text",
    done: "written",
    output: "file",
};

// One byte more than the longest text that is taken.
const TEXT_ROOM: usize = 1_048_577;

// The longest file.
const FILE_ROOM: usize = 65_536;

fn write(
    input: &mut impl Read,
    output: &mut impl Write,
    errors: &mut impl Write,
) -> Result<(), Trouble> {
    let mut text = zeros::<TEXT_ROOM>();
    let mut file = [0u8; FILE_ROOM];
    let n = read_whole(input, &mut text)?;
    match write_text(&text[..n], &mut file) {
        Ok(length) => output.write_all(&file[..length])?,
        Err(e) => write_text_refusal(errors, e.refusal, e.line)?,
    }
    Ok(())
}

fn main(rt: HostRuntime) {
    if let Err(trouble) = write(&mut rt.stdin(), &mut rt.stdout(), &mut rt.stderr()) {
        let _ = write_trouble(&mut rt.stderr(), WRITE, trouble);
    }
}
