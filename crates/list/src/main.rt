// Lists a schedule file: the file on standard input, its text on standard output. Every byte of the text and of a refusal comes from proved
// functions on byte slices (lister: the text, text: the line of a refusal); this program only moves bytes.
#![tactic(auto)]

use filter::{Program, Trouble, read_front, write_refusal, write_trouble, zeros};
use lister::list_file;
use std::io::{Read, Write};

const LIST: Program = Program {
    name: "list",
    input: "schedule",
    done: "listed",
    output: "output",
};

// One byte more than the longest file.
const FILE_ROOM: usize = 65_537;

// Bytes that are enough for the text of every file (proved: text_most).
const TEXT_ROOM: usize = 234_761;

// An input longer than the longest file fills the buffer, whose length no file has: it is refused by 1 like any other length.
fn list(input: &mut impl Read, output: &mut impl Write) -> Result<(), Trouble> {
    let mut file = [0u8; FILE_ROOM];
    let mut text = zeros::<TEXT_ROOM>();
    let n = read_front(input, &mut file)?;
    match list_file(&file[..n], &mut text) {
        Ok(length) => output.write_all(&text[..length])?,
        Err(refusal) => write_refusal(output, refusal)?,
    }
    Ok(())
}

fn main(rt: HostRuntime) {
    if let Err(trouble) = list(&mut rt.stdin(), &mut rt.stdout()) {
        let _ = write_trouble(&mut rt.stderr(), LIST, trouble);
    }
}
