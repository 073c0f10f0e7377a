// Plays a text of the machine with reused numbers: standard input to standard output. Everything that is printed comes from proved functions
// on byte slices (reused_text: the run, text: the lines); this program only moves bytes.
#![tactic(auto)]

use filter::{
    Program, Trouble, read_whole, write_log_in_pages, write_text_refusal, write_trouble, zeros,
};
use reused_text::play_text;
use std::io::{Read, Write};

const REUSE: Program = Program {
    name: "reuse",
    input: "text",
    done: "played",
    output: "output",
};

// One byte more than the longest text that is taken.
const TEXT_ROOM: usize = 1_048_577;

// A log for 262,144 entries: a line has four bytes at the least, so no text that is taken has more.
const LOG_ROOM: usize = 3_145_740;

fn play(input: &mut impl Read, output: &mut impl Write) -> Result<(), Trouble> {
    let mut text = zeros::<TEXT_ROOM>();
    let mut log = zeros::<LOG_ROOM>();
    let n = read_whole(input, &mut text)?;
    match play_text(&text[..n], &mut log) {
        Ok(_) => write_log_in_pages(output, &log)?,
        Err(e) => write_text_refusal(output, e.refusal, e.line)?,
    }
    Ok(())
}

fn main(rt: HostRuntime) {
    if let Err(trouble) = play(&mut rt.stdin(), &mut rt.stdout()) {
        let _ = write_trouble(&mut rt.stderr(), REUSE, trouble);
    }
}
