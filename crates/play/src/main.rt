// Plays a schedule file: standard input to standard output. Everything that is printed comes from proved functions on byte
// slices (bench: the run, text: the lines); this program only moves bytes.
#![tactic(auto)]

use bench::whole::run;
use filter::{Program, Trouble, read_front, write_log, write_refusal, write_trouble};
use std::io::{Read, Write};

const PLAY: Program = Program {
    name: "play",
    input: "schedule",
    done: "played",
    output: "output",
};

// One byte more than the longest file.
const FILE_ROOM: usize = 65_537;

// The log of 5,334 entries, as many as a file may have.
const LOG_ROOM: usize = 64_020;

// An input longer than the longest file fills the buffer, whose length no file has: it is refused by 1 like any other length.
fn play(input: &mut impl Read, output: &mut impl Write) -> Result<(), Trouble> {
    let mut file = [0u8; FILE_ROOM];
    let mut log = [0u8; LOG_ROOM];
    let n = read_front(input, &mut file)?;
    match run(&file[..n], &mut log).refused {
        Ok(()) => write_log(output, &log)?,
        Err(refusal) => write_refusal(output, refusal)?,
    }
    Ok(())
}

fn main(rt: HostRuntime) {
    if let Err(trouble) = play(&mut rt.stdin(), &mut rt.stdout()) {
        let _ = write_trouble(&mut rt.stderr(), PLAY, trouble);
    }
}
