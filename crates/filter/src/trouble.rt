// What can go wrong in a program, and the words for it.
ghost use Rattle.std.specs.Prelude.{◌≡◌, ◌≤◌, length, take, IfSome, OnOk};
ghost use Rattle.std.specs.Io.KnownBytes.{Appends};
ghost use Rattle.filter.specs.declared.trouble.Trouble.TheVariants.{Writing};
ghost use Rattle.filter.specs.Words.{joined, words_of};

use std::io;
use std::io::Write;

// Bytes that are enough for the words of each program.
const ROOM: usize = 128;

// Why a program's work is not done: its input fills the lent part, a read failed, or a write did.
#[derive(Clone, Copy, Debug, PartialEq, Eq)]
pub enum Trouble {
    TooLong,
    Reading,
    Writing,
}

impl From<io::Error> for Trouble {
    ghost from_gives = { λ _ trouble. trouble ≡ Writing };

    fn from(_error: io::Error) -> Self {
        Self::Writing
    }
}

// What the words of trouble speak of: the program, what it reads, what it does with it, and what it writes.
#[derive(Clone, Copy)]
pub struct Program {
    pub name: &'static str,
    pub input: &'static str,
    pub done: &'static str,
    pub output: &'static str,
}

// Words at the front of a line, one behind the other, and how many bytes they have; none where the line has no room for them.
fn lay_words(line: &mut [u8], words: &[&str]) -> Option<usize>
    ensures { IfSome result (λ n. (n ≤ length line.new) × (take n line.new ≡ joined words.now)) }
{
    let mut at = 0;
    for word in words {
        if line.len() - at < word.len() {
            return None;
        }
        let end = at + word.len();
        line[at..end].copy_from_slice(word.as_bytes());
        at = end;
    }
    Some(at)
}

// Words, one behind the other: in one write where a line has room for them, as it has for those of each program, and else each in its own.
fn write_words<W: Write>(output: &mut W, words: &[&str]) -> io::Result<()>
    ensures { OnOk result (Appends (W.contents output.old) (W.contents output.new) (joined words.now)) }
{
    let mut line = [0u8; ROOM];
    if let Some(n) = lay_words(&mut line, words) {
        return output.write_all(&line[..n]);
    }
    for word in words {
        output.write_all(word.as_bytes())?;
    }
    Ok(())
}

// Words of trouble, in a line.
pub fn write_trouble<W: Write>(errors: &mut W, program: Program, trouble: Trouble) -> io::Result<()>
    ensures { OnOk result (Appends (W.contents errors.old) (W.contents errors.new) (words_of program trouble)) }
{
    let Program {
        name,
        input,
        done,
        output,
    } = program;
    match trouble {
        Trouble::TooLong => write_words(
            errors,
            &[
                name,
                ": the ",
                input,
                " is longer than 1,048,576 bytes, so nothing was ",
                done,
                "\n",
            ],
        ),
        Trouble::Reading => write_words(
            errors,
            &[
                name,
                ": reading the ",
                input,
                " failed, so nothing was ",
                done,
                "\n",
            ],
        ),
        Trouble::Writing => write_words(
            errors,
            &[name, ": writing failed, so the ", output, " is not whole\n"],
        ),
    }
}

// The same words on standard error: a handle is asked once, for the whole line. Where they do not go out either, nobody is left to be told.
pub fn complain(rt: &impl Eprint, program: Program, trouble: Trouble) {
    let Program {
        name,
        input,
        done,
        output,
    } = program;
    let _ = match trouble {
        Trouble::TooLong => {
            eprintln!(rt;
                "{name}: the {input} is longer than 1,048,576 bytes, so nothing was {done}"
            )
        }
        Trouble::Reading => {
            eprintln!(rt; "{name}: reading the {input} failed, so nothing was {done}")
        }
        Trouble::Writing => {
            eprintln!(rt; "{name}: writing failed, so the {output} is not whole")
        }
    };
}
