// The words of trouble as a desk reads them, through a handle that can only print: one line a trouble, however long its words are, the line that
// a writer gets; and a handle that prints nothing, or not all, is not asked again.
use crate::{Program, Trouble, complain, write_trouble};
use std::cell::{Cell, RefCell};
use std::fmt::Display;
use std::io;
use std::io::{Cursor, ErrorKind, Write};

const PLAY: Program = Program {
    name: "play",
    input: "schedule",
    done: "played",
    output: "output",
};

// A name with which no line of trouble fits 128 bytes.
const LONG: Program = Program {
    name: "the copy of play that the night desk keeps beside its own schedules, so that nobody has to ask the day desk",
    ..PLAY
};

// A handle that keeps a line while there is room, and how often it was asked. It prints nothing but lines.
#[derive(Drop)]
struct Kept<const N: usize> {
    text: RefCell<Cursor<[u8; N]>>,
    asked: Cell<usize>,
}

impl<const N: usize> Kept<N> {
    fn new() -> Self {
        Kept {
            text: RefCell::new(Cursor::new([0u8; N])),
            asked: Cell::new(0),
        }
    }
}

impl<const N: usize> Eprint for Kept<N> {
    fn eprint<D: Display + Drop>(&self, _value: D) -> io::Result<()> {
        self.asked.set(self.asked.get().saturating_add(1));
        Err(io::Error::from(ErrorKind::Interrupted))
    }

    fn eprintln<D: Display + Drop>(&self, value: D) -> io::Result<()> {
        self.asked.set(self.asked.get().saturating_add(1));
        match self.text.try_borrow_mut() {
            Ok(mut text) => Write::writeln(&mut *text, value),
            Err(_) => Err(io::Error::from(ErrorKind::Interrupted)),
        }
    }
}

// A handle that prints nothing.
#[derive(Drop)]
struct Broken {
    asked: Cell<usize>,
}

impl Eprint for Broken {
    fn eprint<D: Display + Drop>(&self, _value: D) -> io::Result<()> {
        self.asked.set(self.asked.get().saturating_add(1));
        Err(io::Error::from(ErrorKind::Interrupted))
    }

    fn eprintln<D: Display + Drop>(&self, value: D) -> io::Result<()> {
        self.eprint(value)
    }
}

#[test]
fn troubles_are_told(rt: HostRuntime) {
    let told = [
        (
            PLAY,
            Trouble::TooLong,
            "play: the schedule is longer than 1,048,576 bytes, so nothing was played\n",
        ),
        (
            PLAY,
            Trouble::Reading,
            "play: reading the schedule failed, so nothing was played\n",
        ),
        (
            PLAY,
            Trouble::Writing,
            "play: writing failed, so the output is not whole\n",
        ),
        (
            LONG,
            Trouble::TooLong,
            "the copy of play that the night desk keeps beside its own schedules, so that nobody has to ask the day desk: the schedule is longer than 1,048,576 bytes, so nothing was played\n",
        ),
        (
            LONG,
            Trouble::Reading,
            "the copy of play that the night desk keeps beside its own schedules, so that nobody has to ask the day desk: reading the schedule failed, so nothing was played\n",
        ),
        (
            LONG,
            Trouble::Writing,
            "the copy of play that the night desk keeps beside its own schedules, so that nobody has to ask the day desk: writing failed, so the output is not whole\n",
        ),
    ];
    for (program, trouble, line) in told {
        let handle = Kept::<256>::new();
        complain(&handle, program, trouble);
        let Kept { text, asked } = handle;
        let printed = text.into_inner();
        assert_eq!(rt; asked.get(), 1, "{line}");
        let rest = printed.get_ref().strip_prefix(line.as_bytes());
        assert!(rt;
            rest.is_some_and(|left| left.iter().all(|byte| *byte == 0)),
            "{line}"
        );
        let mut written = Cursor::new([0u8; 256]);
        assert!(rt;
            write_trouble(&mut written, program, trouble).is_ok(),
            "{line}"
        );
        assert_eq!(rt; written.get_ref(), printed.get_ref(), "{line}");
    }
}

#[test]
fn nobody_is_left_to_be_told(rt: HostRuntime) {
    for trouble in [Trouble::TooLong, Trouble::Reading, Trouble::Writing] {
        let broken = Broken {
            asked: Cell::new(0),
        };
        complain(&broken, LONG, trouble);
        assert_eq!(rt; broken.asked.get(), 1);
        let full = Kept::<8>::new();
        complain(&full, PLAY, trouble);
        let Kept { text, asked } = full;
        assert!(rt; text.into_inner().get_ref().starts_with(b"play: "));
        assert_eq!(rt; asked.get(), 1);
        complain(&rt, PLAY, trouble);
    }
}
