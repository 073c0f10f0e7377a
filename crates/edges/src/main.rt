// Document 01's "By program" lines, and what block 0 is refused with, run through the proved run. What this program prints is held to the
// file stdout beside it.
#![tactic(auto)]

use bench::whole::run;
use filter::{write_entry, write_head, write_refusal};
use schedule::check_of;
use std::io::Write;

// What block 0 of a file with V 7 says: N, S and how many blocks come after it; the last three bytes stand at the places 3, 18 and 509, where
// they should be zero.
#[derive(Clone, Copy)]
struct First {
    n: u8,
    s: u8,
    later: u8,
    third: u8,
    low: u8,
    high: u8,
}

const FINE: First = First {
    n: 2,
    s: 9,
    later: 0,
    third: 0,
    low: 0,
    high: 0,
};

// What block 0 is refused with, in order: each file has one thing wrong less than the one before it.
const ORDER: [(&str, First); 7] = [
    (
        "N 0, S 1, 1 later block, stray bytes: ",
        First {
            n: 0,
            s: 1,
            later: 1,
            third: 1,
            low: 1,
            high: 1,
        },
    ),
    (
        "S 1, 1 later block, stray bytes: ",
        First {
            s: 1,
            later: 1,
            third: 1,
            low: 1,
            high: 1,
            ..FINE
        },
    ),
    (
        "1 later block, stray bytes: ",
        First {
            later: 1,
            third: 1,
            low: 1,
            high: 1,
            ..FINE
        },
    ),
    (
        "stray bytes 3, 18, 509: ",
        First {
            third: 1,
            low: 1,
            high: 1,
            ..FINE
        },
    ),
    (
        "stray bytes 18, 509: ",
        First {
            low: 1,
            high: 1,
            ..FINE
        },
    ),
    ("stray byte 509: ", First { high: 1, ..FINE }),
    ("no stray byte: ", FINE),
];

fn lay_first(block: &mut [u8; 512], first: First) {
    block[2] = first.n;
    block[3] = first.third;
    block[4] = first.s;
    block[8] = 7;
    block[16] = first.later;
    block[18] = first.low;
    block[509] = first.high;
}

// The kinds of an entry, as a file has them.
const LOAD: u8 = 1;

const STORE: u8 = 2;

const CHECK: u8 = 3;

const STEP: u8 = 4;

// "LL by 1, three steps of 1, SC 40 by 1, four steps of 1, VL by 0, one step of 0", each entry by its kind, process and value.
const FULL_RUN: [(u8, u8, u8); 11] = [
    (LOAD, 1, 0),
    (STEP, 1, 0),
    (STEP, 1, 0),
    (STEP, 1, 0),
    (STORE, 1, 40),
    (STEP, 1, 0),
    (STEP, 1, 0),
    (STEP, 1, 0),
    (STEP, 1, 0),
    (CHECK, 0, 0),
    (STEP, 0, 0),
];

// A later block with these entries.
fn lay_full_run(block: &mut [u8; 512]) {
    block[2] = 11;
    let (entries, _) = block[4..508].as_chunks_mut::<12>();
    for (entry, (kind, process, value)) in entries.iter_mut().zip(FULL_RUN) {
        entry[0] = kind;
        entry[1] = process;
        entry[4] = value;
    }
}

// Gives block k its place and its check.
fn seal(block: &mut [u8; 512], k: usize) {
    let [low, high, ..] = k.to_le_bytes();
    block[0] = low;
    block[1] = high;
    let [low, high, ..] = check_of(block).to_le_bytes();
    block[510] = low;
    block[511] = high;
}

fn seal_all(blocks: &mut [[u8; 512]]) {
    for (k, block) in blocks.iter_mut().enumerate() {
        seal(block, k);
    }
}

// Plays a file and prints what came of it behind its name. Each write is tried, whatever came of those before; what does not go out is missed
// in the file beside.
fn try_file(output: &mut impl Write, name: &str, file: &[u8], log: &mut [u8]) {
    let refused = run(file, log).refused;
    let _ = output.write_all(name.as_bytes());
    let _ = match refused {
        Ok(()) => write_head(output, log),
        Err(refusal) => write_refusal(output, refusal),
    };
}

// A file of block 0 alone.
fn try_first(output: &mut impl Write, name: &str, first: First) {
    let mut file = [0u8; 512];
    let mut log = [0u8; 12];
    lay_first(&mut file, first);
    seal(&mut file, 0);
    try_file(output, name, &file, &mut log);
}

// What block 0 is refused with, in order.
fn try_order(output: &mut impl Write) {
    for (name, first) in ORDER {
        try_first(output, name, first);
    }
}

// Files of blocks without entries, as many as there may be and one more.
fn try_lengths(output: &mut impl Write) {
    let mut blocks = [[0u8; 512]; 129];
    let mut log = [0u8; 12];
    try_file(output, "length 0: ", &[], &mut log);
    lay_first(&mut blocks[0], First { later: 127, ..FINE });
    seal_all(&mut blocks);
    try_file(
        output,
        "length 65,536: ",
        blocks[0..128].as_flattened(),
        &mut log,
    );
    try_file(output, "length 66,048: ", blocks.as_flattened(), &mut log);
}

fn try_full_run(output: &mut impl Write) {
    let mut blocks = [[0u8; 512]; 2];
    let mut log = [0u8; 144];
    let mut short = [0u8; 143];
    lay_first(&mut blocks[0], First { later: 1, ..FINE });
    lay_full_run(&mut blocks[1]);
    seal_all(&mut blocks);
    try_file(output, "the full run: ", blocks.as_flattened(), &mut log);
    for place in 0..11 {
        let _ = write_entry(output, &log, place);
    }
    try_file(
        output,
        "log of 143 bytes: ",
        blocks.as_flattened(),
        &mut short,
    );
    blocks[0][510] = 132;
    try_file(output, "check 132: ", blocks.as_flattened(), &mut log);
}

fn try_all(output: &mut impl Write) {
    try_lengths(output);
    try_first(output, "length 512, no entries, N 2: ", FINE);
    try_first(output, "N 16: ", First { n: 16, ..FINE });
    try_first(output, "N 0: ", First { n: 0, ..FINE });
    try_first(output, "N 17: ", First { n: 17, ..FINE });
    try_first(output, "S 1: ", First { s: 1, ..FINE });
    try_first(output, "S 2: ", First { s: 2, ..FINE });
    try_order(output);
    try_full_run(output);
}

fn main(rt: HostRuntime) {
    try_all(&mut rt.stdout());
}
