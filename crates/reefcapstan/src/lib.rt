// The door for C: every function that crate `reefcapstan_c` exports, thin over the crates below, and nothing else.
#![tactic(auto)]

ghost use Rattle.std.specs.Prelude.{◌≡◌, ◌≤◌};
ghost use Rattle.numbers.specs.Refusals.{refusal_number};
ghost use Rattle.bench.specs.Bench.{log_after};
ghost use Rattle.writer.specs.Writer.{written_in};
ghost use Rattle.lister.specs.Lister.{listed_in};
ghost use Rattle.reefcapstan.specs.Door.{c_refusal, line_detail, c_number, c_written, c_listed};

use bench::whole::run;
use lister::list_file;
use schedule::FileRefusal;
use writer::write_text;

// What a refused file gives: number + 256 times block + 65,536 times place.
fn refusal(e: FileRefusal) -> u32
    requires { (e.block ≤ 127) × (e.place ≤ 509) }
    ensures { result ≡ c_refusal (refusal_number e.refusal) e.block e.place }
{
    u32::from(e.refusal.number()) + 256 * e.block as u32 + 65536 * e.place as u32
}

// Plays a file: 0, or what a refused file gives.
pub fn reefcapstan_run(file: &[u8], log: &mut [u8]) -> u32
    ensures { (result ≡ c_number file.now log.old) × (log.new ≡ log_after file.now log.old) }
{
    match run(file, log).refused {
        Ok(()) => 0,
        Err(e) => refusal(e),
    }
}

// A line's number in the 56 bits that are left for it.
fn line_detail(line: usize) -> u64
    ensures { result ≡ line_detail line }
{
    (line as u64).min(72057594037927935)
}

// Writes the file of a text: number + 256 times the length of the file, or times the line for 25.
pub fn reefcapstan_write(text: &[u8], out: &mut [u8]) -> u64
    ensures { (result ≡ c_written text.now out.old) × (out.new ≡ written_in text.now out.old) }
{
    match write_text(text, out) {
        Ok(length) => 256 * length as u64,
        Err(e) => u64::from(e.refusal.number()) + 256 * line_detail(e.line),
    }
}

// Writes the text of a file: 256 times the length of the text; else number, block and place as for a run (27 has neither).
pub fn reefcapstan_list(file: &[u8], out: &mut [u8]) -> u64
    ensures { (result ≡ c_listed file.now out.old) × (out.new ≡ listed_in file.now out.old) }
{
    match list_file(file, out) {
        Ok(bytes) => 256 * bytes as u64,
        Err(e) => u64::from(refusal(e)),
    }
}
