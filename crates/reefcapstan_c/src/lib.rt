// The archive for C: every exported function, each the one of crate `reefcapstan` under the same name and with the same clauses, and nothing
// else. `tools/archive` makes the one archive that people link with the one header. Only `reefcapstan_run` reaches the machine's steps, and
// it must stay the only one: then the compiler makes one function of all that plays a file (the reader, which the lister shares, stays one of
// its own). With a second root that reaches the steps (a direct call, say) the run takes up to half as long again (docs/SPEED.md), so such an
// export belongs in an archive of its own.
#![tactic(auto)]

ghost use Rattle.std.specs.Prelude.{◌≡◌};
ghost use Rattle.bench.specs.Bench.{log_after};
ghost use Rattle.writer.specs.Writer.{written_in};
ghost use Rattle.lister.specs.Lister.{listed_in};
ghost use Rattle.reefcapstan.specs.Door.{c_number, c_written, c_listed};

// Plays a file: 0, or what a refused file gives.
#[unsafe(no_mangle)]
pub extern "C" fn reefcapstan_run(file: &[u8], log: &mut [u8]) -> u32
    ensures { (result ≡ c_number file.now log.old) × (log.new ≡ log_after file.now log.old) }
{
    reefcapstan::reefcapstan_run(file, log)
}

// Writes the file of a text: number + 256 times the length of the file, or times the line for 25.
#[unsafe(no_mangle)]
pub extern "C" fn reefcapstan_write(text: &[u8], out: &mut [u8]) -> u64
    ensures { (result ≡ c_written text.now out.old) × (out.new ≡ written_in text.now out.old) }
{
    reefcapstan::reefcapstan_write(text, out)
}

// Writes the text of a file: 256 times the length of the text; else number, block and place as for a run (27 has neither).
#[unsafe(no_mangle)]
pub extern "C" fn reefcapstan_list(file: &[u8], out: &mut [u8]) -> u64
    ensures { (result ≡ c_listed file.now out.old) × (out.new ≡ listed_in file.now out.old) }
{
    reefcapstan::reefcapstan_list(file, out)
}
