// A whole file.
ghost use Rattle.std.specs.Prelude.{◌≡◌, true, ◌≤◌, length};
ghost use Rattle.std.proofs.lemmas.List.Edits.{sets};
ghost use Rattle.schedule.specs.File.{reading};
ghost use Rattle.schedule.specs.Told.{accepted_from};
ghost use Rattle.schedule.specs.Direct.{is_accepted};
ghost use Rattle.writer.specs.Made.{listing};
ghost use Rattle.lister.specs.Told.{listed_as};
ghost use Rattle.lister.specs.Lister.{listed_by, listed_in_by, listed_of, listed_in};

use crate::length::Length;
use crate::page::Page;
use crate::put::put_text;
use numbers::Refusal;
use schedule::{Accepted, FileRefusal, Start, read_file};

// The text of an accepted file, at the front of a lent part that has room for it.
fn lay_text(out: &mut [u8], file: &[u8], start: Start)
    requires { (is_accepted (reading file.now) ≡ true) × (length (listing file.now start.n start.s start.v) ≤ length out.old) }
    ensures { out.new ≡ sets out.old 0 (listing file.now start.n start.s start.v) }
{
    let mut page = Page { out, at: 0 };
    put_text(&mut page, file, start);
}

// An accepted file.
fn list_accepted(file: &[u8], out: &mut [u8], accepted: Accepted) -> Result<usize, FileRefusal>
    requires { reading file.now ≡ accepted_from accepted.start accepted.entries }
    ensures { (listed_as result ≡ listed_by file.now out.old (accepted_from accepted.start accepted.entries))
        × (out.new ≡ listed_in_by file.now out.old (accepted_from accepted.start accepted.entries)) }
{
    let mut length = Length { bytes: 0 };
    put_text(&mut length, file, accepted.start);
    let need = length.bytes;
    if out.len() < need {
        return Err(FileRefusal {
            refusal: Refusal::OutputRoom,
            block: 0,
            place: 0,
        });
    }
    lay_text(out, file, accepted.start);
    Ok(need)
}

// A file and a lent output: what turned it away, or how long the text is that was written.
#[tactic(auto, unfolding(crate::specs::Lister::listed_of, crate::specs::Lister::listed_in))]
pub fn list_file(file: &[u8], out: &mut [u8]) -> Result<usize, FileRefusal>
    ensures { (listed_as result ≡ listed_of file.now out.old) × (out.new ≡ listed_in file.now out.old) }
{
    list_accepted(file, out, read_file(file)?)
}
