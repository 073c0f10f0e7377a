// The blocks after block 0, and the entries in them.
ghost use Rattle.std.specs.Prelude.{◌≡◌, ◌≤◌, ◌<◌, IfOk};
ghost use Rattle.numbers.specs.Refusals.{number_in};
ghost use Rattle.schedule.specs.File.{entry_clear, entry_fine, count, entries_fine, rest_clear, later_fine, later_number, no_entry, meant};
ghost use Rattle.schedule.specs.Direct.{later_of, entry_at, fields_of, no_fields, fields_at, used_part, accepted_part};
ghost use Rattle.schedule.specs.Told.{later_block_of};

use crate::Fields;
use crate::bytes::{clear, eight, two};
use crate::check::check_frame;
use numbers::{Process, Refusal};
use step::{Entry, Kind, Request};

// Whether an entry has no stray byte. The bytes that should be zero are read as one number.
fn entry_clear(e: &[u8; 12]) -> bool
    ensures { result ≡ entry_clear e.now }
{
    (two(e, 2) == 0) & ((e[0] == 2) | (eight(e, 4) == 0))
}

// Whether an entry has a kind that there is, and no stray byte.
fn entry_fine(e: &[u8; 12]) -> bool
    ensures { result ≡ entry_fine e.now }
{
    (1 <= e[0]) & (e[0] <= 4) & entry_clear(e)
}

// Whether the first `c` entries of a block are as they should be. All are tested, and the tests joined with no way out before the end, so
// that the compiler can test several entries at once.
fn entries_fine(b: &[u8; 512], c: usize) -> bool
    requires { c ≤ 42 }
    ensures { result ≡ entries_fine b.now c }
{
    let (entries, _) = b[4..4 + 12 * c].as_chunks();
    let mut fine = true;
    for e in entries {
        fine &= entry_fine(e);
    }
    fine
}

// Whether a block with `c` entries has no stray byte outside them.
fn rest_clear(b: &[u8; 512], c: usize) -> bool
    requires { (c ≡ count b.now) × (c ≤ 42) }
    ensures { result ≡ rest_clear b.now }
{
    b[3] == 0 && clear(&b[4 + 12 * c..510])
}

// Whether a later block is as it should be, its check and its place apart.
fn later_fine(b: &[u8; 512]) -> bool
    ensures { result ≡ later_fine b.now }
{
    let c = usize::from(b[2]);
    if 42 < c {
        return false;
    }
    entries_fine(b, c) && rest_clear(b, c)
}

// How many entries block k has, a whole one, or what refuses it.
#[tactic(auto, unfolding(crate::specs::File::later_number))]
pub(crate) fn count_entries(b: &[u8; 512], k: usize) -> Result<usize, Refusal>
    ensures { (number_in result ≡ later_number b.now k) × IfOk result (λ entries. entries ≡ count b.now) }
{
    check_frame(b, k)?;
    if !later_fine(b) {
        return Err(Refusal::Entries);
    }
    Ok(usize::from(b[2]))
}

// Block k, where k is not 0: how many entries it has.
#[tactic(auto, unfolding(crate::specs::Direct::later_of))]
pub fn read_block(b: &[u8], k: usize) -> Result<usize, Refusal>
    ensures { later_block_of result ≡ later_of b.now k }
{
    match <&[u8; 512]>::try_from(b) {
        Ok(b) => count_entries(b, k),
        Err(_) => Err(Refusal::Length),
    }
}

// The part of a block with the entries that its count speaks of. No test is made of them: this is for a block that is known
// to be accepted, and costs nothing there.
#[tactic(auto, unfolding(crate::specs::Direct::used_part))]
pub fn used_entries(b: &[u8]) -> &[u8]
    ensures { result.now ≡ used_part b.now }
{
    if b.len() < 4 {
        return &b[..0];
    }
    let end = 4 + 12 * usize::from(b[2]);
    if b.len() < end {
        return &b[..0];
    }
    &b[4..end]
}

// The part of block k with its entries, where k is not 0: of a refused block an empty part.
#[tactic(auto, unfolding(crate::specs::Direct::later_of, crate::specs::Direct::accepted_part))]
pub fn entries_of(b: &[u8], k: usize) -> &[u8]
    ensures { result.now ≡ accepted_part b.now k }
{
    match read_block(b, k) {
        Ok(_) => used_entries(b),
        Err(_) => &b[..0],
    }
}

// The answer where no entry stands, as `entry_at` promises: a step of process 255.
fn no_entry() -> Entry
    ensures { result ≡ no_entry }
{
    Entry {
        process: Process(255),
        kind: Kind::Step,
    }
}

// What an entry's twelve bytes say, with no test of the kind.
pub fn read_fields(e: &[u8; 12]) -> Fields
    ensures { result ≡ fields_of e.now }
{
    Fields {
        kind: e[0],
        process: e[1],
        value: eight(e, 4),
    }
}

// What an entry's twelve bytes ask.
#[tactic(auto, unfolding(crate::specs::File::meant))]
fn meaning(e: &[u8; 12]) -> Entry
    ensures { (result ≡ meant e.now) × (result.process.0 < 256) }
{
    let kind = match e[0] {
        1 => Kind::Ask(Request::Load),
        2 => Kind::Ask(Request::Store(eight(e, 4))),
        3 => Kind::Ask(Request::Check),
        4 => Kind::Step,
        _ => return no_entry(),
    };
    Entry {
        process: Process(usize::from(e[1])),
        kind,
    }
}

// Entry j of a part that holds entries.
#[tactic(auto, unfolding(crate::specs::Direct::entry_at))]
pub fn entry_at(part: &[u8], j: usize) -> Entry
    ensures { (result ≡ entry_at part.now j) × (result.process.0 < 256) }
{
    match part.as_chunks::<12>().0.get(j) {
        Some(e) => meaning(e),
        None => no_entry(),
    }
}

// The answer where no entry's bytes stand: those of a step of process 255.
fn no_fields() -> Fields
    ensures { result ≡ no_fields }
{
    Fields {
        kind: 4,
        process: 255,
        value: 0,
    }
}

// The fields of entry j of a part that holds entries.
#[tactic(auto, unfolding(crate::specs::Direct::fields_at))]
pub fn fields_at(part: &[u8], j: usize) -> Fields
    ensures { result ≡ fields_at part.now j }
{
    match part.as_chunks::<12>().0.get(j) {
        Some(e) => read_fields(e),
        None => no_fields(),
    }
}
