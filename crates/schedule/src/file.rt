// The file as a whole.
ghost use Rattle.std.specs.Prelude.{◌≡◌, length, true};
ghost use Rattle.schedule.specs.File.{length_fine, block_at, blocks_after, file_entries, in_turn, reading};
ghost use Rattle.schedule.specs.Told.{accepted_from, reading_of};

use crate::block0::read_whole;
use crate::later::count_entries;
use crate::{Accepted, FileRefusal, FirstRefusal, Start};
use numbers::Refusal;

// Block k of a file, as that part of it. Where the file ends earlier, the part ends with it.
pub fn block_of(file: &[u8], k: usize) -> &[u8]
    ensures { result.now ≡ block_at file.now k }
{
    let (blocks, rest) = file.as_chunks::<512>();
    match blocks.get(k) {
        Some(block) => block,
        None if k == blocks.len() => rest,
        None => &file[..0],
    }
}

// Whether a file may be so long.
fn length_fine(n: usize) -> bool
    ensures { result ≡ length_fine n }
{
    n % 512 == 0 && 512 <= n && n <= 65536
}

// The later blocks in turn, of a file that starts so. Each byte is summed once.
#[tactic(auto, unfolding(crate::specs::File::in_turn))]
fn read_later(file: &[u8], start: Start) -> Result<Accepted, FileRefusal>
    requires { length_fine (length file.now) ≡ true }
    ensures { reading_of result ≡ in_turn file.now 1 (blocks_after file.now) (accepted_from start (length (file_entries file.now))) }
{
    let (blocks, _) = file.as_chunks();
    let mut entries = 0;
    for (i, b) in blocks[1..].iter().enumerate() {
        let block = i + 1;
        match count_entries(b, block) {
            Ok(count) => entries += count,
            Err(refusal) => {
                return Err(FileRefusal {
                    refusal,
                    block,
                    place: 0,
                });
            }
        }
    }
    Ok(Accepted { start, entries })
}

// A whole file.
#[tactic(auto, unfolding(crate::specs::File::reading))]
pub fn read_file(file: &[u8]) -> Result<Accepted, FileRefusal>
    ensures { reading_of result ≡ reading file.now }
{
    if !length_fine(file.len()) {
        return Err(FileRefusal {
            refusal: Refusal::Length,
            block: 0,
            place: 0,
        });
    }
    let (blocks, _) = file.as_chunks();
    match read_whole(&blocks[0], blocks.len() - 1) {
        Ok(start) => read_later(file, start),
        Err(FirstRefusal { refusal, place }) => Err(FileRefusal {
            refusal,
            block: 0,
            place,
        }),
    }
}
