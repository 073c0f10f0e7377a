// The log's bytes read back.
ghost use Rattle.std.specs.Prelude.{◌≡◌};
ghost use Rattle.run_log.specs.Log.{head_in, note_in};
ghost use Rattle.run_log.specs.Found.{head_found, note_found};

use crate::{Head, Note};

#[tactic(auto, unfolding(crate::specs::Log::head_in))]
fn load_head(b: &[u8; 12]) -> Head
    ensures { result ≡ head_in b.now }
{
    Head {
        entries: u32::from_le_bytes([b[0], b[1], b[2], b[3]]),
        changes: u32::from_le_bytes([b[4], b[5], b[6], b[7]]),
        n: b[8],
    }
}

#[tactic(auto, unfolding(crate::specs::Log::note_in))]
fn load_record(b: &[u8; 12]) -> Note
    ensures { result ≡ note_in b.now }
{
    Note {
        outcome: b[0],
        process: b[1],
        steps: b[2],
        mark: b[3],
        value: u64::from_le_bytes([b[4], b[5], b[6], b[7], b[8], b[9], b[10], b[11]]),
    }
}

// The head of a log, where the log has one.
#[tactic(auto, unfolding(crate::specs::Found::head_found), using(crate::proofs::Laws::head_front))]
pub fn read_head(log: &[u8]) -> Option<Head>
    ensures { result ≡ head_found log.now }
{
    log.first_chunk().map(load_head)
}

// The record of entry i, counted from 0, where the log reaches so far.
#[tactic(auto, unfolding(crate::specs::Found::note_found))]
pub fn read_record(log: &[u8], i: u32) -> Option<Note>
    ensures { result ≡ note_found log.now i }
{
    let at = 12 + 12 * (i as usize);
    log.get(at..)?.first_chunk().map(load_record)
}
