// The log's bytes: a head of twelve, then twelve for each entry. This crate knows nothing of what the numbers mean.
#![tactic(auto)]

pub mod read;
pub mod write;

// What the head says: how many entries, how often X has changed, and N.
#[derive(Clone, Copy)]
pub struct Head {
    pub entries: u32,
    pub changes: u32,
    pub n: u8,
}

// What the record of an entry says.
#[derive(Clone, Copy)]
pub struct Note {
    pub outcome: u8,
    pub process: u8,
    pub steps: u8,
    pub mark: u8,
    pub value: u64,
}
