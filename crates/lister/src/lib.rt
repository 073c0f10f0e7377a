// The text of a schedule file (document 02, P1).
#![tactic(auto)]

mod length;
pub mod listing;
mod page;
mod put;
mod taker;

pub use listing::list_file;
