// What the programs have in common, which are filters: an input is read whole into a part that the caller lends, lines go out, and trouble
// is told in words. It only moves bytes; where a reader's bytes or a writer's are known, the promises say which.
#![tactic(auto)]

mod input;
mod output;
mod room;
#[cfg(test)]
mod tests;
mod trouble;

pub use input::{read_front, read_whole};
pub use output::{
    write_entry, write_head, write_lines, write_log, write_log_in_pages, write_pages,
    write_refusal, write_text_refusal,
};
pub use room::zeros;
pub use trouble::{Program, Trouble, complain, write_trouble};
