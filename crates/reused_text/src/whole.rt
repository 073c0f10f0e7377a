// A whole text and a lent log.
ghost use Rattle.std.specs.Prelude.{◌≡◌, ◌≤◌, length};
ghost use Rattle.run_log.specs.Log.{laid, log_length};
ghost use Rattle.reused_text.specs.Form.{text_number};
ghost use Rattle.reused_text.specs.Parts.{told_as, within};
ghost use Rattle.reused_text.specs.Played.{text_log, ran_as, ran_of, log_after};

use crate::Sizes;
use crate::play::play_lines;
use crate::scan::scan;
use numbers::{Refusal, Version};
use reused::State;
use run_log::write::lay_head;
use writer::TextRefusal;
use writer::scan::Read;

// A text that nothing refuses, with room for its log. The head is laid first, with no change counted yet; the records go into the rest behind
// it; and once the changes are known the head is laid with their count.
fn run_entries(text: &[u8], log: &mut [u8], told: Read<Sizes>)
    requires { (text_number text.now ≡ 0) × (told_as told ≡ within text.now) × (log_length told.entries ≤ length log.old) }
    ensures { log.new ≡ laid (text_log text.now) log.old }
{
    let Sizes { n, m } = told.opening;
    let started = State::start(n, m);
    let few = n as u8;
    let count = told.entries as u32;
    lay_head(log, count, Version(0), few);
    let changes = play_lines(
        &text[told.from..],
        &mut log[12..],
        started.state,
        told.entries,
    );
    lay_head(log, count, changes, few);
}

// Plays a text into a lent log: how many entries were played, or what turned the text away.
pub fn play_text(text: &[u8], log: &mut [u8]) -> Result<usize, TextRefusal>
    ensures { (ran_as result ≡ ran_of text.now log.old) × (log.new ≡ log_after text.now log.old) }
{
    let told = scan(text)?;
    let need = 12 + 12 * told.entries;
    if log.len() < need {
        return Err(TextRefusal::from(Refusal::OutputRoom));
    }
    run_entries(text, log, told);
    Ok(told.entries)
}
