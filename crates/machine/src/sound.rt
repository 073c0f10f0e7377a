// What is sound.
ghost use Rattle.std.specs.Prelude.{◌≡◌, ◌≤◌};
ghost use Rattle.numbers.specs.Numbers.{all_below};
ghost use Rattle.step.specs.Steps.{storing};
ghost use Rattle.machine.specs.State.{sound_tag, sound_next, sound_store, sound_record, sound_parts, sound_process, sound};

use crate::State;
use numbers::{Sequence, in_range};
use step::{Place, Record, Row, Tag};

pub fn tag_is_sound(n: usize, s: Sequence, tag: Tag) -> bool
    ensures { result ≡ sound_tag n s tag }
{
    tag.process.0 < n && tag.number <= s
}

pub fn next_is_sound(s: Sequence, next: Sequence) -> bool
    ensures { result ≡ sound_next s next }
{
    next.0 != 0 && next.0 - 1 <= s.0
}

fn is_storing(place: Place) -> bool
    ensures { result ≡ storing place }
{
    matches!(place, Place::Store7(_) | Place::Store8)
}

fn store_is_sound(s: Sequence, own: Record) -> bool
    ensures { result ≡ sound_store s own }
{
    !is_storing(own.place) || own.next <= s
}

pub fn record_is_sound(n: usize, s: Sequence, own: Record) -> bool
    ensures { result ≡ sound_record n s own }
{
    tag_is_sound(n, s, own.kept) && next_is_sound(s, own.next) && store_is_sound(s, own)
}

pub fn parts_are_sound(n: usize, s: Sequence, own: Record, row: Row) -> bool
    ensures { result ≡ sound_parts n s own row }
{
    record_is_sound(n, s, own) && row.old_in_range(s)
}

impl State {
    fn processes_are_sound(self) -> bool
        requires { self.n ≤ 16 }
        ensures { result ≡ all_below self.n (sound_process self) }
    {
        (0..self.n).all(|p| parts_are_sound(self.n, self.s, self.records[p], self.rows[p]))
    }

    #[tactic(auto, using(numbers::proofs::Range::range_of), unfolding(crate::specs::State::sound))]
    pub fn is_sound(self) -> bool
        ensures { result ≡ sound self }
    {
        in_range(self.n, self.s)
            && tag_is_sound(self.n, self.s, self.x)
            && self.processes_are_sound()
    }
}
