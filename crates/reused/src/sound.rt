// What is sound.
ghost use Rattle.std.specs.Prelude.{◌≡◌, take};
ghost use Rattle.std.specs.List.{list_all};
ghost use Rattle.reused.specs.State.{sound_triple, sound_kept, sound_named, sound_load, sound_row, sound_sizes, sound};
ghost use Rattle.reused.specs.Parts.{sound_parts};

use crate::circle::{Circle, m_in_range};
use crate::{Announced, Own, Parts, Place, State, Triple};
use numbers::n_in_range;

// N and M are in range.
#[tactic(auto, unfolding(crate::specs::State::sound_sizes))]
fn sizes_are_sound(n: usize, m: u64) -> bool
    ensures { result ≡ sound_sizes n m }
{
    n_in_range(n) && m_in_range(n, m)
}

impl Own {
    // A load past its first step has an old.
    fn load_is_sound(self) -> bool
        ensures { result ≡ sound_load self.old self.place }
    {
        match self.place {
            Place::Load2 | Place::Load3 => self.old.is_some(),
            Place::Idle | Place::Load1 | Place::Store1(_) | Place::Store2 | Place::Check1 => true,
        }
    }
}

impl Circle {
    fn triple_is_sound(self, w: Triple) -> bool
        ensures { result ≡ sound_triple self.n self.m w }
    {
        w.tag.0 < self.m && w.process.0 < self.n
    }

    fn kept_is_sound(self, kept: Option<Triple>) -> bool
        ensures { result ≡ sound_kept self.n self.m kept }
    {
        kept.is_none_or(|w| self.triple_is_sound(w))
    }

    fn named_is_sound(self, named: Option<Announced>) -> bool
        ensures { result ≡ sound_named self.n self.m named }
    {
        named.is_none_or(|a| a.tag.0 < self.m && a.process.0 < self.n)
    }

    fn row_is_sound(self, own: Own) -> bool
        ensures { result ≡ sound_row self.n self.m own }
    {
        self.named_is_sound(own.named)
            && self.kept_is_sound(own.old)
            && self.kept_is_sound(own.check)
            && own.tag.0 < self.m
            && own.start.0 < self.m
            && own.search.0 < self.n
            && own.load_is_sound()
    }

    fn rows_are_sound(self, rows: [Own; 16]) -> bool
        ensures { result ≡ list_all (sound_row self.n self.m) (take self.n rows) }
    {
        rows[..self.n].iter().all(|own| self.row_is_sound(*own))
    }
}

impl Parts {
    #[tactic(auto, unfolding(crate::specs::Parts::sound_parts))]
    pub fn are_sound(self, n: usize, m: u64) -> bool
        ensures { result ≡ sound_parts n m self.x self.own self.looked }
    {
        if !sizes_are_sound(n, m) {
            return false;
        }
        let circle = Circle { n, m };
        circle.triple_is_sound(self.x)
            && circle.row_is_sound(self.own)
            && circle.named_is_sound(self.looked)
    }
}

impl State {
    #[tactic(auto, unfolding(crate::specs::State::sound), using(crate::proofs::Soundness::rows_in_front))]
    pub fn is_sound(self) -> bool
        ensures { result ≡ sound self }
    {
        if !sizes_are_sound(self.n, self.m) {
            return false;
        }
        let circle = Circle {
            n: self.n,
            m: self.m,
        };
        circle.triple_is_sound(self.x) && circle.rows_are_sound(self.rows)
    }
}
