// The choice of the next tag: one place of A is looked at for a tag of the interval that the process may use next.
ghost use Rattle.std.specs.Prelude.{◌≡◌};
ghost use Rattle.reused.specs.Steps.{hits, with_choice, hit, passed, renewed, chosen};

use crate::turn::Turn;
use crate::{Own, Parts, Point};
use numbers::Process;

impl Own {
    // The row with another next tag, next start and search place.
    fn with_choice(self, tag: u64, start: u64, search: usize) -> Own
        ensures { result ≡ with_choice self tag start search }
    {
        Own {
            tag: Point(tag),
            start: Point(start),
            search: Process(search),
            ..self
        }
    }
}

impl Turn {
    // Whether what A names there is the process, by a tag of the interval that it is looking at.
    fn is_hit(self) -> bool
        ensures { result ≡ hits self.circle.n self.circle.m self.process self.parts.own self.parts.looked }
    {
        let Parts { own, looked, .. } = self.parts;
        match looked {
            Some(a) => {
                let d = self.circle.interval();
                a.process == self.process && self.circle.is_in_arc(a.tag.0, own.start.0, d)
            }
            None => false,
        }
    }

    // A hit: the search begins again, one interval further; the tag is the next of the running interval.
    fn search_further(self) -> Own
        ensures { result ≡ hit self.circle.n self.circle.m self.parts.own }
    {
        let own = self.parts.own;
        let d = self.circle.interval();
        let tag = self.circle.ahead(own.tag.0, 1);
        let start = self.circle.ahead(own.start.0, d);
        own.with_choice(tag, start, 0)
    }

    // Nothing there, and there are places to look at yet.
    fn look_on(self) -> Own
        ensures { result ≡ passed self.circle.m self.parts.own }
    {
        let own = self.parts.own;
        let tag = self.circle.ahead(own.tag.0, 1);
        own.with_choice(tag, own.start.0, own.search.0 + 1)
    }

    // Nothing there, and all places are looked at: the interval looked at is the running one now.
    fn take_interval(self) -> Own
        ensures { result ≡ renewed self.circle.n self.circle.m self.parts.own }
    {
        let own = self.parts.own;
        let d = self.circle.interval();
        let start = self.circle.ahead(own.start.0, d);
        own.with_choice(own.start.0, start, 0)
    }

    #[tactic(auto, unfolding(crate::specs::Steps::chosen))]
    pub(crate) fn choose(self) -> Own
        ensures { result ≡ chosen self.circle.n self.circle.m self.process self.parts.own self.parts.looked }
    {
        if self.is_hit() {
            self.search_further()
        } else if self.parts.own.search.0 + 1 < self.circle.n {
            self.look_on()
        } else {
            self.take_interval()
        }
    }
}
