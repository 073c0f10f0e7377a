// What takes a text, piece by piece. One counts the bytes (`Length`), one lays them in a lent part (`Page`), so that how long a text is and
// which bytes it has are told by the same walk.
ghost use Rattle.std.specs.Prelude.{ℕ, List, [], ◌∷◌, length};
ghost use Rattle.text.specs.Lines.{field};
ghost use Rattle.lister.specs.Taker.{TakerLaws};

pub(crate) trait Taker {
    // Whether there is room for so many bytes more.
    ghost fits: { Self → ℕ → Type 0 };

    // What it is once it has taken these bytes.
    ghost takes: { Self → List ℕ → Self → Type 0 };

    // A line's letter and the space behind it.
    fn letter(&mut self, letter: u8)
        requires { fits self.old 2 }
        ensures { takes self.old (letter ∷ 32 ∷ []) self.new };

    // A number and what ends it.
    fn number(&mut self, n: u64, end: u8)
        requires { fits self.old (length (field n end)) }
        ensures { takes self.old (field n end) self.new };

    ghost laws: { TakerLaws fits takes };
}
