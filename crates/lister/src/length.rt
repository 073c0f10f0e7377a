// How long a text is.
ghost use Rattle.lister.specs.Taker.{length_fits, length_takes, length_laws};

use crate::taker::Taker;
use text::field::count_digits;

// So many bytes so far.
#[derive(Drop)]
pub(crate) struct Length {
    pub(crate) bytes: usize,
}

impl Taker for Length {
    ghost fits = { length_fits };

    ghost takes = { length_takes };

    ghost laws = { length_laws };

    fn letter(&mut self, _letter: u8) {
        self.bytes += 2;
    }

    fn number(&mut self, n: u64, _end: u8) {
        self.bytes += count_digits(n) + 1;
    }
}
