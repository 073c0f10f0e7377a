// A text in a lent part.
ghost use Rattle.lister.specs.Taker.{page_fits, page_takes, page_laws};

use crate::taker::Taker;
use text::field::write_field;

// The lent part, and the place behind what is laid in it so far.
#[derive(Drop)]
pub(crate) struct Page<'a> {
    pub(crate) out: &'a mut [u8],
    pub(crate) at: usize,
}

impl<'a> Taker for Page<'a> {
    ghost fits = { page_fits };

    ghost takes = { page_takes };

    ghost laws = { page_laws };

    fn letter(&mut self, letter: u8) {
        self.out[self.at] = letter;
        self.out[self.at + 1] = b' ';
        self.at += 2;
    }

    fn number(&mut self, n: u64, end: u8) {
        self.at = write_field(self.out, self.at, n, end);
    }
}
