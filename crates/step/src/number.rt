// What the steps look up in a row by a number. The signed old number is read here, and written by step 10; only a start sets it elsewhere.
ghost use Rattle.std.specs.Prelude.{◌≡◌};
ghost use Rattle.step.specs.Steps.{is_near, is_old, slot, with_slot};

use crate::Row;
use numbers::Sequence;

impl Row {
    // The slot that a sequence number uses.
    pub(crate) fn slot(self, k: Sequence) -> u64
        ensures { result ≡ slot self k }
    {
        self.slots[(k.0 % 2) as usize]
    }

    pub(crate) fn with_slot(mut self, k: Sequence, v: u64) -> Row
        ensures { result ≡ with_slot self k v }
    {
        self.slots[(k.0 % 2) as usize] = v;
        self
    }

    // Step 3's test.
    pub(crate) fn old_is_near(self, number: Sequence) -> bool
        ensures { result ≡ is_near self.old_number number.0 }
    {
        let ahead = i128::from(number.0) - i128::from(self.old_number);
        ahead == 2 || ahead == 1
    }

    // Whether the old number is one that a sound row may hold.
    pub fn old_in_range(self, last: Sequence) -> bool
        ensures { result ≡ is_old self.old_number last.0 }
    {
        -1 <= self.old_number && i128::from(self.old_number) <= i128::from(last.0)
    }
}
