// Bytes read as numbers, low byte first, and the test that bytes are zero.
ghost use Rattle.std.specs.Prelude.{◌≡◌, ◌+◌, ◌≤◌, length};
ghost use Rattle.numbers.specs.Numbers.{number_at};
ghost use Rattle.schedule.specs.File.{zeros_of};

// The number of the two, four or eight bytes from place `at` on: three functions, since the widths give three types of number.
pub(crate) fn two(b: &[u8], at: usize) -> u16
    requires { at + 2 ≤ length b.now }
    ensures { result ≡ number_at b.now at 2 }
{
    u16::from_le_bytes([b[at], b[at + 1]])
}

pub(crate) fn four(b: &[u8], at: usize) -> u32
    requires { at + 4 ≤ length b.now }
    ensures { result ≡ number_at b.now at 4 }
{
    u32::from_le_bytes([b[at], b[at + 1], b[at + 2], b[at + 3]])
}

pub(crate) fn eight(b: &[u8], at: usize) -> u64
    requires { at + 8 ≤ length b.now }
    ensures { result ≡ number_at b.now at 8 }
{
    u64::from_le_bytes([
        b[at],
        b[at + 1],
        b[at + 2],
        b[at + 3],
        b[at + 4],
        b[at + 5],
        b[at + 6],
        b[at + 7],
    ])
}

// Whether all the bytes of a part of a block are zero. They are added up, with no way out of the loop before its end, so that
// the compiler can take many bytes at once.
#[tactic(auto, using(crate::proofs::Laws::eqb_sum), unfolding(crate::specs::File::zeros_of))]
pub(crate) fn clear(part: &[u8]) -> bool
    requires { length part.now ≤ 512 }
    ensures { result ≡ zeros_of part.now 0 (length part.now) }
{
    let mut sum = 0;
    for &x in part {
        sum += u32::from(x);
    }
    sum == 0
}
