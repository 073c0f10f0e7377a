// What every floor above counts with: the three kinds of number that are never taken for one another, their ranges, and what a refusal is
// and its number.
#![tactic(auto)]

ghost use Rattle.std.specs.Prelude.{◌≡◌, ◌&&◌, ◌||◌, ◌<◌};
ghost use Rattle.numbers.specs.Numbers.{seat_of, in_range_n, in_range_s, in_range, number_unless, first_found, range_number};
ghost use Rattle.numbers.specs.Refusals.{refusal_number, number_in};

// A process number, a sequence number and a count of changes are three types, so that none is taken for another.
#[derive(Clone, Copy, PartialEq, Eq, PartialOrd, Ord)]
pub struct Process(pub usize);

impl Process {
    // Whose seat among n an entry of this process is given: its own, and for a process that is not there the first.
    pub fn seat(self, n: usize) -> Process
        ensures { result ≡ seat_of n self }
    {
        if self.0 < n { self } else { Process(0) }
    }
}

#[derive(Clone, Copy, PartialEq, Eq, PartialOrd, Ord)]
pub struct Sequence(pub u64);

#[derive(Clone, Copy, PartialEq, Eq, PartialOrd, Ord)]
pub struct Version(pub u64);

// Why a file, a text or a start is refused; beside each, its number in documents 01 and 02.
#[derive(Clone, Copy, PartialEq, Eq)]
pub enum Refusal {
    Length, // 1
    Check, // 2
    Place, // 3
    Entries, // 5
    LogRoom, // 6
    Processes, // 16
    LastNumber, // 17
    BlockCount, // 18
    StrayByte, // 19
    CircleSize, // 24
    Form, // 25
    TooMany, // 26
    OutputRoom, // 27
}

impl Refusal {
    // Its number.
    pub fn number(self) -> u8
        ensures { result ≡ refusal_number self }
    {
        match self {
            Refusal::Length => 1,
            Refusal::Check => 2,
            Refusal::Place => 3,
            Refusal::Entries => 5,
            Refusal::LogRoom => 6,
            Refusal::Processes => 16,
            Refusal::LastNumber => 17,
            Refusal::BlockCount => 18,
            Refusal::StrayByte => 19,
            Refusal::CircleSize => 24,
            Refusal::Form => 25,
            Refusal::TooMany => 26,
            Refusal::OutputRoom => 27,
        }
    }
}

// N is 1 to 16.
pub fn n_in_range(n: usize) -> bool
    ensures { result ≡ in_range_n n }
{
    1 <= n && n <= 16
}

// S is 2 to 4,294,967,295.
fn s_in_range(s: Sequence) -> bool
    ensures { result ≡ in_range_s s }
{
    2 <= s.0 && s.0 <= 4294967295
}

// Both.
pub fn in_range(n: usize, s: Sequence) -> bool
    ensures { result ≡ in_range n s }
{
    n_in_range(n) && s_in_range(s)
}

// What refuses N and S, N first.
pub fn check_range(n: usize, s: Sequence) -> Result<(), Refusal>
    ensures { number_in result ≡ range_number n s }
{
    if !n_in_range(n) {
        return Err(Refusal::Processes);
    }
    if !s_in_range(s) {
        return Err(Refusal::LastNumber);
    }
    Ok(())
}

// The number for something that is not fine, or 0, which stands for nothing found: for a caller that has a number and no `Refusal`.
pub fn number_unless(fine: bool, n: usize) -> usize
    ensures { result ≡ number_unless fine n }
{
    if fine { 0 } else { n }
}

// The first of two numbers that was found.
pub fn first_found(n: usize, rest: usize) -> usize
    ensures { result ≡ first_found n rest }
{
    if n == 0 { rest } else { n }
}

// A byte at a width in which sums of bytes fit.
pub fn wide(x: u8) -> u32
    ensures { (result ≡ x) × (result < 256) }
{
    u32::from(x)
}

// Two flags joined, whatever each of them is of.
pub fn both(a: bool, b: bool) -> bool
    ensures { result ≡ (a && b) }
{
    a && b
}

pub fn either(a: bool, b: bool) -> bool
    ensures { result ≡ (a || b) }
{
    a || b
}
