// The circle of tags: how long an interval of it is, how far round it may be, going on along it, and whether a number is in an interval
// of it.
ghost use Rattle.std.specs.Prelude.{◌≡◌, true, ◌<◌, ◌≤◌};
ghost use Rattle.reused.specs.Circle.{interval_of, in_range_m, ahead, arc};
ghost use Rattle.reused.specs.State.{sound_sizes};

// D for n processes.
pub(crate) fn interval_of(n: usize) -> u64
    requires { n ≤ 16 }
    ensures { result ≡ interval_of n }
{
    let w = n as u64;
    (2 * w + 1) * w
}

// M is (2N + 2)D to 4,294,967,296.
pub(crate) fn m_in_range(n: usize, m: u64) -> bool
    requires { n ≤ 16 }
    ensures { result ≡ in_range_m n m }
{
    let w = n as u64;
    let least = (2 * w + 2) * interval_of(n);
    least <= m && m <= 4294967296
}

// N and M, both in range.
#[derive(Clone, Copy)]
pub(crate) struct Circle {
    pub(crate) n: usize,
    pub(crate) m: u64,
    ghost in_range: { sound_sizes n m ≡ true },
}

impl Circle {
    // D.
    pub(crate) fn interval(self) -> u64
        ensures { (result ≡ interval_of self.n) × (result < self.m) }
    {
        interval_of(self.n)
    }

    // k further on than a.
    #[tactic(auto, unfolding(crate::specs::Circle::ahead))]
    pub(crate) fn ahead(self, a: u64, k: u64) -> u64
        requires { (a < self.m) × (k < self.m) }
        ensures { result ≡ ahead self.m a k }
    {
        (a + k) % self.m
    }

    // Whether a is one of the c numbers from b on.
    #[tactic(auto, unfolding(crate::specs::Circle::arc))]
    pub(crate) fn is_in_arc(self, a: u64, b: u64, c: u64) -> bool
        requires { (a < self.m) × (b < self.m) × (c < self.m) }
        ensures { result ≡ arc a b c self.m }
    {
        let end = b + c;
        let round = a + self.m;
        (b <= a && a < end) || (b <= round && round < end)
    }
}
