//! SplitMix64, a generator of numbers of 64 bits: what it draws depends on its seed alone.
ghost use Rattle.std.specs.Prelude.{◌≡◌};
ghost use Rattle.lc_random.specs.SplitMix.{mixed};

/// What the state grows by at each draw.
const STRIDE: u64 = 0x9E37_79B9_7F4A_7C15;

/// A generator of numbers.
#[derive(Drop)]
pub struct SplitMix64 {
    state: u64,
}

// The number of a state.
fn mixed(state: u64) -> u64
    ensures { result ≡ mixed state }
{
    let first = (state ^ (state >> 30)).wrapping_mul(0xBF58_476D_1CE4_E5B9);
    let second = (first ^ (first >> 27)).wrapping_mul(0x94D0_49BB_1331_11EB);
    second ^ (second >> 31)
}

impl SplitMix64 {
    ghost use Rattle.std.specs.Prelude.{◌≡◌, ◌<◌, ◌%◌};
    ghost use Rattle.lc_random.specs.SplitMix.{drawn, moved_on, state_of};

    /// The generator of a seed, before its first draw.
    pub fn new(seed: u64) -> SplitMix64
        ensures { state_of result ≡ seed }
    {
        SplitMix64 { state: seed }
    }

    /// The next number.
    pub fn draw(&mut self) -> u64
        ensures number { result ≡ drawn (state_of self.old) }
        ensures state { state_of self.new ≡ moved_on (state_of self.old) }
    {
        self.state = self.state.wrapping_add(STRIDE);
        mixed(self.state)
    }

    /// A place among `count` things: what is left of the next number when it is divided by `count`.
    pub fn place(&mut self, count: usize) -> usize
        requires { 0 < count }
        ensures place { result ≡ drawn (state_of self.old) % count }
        ensures below { result < count }
        ensures state { state_of self.new ≡ moved_on (state_of self.old) }
    {
        (self.draw() % (count as u64)) as usize
    }
}
