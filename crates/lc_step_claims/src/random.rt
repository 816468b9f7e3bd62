//! Numbers from a seed.
ghost use Rattle.std.specs.Prelude.{◌≡◌, ◌<◌, ◌%◌};
ghost use Rattle.lc_random.specs.SplitMix.{drawn, moved_on, state_of};

use lc_random::SplitMix64;

/// A generator begins with its seed.
pub fn seeding(seed: u64) -> SplitMix64
    ensures { state_of result ≡ seed }
{
    SplitMix64::new(seed)
}

/// The number that is drawn is that of the state, which moves on.
pub fn drawing(random: &mut SplitMix64) -> u64
    ensures number { result ≡ drawn (state_of random.old) }
    ensures state { state_of random.new ≡ moved_on (state_of random.old) }
{
    random.draw()
}

/// A place is what is left of that number.
pub fn placing(random: &mut SplitMix64, count: usize) -> usize
    requires { 0 < count }
    ensures place { result ≡ drawn (state_of random.old) % count }
    ensures below { result < count }
    ensures state { state_of random.new ≡ moved_on (state_of random.old) }
{
    random.place(count)
}
