ghost use Rattle.std.specs.Prelude.{◌≡◌, ℕ, ◌+◌, ◌^◌, ◌<◌};
ghost use Rattle.net_gen.specs.Draws.{number_after, draw};

const MULTIPLIER: u64 = 1103515245;

const INCREMENT: u64 = 12345;

const MODULUS: u64 = 1 << 31;

// A draw is the generator's number without its lowest sixteen bits.
const DROPPED: u64 = 1 << 16;

/// The numbers that are drawn from a seed, one after another.
///
/// A draw replaces the generator's number x, at first the seed modulo 2^31, by
/// (x * 1103515245 + 12345) modulo 2^31, and gives it divided by 65536: 0 to 32767.
#[derive(Drop)]
pub struct Draws {
    /// What they are drawn from.
    pub seed: u64,
    /// How many were drawn.
    pub drawn: u64,
    // The generator's number after them.
    number: u64,
    ghost reached: { number ≡ number_after seed drawn },
    ghost reduced: { number < 2 ^ 31 },
}

impl Draws {
    /// The draws from this seed, before the first.
    pub fn new(seed: u64) -> Draws
        ensures seed { result.seed ≡ seed }
        ensures drawn { result.drawn ≡ 0 }
    {
        Draws {
            seed,
            drawn: 0,
            number: seed % MODULUS,
        }
    }

    /// The next draw.
    pub fn next(&mut self) -> u64
        requires { self.old.drawn < 2 ^ 32 }
        ensures value { result ≡ draw self.old.seed (self.old.drawn + 1) }
        ensures seed { self.new.seed ≡ self.old.seed }
        ensures drawn { self.new.drawn ≡ self.old.drawn + 1 }
    {
        self.number = (self.number * MULTIPLIER + INCREMENT) % MODULUS;
        self.drawn += 1;
        self.number / DROPPED
    }
}
