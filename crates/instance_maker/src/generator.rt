//! The minimal standard generator of Park and Miller.
ghost use Rattle.std.specs.Prelude.{◌≡◌, ◌*◌, ◌%◌, ◌<◌};
ghost use Rattle.instance_maker.specs.declared.generator.TheConstants.{MODULUS};

/// What each draw multiplies the state by: the multiplier that Park, Miller and Stockmeyer give in
/// Communications of the ACM 36(7), 1993, pages 105 to 110.
const MULTIPLIER: u64 = 48271;

/// The prime 2^31 - 1, below which the states stay.
pub(crate) const MODULUS: u64 = 2147483647;

/// The numbers that a draw may answer: 0 to 999.
const NUMBERS: u64 = 1000;

/// A generator of numbers below 1000 (Lehmer's method: S. K. Park and K. W. Miller, Random number
/// generators: good ones are hard to find, Communications of the ACM 31(10), 1988).
#[derive(Drop)]
pub(crate) struct Generator {
    state: u64,
    ghost below_modulus: { state < MODULUS },
}

impl Generator {
    /// A generator that begins with this state.
    pub(crate) fn new(seed: u64) -> Generator
        requires { seed < MODULUS }
        ensures { result.state ≡ seed }
    {
        Generator { state: seed }
    }

    /// Multiplies the state, and answers its last three decimal digits as a number.
    pub(crate) fn draw(&mut self) -> u32
        ensures state { self.new.state ≡ self.old.state * MULTIPLIER % MODULUS }
        ensures number { result ≡ self.new.state % NUMBERS }
    {
        self.state = self.state * MULTIPLIER % MODULUS;
        (self.state % NUMBERS) as u32
    }
}
