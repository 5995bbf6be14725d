//! The numbers that follow a seed.
ghost use Rattle.std.specs.Prelude.{◌≡◌};
ghost use Rattle.us_sample.specs.Numbers.{after};

// 2^31 - 1, a prime.
const MODULUS: u64 = 2147483647;

/// The number behind another one. Any number may stand in front, and the answer is below 2^31 - 1.
pub fn next_number(number: u64) -> u64
    ensures { result ≡ after number }
{
    48271 * (number % MODULUS) % MODULUS
}
