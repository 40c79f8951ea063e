//! The numbers that follow a seed.

ghost use Rattle.std.specs.Prelude.{◌≡◌};
ghost use Rattle.session_generator.specs.Documents.{drawn, stepped};

// The multiplier and the increment of the linear congruential generator that Knuth gives for MMIX.
const FACTOR: u64 = 6_364_136_223_846_793_005;

const INCREMENT: u64 = 1_442_695_040_888_963_407;

// The number after another.
pub(crate) fn stepped(x: u64) -> u64
    ensures { result ≡ stepped x }
{
    x.wrapping_mul(FACTOR).wrapping_add(INCREMENT)
}

// The upper half of a number.
pub(crate) fn drawn(x: u64) -> u32
    ensures { result ≡ drawn x }
{
    (x >> 32) as u32
}
