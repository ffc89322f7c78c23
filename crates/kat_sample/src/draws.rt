//! The numbers by which a script is drawn.
ghost use Rattle.std.specs.Prelude.{◌≡◌};
ghost use Rattle.kat_sample.specs.Draws.{drawn, next};

/// The number after this one: a linear congruential generator, with the constants of the C standard's example.
pub(crate) fn next(x: u32) -> u32
    ensures { result ≡ next x }
{
    ((1_103_515_245 * u64::from(x) + 12_345) % (1 << 31)) as u32
}

/// What is drawn with a number: its high bits, since its low bits repeat soon.
pub(crate) fn drawn(x: u32) -> u32
    ensures { result ≡ drawn x }
{
    x / 65_536
}
