//! The numbers by which arguments and operations are drawn.

/// A generator of numbers: a linear congruential one, with the constants of the C standard's example.
#[derive(Clone, Copy)]
pub(crate) struct Draws {
    pub(crate) state: u32,
}

impl Draws {
    /// The next number: the high bits, since the low ones repeat soon.
    pub(crate) fn draw(&mut self) -> u32 {
        self.state = following(self.state);
        self.state / 65_536
    }
}

/// The state after this one.
fn following(state: u32) -> u32 {
    ((1_103_515_245 * u64::from(state) + 12_345) % (1 << 31)) as u32
}
