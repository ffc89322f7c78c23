//! Numbers that are drawn.

/// A generator of numbers: the same ones for the same seed.
pub(crate) struct Dice {
    state: u64,
}

impl Drop for Dice {
    fn drop(self) {
        let Self { state: _ } = self;
    }
}

impl Dice {
    /// A generator for a word.
    pub(crate) fn new(word: &str) -> Dice {
        let mut dice = Dice { state: 0 };
        for letter in word.as_bytes() {
            dice.state = dice.state.wrapping_add(u64::from(*letter));
            dice.next();
        }
        dice
    }

    fn next(&mut self) {
        self.state = self
            .state
            .wrapping_mul(6_364_136_223_846_793_005)
            .wrapping_add(1_442_695_040_888_963_407);
    }

    /// A number below this one, or 0.
    pub(crate) fn below(&mut self, count: usize) -> usize {
        self.next();
        let drawn = (self.state >> 40) as usize;
        if count == 0 { 0 } else { drawn % count }
    }
}
