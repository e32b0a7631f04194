//! Pseudorandom truth values. They are the same in each run.

// The constants of a linear congruential generator of 64 bits.
const FACTOR: u64 = 6_364_136_223_846_793_005;

const TERM: u64 = 1_442_695_040_888_963_407;

/// The greatest number of chances. A truth value drawn with `CHANCES` chances is always true.
pub const CHANCES: u64 = 32;

/// A generator of pseudorandom truth values.
#[derive(Drop)]
pub struct Draw {
    state: u64,
}

impl Draw {
    /// Creates a generator whose seed is computed from the numbers in `place`, in their order.
    pub fn new(place: &[usize]) -> Draw {
        let mut draw = Draw { state: 0 };
        for number in place {
            draw.state = draw.state.wrapping_add(*number as u64);
            draw.step();
        }
        draw
    }

    // Advances the generator by one step.
    fn step(&mut self) {
        self.state = self.state.wrapping_mul(FACTOR).wrapping_add(TERM);
    }

    /// Returns a truth value that is true in about `chances` of 32 calls.
    pub fn truth(&mut self, chances: u64) -> bool {
        self.step();
        self.state >> 59 < chances
    }
}
