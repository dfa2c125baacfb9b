//! Numbers that a number gives, one after the other.
ghost use Rattle.std.specs.Prelude.{◌≡◌};
ghost use Rattle.made_world.specs.Draws.{draw_of, next_state};

/// By which a state is multiplied.
const MULTIPLIER: u64 = 6_364_136_223_846_793_005;
/// What is added to it then.
const INCREMENT: u64 = 1_442_695_040_888_963_407;

/// A linear congruential generator, of which the higher bits are drawn. Contracts see its state.
///
/// Source: Knuth, "The Art of Computer Programming", volume 2, section 3.3.4, table 1 (MMIX).
pub struct Draws {
    state: u64,
}

/// One call: a derived drop is proved anew in each function that lets one go.
impl Drop for Draws {
    fn drop(self) {
        let Draws { state: _ } = self;
    }
}

impl Draws {
    /// The draws that a number gives.
    pub fn new(number: u64) -> Draws
        ensures { result ≡ record { state = number } }
    {
        Draws { state: number }
    }

    /// The next draw.
    pub fn draw(&mut self) -> u64
        ensures state { self.new ≡ record { state = next_state self.old.state } }
        ensures draw { result ≡ draw_of (next_state self.old.state) }
    {
        self.state = self.state.wrapping_mul(MULTIPLIER).wrapping_add(INCREMENT);
        self.state >> 33
    }
}
