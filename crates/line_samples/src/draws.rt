//! The generator.
ghost use Rattle.std.specs.Prelude.{◌≡◌, ◌<◌, ◌%◌};
ghost use Rattle.line_samples.specs.Samples.{next_state, drawn};

/// The state of a linear congruential generator modulo 65,537.
#[derive(Drop)]
pub(crate) struct Draws {
    state: usize,
    ghost below: { state < 65537 },
}

impl Draws {
    /// The generator that a seed begins.
    pub(crate) fn new(seed: u64) -> Draws
        ensures { result.state ≡ seed % 65537 }
    {
        Draws {
            state: (seed % 65_537) as usize,
        }
    }

    /// The number below `n` that the next step draws.
    pub(crate) fn draw(&mut self, n: usize) -> usize
        requires { 0 < n }
        ensures drawn { result ≡ drawn n self.old.state }
        ensures below { result < n }
        ensures state { self.new.state ≡ next_state self.old.state }
    {
        self.state = (75 * self.state + 74) % 65_537;
        self.state % n
    }
}
