//! Draws.

ghost use Rattle.std.specs.Prelude.{◌≡◌, ◌<◌};
ghost use Rattle.trace_gen.specs.Draws.{next_state, value};

/// Draws from a state of 64 bits, which goes on with each: by a linear congruential generator, of whose states the upper 31 bits are
/// used. Made cases and the events of streams are drawn so.
#[derive(Debug, Drop)]
pub struct Draws {
    /// The state. A number from which something is drawn is the first one.
    pub state: u64,
}

/// The state behind a state.
#[tactic(auto, unfolding(crate::specs::Draws::next_state))]
fn next_state(state: u64) -> u64
    ensures { result ≡ next_state state }
{
    state
        .wrapping_mul(6364136223846793005)
        .wrapping_add(1442695040888963407)
}

impl Draws {
    /// A number below `m`. It takes no memory.
    pub fn draw(&mut self, m: u64) -> u64
        requires { 0 < m }
        ensures value { result ≡ value m (next_state self.old.state) }
        ensures below { result < m }
        ensures state { self.new.state ≡ next_state self.old.state }
    {
        self.state = next_state(self.state);
        self.state / 8589934592 % m
    }
}
