//! The numbers that a demo draws.
ghost use Rattle.std.specs.Prelude.{◌≡◌};
ghost use Rattle.demo_requests.specs.Draws as spec;

/// A linear congruential generator modulo 2^64, of which a draw gives the high half.
#[derive(Clone, Copy, Debug)]
pub(crate) struct Draws {
    pub(crate) state: u64,
}

impl Draws {
    /// The draws that begin at this state.
    pub(crate) fn from(state: u64) -> Draws
        ensures { result.state ≡ state }
    {
        Draws { state }
    }

    /// The next number, which is below 2^32.
    pub(crate) fn draw(&mut self) -> u64
        ensures number { result ≡ spec.drawn self.old.state }
        ensures state { self.new.state ≡ spec.next_state self.old.state }
    {
        self.state = following(self.state);
        self.state >> 32
    }
}

// The state behind this one.
#[tactic(auto, using(crate::proofs::DrawLemmas::follows))]
fn following(state: u64) -> u64
    ensures { result ≡ spec.next_state state }
{
    state
        .wrapping_mul(6_364_136_223_846_793_005)
        .wrapping_add(1_442_695_040_888_963_407)
}
