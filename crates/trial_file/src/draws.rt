ghost use Rattle.std.specs.Prelude.{◌≡◌, ◌≤◌, ◌<◌, ◌^◌};
ghost use Rattle.trial_file.specs.Draws.{after_four, choice, construction_of, drawn, next};

use crate::choice::{Choice, Construction};

/// The numbers that are drawn from a state.
#[derive(Drop)]
pub struct Draws {
    state: u64,
    ghost small: { state < 2 ^ 32 },
}

// The construction of a number.
fn construction_of(kind: u64) -> Construction
    ensures { result ≡ construction_of kind }
{
    match kind {
        0 => Construction::Midpoint,
        1 => Construction::Foot,
        _ => Construction::Translate,
    }
}

impl Draws {
    /// The draws from a number.
    pub fn from(number: u32) -> Draws
        ensures { result.state ≡ number }
    {
        Draws {
            state: u64::from(number),
        }
    }

    // A number below k.
    fn draw(&mut self, k: u64) -> u64
        requires { 1 ≤ k }
        ensures state { self.new.state ≡ next self.old.state }
        ensures number { result ≡ drawn self.new.state k }
        ensures below { result < k }
    {
        self.state = (self.state * 1_103_515_245 + 12_345) % 2_147_483_648;
        self.state / 65_536 % k
    }

    /// The construction of point i, and the earlier points that it is made of.
    pub fn choose(&mut self, i: u64) -> Choice
        requires some { 2 ≤ i }
        requires few { i < 2 ^ 32 }
        ensures choice { result ≡ choice i self.old.state }
        ensures state { self.new.state ≡ after_four self.old.state }
    {
        let construction = construction_of(self.draw(3));
        let a = self.draw(i);
        let b = (a + 1 + self.draw(i - 1)) % i;
        let c = (b + 1 + self.draw(i - 1)) % i;
        Choice {
            construction,
            a,
            b,
            c,
        }
    }
}
