ghost use Rattle.std.specs.Prelude.{◌≡◌};
ghost use Rattle.proof_steps.specs.Rules.{has_second};

/// The newest version of the rules, and so of logs.
pub const VERSION: u8 = 2;

/// The version has the rules of the second.
pub fn has_second(version: u8) -> bool
    ensures { result ≡ has_second version }
{
    version >= 2
}
