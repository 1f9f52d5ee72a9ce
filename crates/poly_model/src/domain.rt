ghost use Rattle.poly_model.specs.Domain.{Operations, IsDomain, ZeroOrNot, integers, gaussian};
ghost use Rattle.poly_model.specs.Integers.{integers_domain, integers_zero_or_not};
ghost use Rattle.poly_model.specs.Gaussian.{gaussian_domain, gaussian_zero_or_not};

/// An integral domain of characteristic zero. Its operations and their laws are known to contracts alone, and the
/// program computes in none: a number that stands for a member ranges there over all whole numbers, not only over
/// those of its type.
pub trait Domain {
    type Member;

    ghost operations: { Operations Self.Member };

    ghost laws: { IsDomain operations };

    /// Each member is zero or is not zero. The checker's logic is constructive and has no excluded middle, so this is
    /// a law of its own. In ordinary mathematics it is a tautology: every domain has it, and it leaves none out.
    ghost zero_or_not: { ZeroOrNot operations };
}

/// The whole numbers.
#[derive(Clone, Copy, Debug)]
pub struct Integers;

impl Domain for Integers {
    type Member = i128;

    ghost operations = { integers };

    ghost laws = { integers_domain };

    ghost zero_or_not = { integers_zero_or_not };
}

/// The Gaussian integers: the pair `(a, b)` is `a + b*i`.
#[derive(Clone, Copy, Debug)]
pub struct Gaussian;

impl Domain for Gaussian {
    type Member = (i128, i128);

    ghost operations = { gaussian };

    ghost laws = { gaussian_domain };

    ghost zero_or_not = { gaussian_zero_or_not };
}
