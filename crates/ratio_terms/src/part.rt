ghost use Rattle.std.specs.Prelude.{◌≡◌};
ghost use Rattle.ratio_terms.specs.Terms.{operands_of, names_of};

/// A part of a term. A term is a list of its parts in preorder: each stands in front of its operands.
#[derive(Clone, Copy, Debug, PartialEq, Eq)]
pub enum Part {
    /// A whole number.
    Whole(u32),
    /// The signed area of a triangle.
    Area3,
    /// The Pythagoras difference of three points.
    Pyth3,
    /// The signed ratio of two segments.
    Sratio,
    /// The sum of two terms.
    Sum,
    /// The product of two terms.
    Mult,
}

impl Part {
    /// How many terms follow it as its operands.
    pub fn operands(self) -> usize
        ensures { result ≡ operands_of self }
    {
        match self {
            Part::Whole(_) | Part::Area3 | Part::Pyth3 | Part::Sratio => 0,
            Part::Sum | Part::Mult => 2,
        }
    }

    /// How many names of points it has itself.
    pub fn names(self) -> usize
        ensures { result ≡ names_of self }
    {
        match self {
            Part::Whole(_) | Part::Sum | Part::Mult => 0,
            Part::Area3 | Part::Pyth3 => 3,
            Part::Sratio => 4,
        }
    }
}
