ghost use Rattle.ratio_terms.specs.Terms.{PartsOfTerms, PartsAreWhole};

/// The parts and the points of a term, with further ones behind, are that term, with the further terms behind; and the
/// parts of a term are those of one term.
pub fn parts_are_one_list_of_terms<P>(_points: &[P])
    ensures terms { PartsOfTerms P }
    ensures whole { PartsAreWhole P }
{}
