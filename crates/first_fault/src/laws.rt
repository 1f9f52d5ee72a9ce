ghost use Rattle.first_fault.specs.FirstFault.{FaultsAreFirst, FittingBegins, RejectedIsFirst};

/// Lines that the grammar lets through begin those of an accepted log exactly where each fits and the root that is being
/// told, or told next, has fuel for its size. So the line that a check rejects is the first fault: the lines before it
/// begin those of an accepted log, together with it they begin those of none. Only a root that is larger than its fuel is
/// named later than it is told, at the line behind its problem.
pub fn first_fault_is_rejected()
    ensures fronts { FittingBegins }
    ensures rejected { RejectedIsFirst }
    ensures bytes { FaultsAreFirst }
{}
