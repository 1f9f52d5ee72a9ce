// What the equations of a figure mean.
ghost use Rattle.std.specs.Prelude.{◌≡◌, ◌≤◌, ◌<◌, ◌*◌, ◌*ℤ◌, List, ℕ, ℤ, pos, length, unsigned_abs};
ghost use Rattle.gcl_reader.specs.declared.word.Statement.{Statement};
ghost use Rattle.gcl_names.specs.declared.program.Act.{Act};
ghost use Rattle.poly_model.specs.declared.limits.TheConstants.{MOST_VARIABLES};
ghost use Rattle.algebraize.specs.Layout.{layout_of};
ghost use Rattle.algebraize.specs.Equations.{Equations, Mean, equations_of};
ghost use Rattle.algebraize.specs.Problem.{MeanProve, problem_of};
ghost use Rattle.algebraize.specs.Ratio.{denominator, numerator};
ghost use Rattle.algebraize.specs.declared.ratio.TheConstants.{MILLIONTHS};
ghost use Rattle.algebraize.specs.Laws.{CutCircleLaw, CutLineLaw, FootLaw, IntersecLaw, LineLaws, MidpointLaw, OncircleLaw, OnlineLaw, StatementLaws, TowardsLaw, TranslateLaw};

use poly_model::Domain;

/// At each point of a domain's space, the equations are zero exactly where the figure there meets what they stand for.
pub fn equations_mean_their_figure<D: Domain>(_d: &D)
    ensures { (acts : List Act) (s : Statement) (points : List ℕ)
        → length (layout_of acts).variables ≤ MOST_VARIABLES
        → Mean D.operations acts s points (equations_of acts s points) }
{}

/// The problem of a prove, as `system_of` gives it: at each point of a domain's space its hypotheses are zero exactly where the
/// figure there meets the constructions before the prove, and its conclusions exactly where it meets the statement.
pub fn problems_mean_their_figures<D: Domain>(_d: &D)
    ensures { (acts : List Act) (k : ℕ) (e : Equations)
        → problem_of acts k ≡ Ok e → MeanProve D.operations acts k e }
{}

/// The conditions of each construction, and of each line, in other words.
pub fn constructions_in_other_words<D: Domain>(_d: &D)
    ensures lines { LineLaws D.operations }
    ensures midpoint { MidpointLaw D.operations }
    ensures intersec { IntersecLaw D.operations }
    ensures foot { FootLaw D.operations }
    ensures online { OnlineLaw D.operations }
    ensures oncircle { OncircleLaw D.operations }
    ensures translate { TranslateLaw D.operations }
    ensures towards { TowardsLaw D.operations }
    ensures cut_line { CutLineLaw D.operations }
    ensures cut_circle { CutCircleLaw D.operations }
{}

/// The conditions of each statement in other words.
pub fn statements_in_other_words<D: Domain>(_d: &D)
    ensures { StatementLaws D.operations }
{}

/// The ratio of a number of millionths has the number's value, and is in lowest terms.
pub fn ratios_are_in_lowest_terms()
    ensures value { (t : ℤ) → numerator t *ℤ pos MILLIONTHS ≡ t *ℤ pos (denominator t) }
    ensures positive { (t : ℤ) → 0 < denominator t }
    ensures lowest { (t : ℤ) (k m n : ℕ) → k * m ≡ unsigned_abs (numerator t)
        → k * n ≡ denominator t → k ≡ 1 }
{}
