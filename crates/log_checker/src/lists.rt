// The lines of the lists of a leaf.
ghost use Rattle.std.specs.Prelude.{◌≡◌, drop, if◌then◌else◌, Option, None};
ghost use Rattle.log_checker.specs.Fitting.{Inside, Work, where_whole, eq_row, ne_row};
ghost use Rattle.log_checker.specs.Lists.{are_told, told, left_of, lists_row};
ghost use Rattle.log_checker.specs.Views.{eqs_due, nes_due};

use crate::piece::Lists;
use poly_model::OwnedPoly;

/// How many are listed behind a line that tells the next one of these, if it does.
fn next_listed(ps: &[OwnedPoly], listed: usize, p: &OwnedPoly) -> Option<usize>
    ensures { left_of ps.now result ≡ told p.now (drop listed ps.now) }
{
    if listed < ps.len() && *p == ps[listed] {
        Some(listed + 1)
    } else {
        None
    }
}

/// All are listed.
fn are_listed(ps: &[OwnedPoly], listed: usize) -> bool
    ensures { result ≡ are_told (drop listed ps.now) }
{
    listed >= ps.len()
}

impl Lists {
    /// Everything is listed.
    pub fn is_whole(&self) -> bool
        ensures { (inside : Option Inside)
            → where_whole (eqs_due self.now) (nes_due self.now) inside
            ≡ (if result then inside else None) }
    {
        are_listed(self.eqs.as_slice(), self.eqs_listed)
            && are_listed(self.nes.as_slice(), self.nes_listed)
    }

    /// How many equations are listed behind a line that tells the next one, if it does.
    pub fn eq(&self, p: &OwnedPoly) -> Option<usize>
        ensures { (w : Work) → lists_row (λ k. record self.now { eqs_listed = k }) w result
            ≡ eq_row p.now (eqs_due self.now) (nes_due self.now) w }
    {
        next_listed(self.eqs.as_slice(), self.eqs_listed, p)
    }

    /// How many conditions are listed behind a line that tells the next one, if it does, where all equations are listed.
    pub fn ne(&self, p: &OwnedPoly) -> Option<usize>
        ensures { (w : Work) → lists_row (λ k. record self.now { nes_listed = k }) w result
            ≡ ne_row p.now (eqs_due self.now) (nes_due self.now) w }
    {
        if are_listed(self.eqs.as_slice(), self.eqs_listed) {
            next_listed(self.nes.as_slice(), self.nes_listed, p)
        } else {
            None
        }
    }
}
