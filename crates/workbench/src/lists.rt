// Lists that are given up together.
ghost use Rattle.std.specs.Prelude.{map};
ghost use Rattle.term_store.specs.Changes.{Keeps};
ghost use Rattle.polynomials.specs.Held.{slot_of};
ghost use Rattle.workbench.specs.Owned.{Owns, AreLive, without};
ghost use Rattle.workbench.specs.Standing.{held_slot, slots_of, beneath};

use crate::bench::{Bench, Held};
use crate::parts::give_up;
use polynomials::Poly;
use term_store::TermStore;

/// Gives the lists of these equations up.
pub fn release_held<S: TermStore>(s: &mut S, hs: &[Held])
    requires { AreLive (S.state s.old) (map held_slot hs.now) }
    ensures { Keeps (without (S.state s.old) (map held_slot hs.now)) (S.state s.new) }
{
    let mut rest = hs;
    while let Some((first, after)) = rest.split_first() {
        give_up(s, first.poly);
        rest = after;
    }
}

/// Gives the lists of these polynomials up.
pub fn release_polys<S: TermStore>(s: &mut S, ps: &[Poly])
    requires { AreLive (S.state s.old) (map slot_of ps.now) }
    ensures { Keeps (without (S.state s.old) (map slot_of ps.now)) (S.state s.new) }
{
    let mut rest = ps;
    while let Some((first, after)) = rest.split_first() {
        give_up(s, *first);
        rest = after;
    }
}

/// Gives all lists of a node up.
pub fn release<S: TermStore>(s: &mut S, bench: Bench)
    requires { Owns (beneath (S.state s.old) bench) (S.state s.old) (slots_of bench) }
    ensures { Keeps (beneath (S.state s.old) bench) (S.state s.new) }
{
    let Bench { eqs, nes, .. } = bench;
    release_held(s, &eqs);
    release_polys(s, &nes);
}
