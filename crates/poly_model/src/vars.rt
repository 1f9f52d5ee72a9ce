ghost use Rattle.std.specs.Prelude.{◌≡◌, ◌<◌, ◌≤◌, ◌↔◌, IsTrue, IfSome, IfNone, false, true, length, get_or, replicate};
ghost use Rattle.poly_model.specs.Names.{number, are_variables, are_numbered};

use crate::limits::MOST_VARIABLES;
use std::marker::Model;

/// A variable: the n-th parameter `u`n, which may be chosen, or the n-th dependent one `x`n.
#[derive(Clone, Copy, Debug, PartialEq, Eq)]
pub enum VarName {
    U(u8),
    X(u8),
}

/// The variables of a problem, from the least to the greatest. Contracts see the list of their names.
#[derive(Clone, Copy, Debug, PartialEq)]
pub struct Vars {
    names: [VarName; MOST_VARIABLES],
    len: u8,
}

impl Model for Vars {
    ghost use Rattle.std.specs.Prelude.{◌-◌, ◌++◌, List, take, length, replicate};
    ghost use Rattle.poly_model.specs.declared.limits.TheConstants.{MOST_VARIABLES};
    ghost use Rattle.poly_model.specs.declared.vars.VarName.{VarName};
    ghost use Rattle.poly_model.specs.declared.vars.VarName.TheVariants.{U};
    ghost use Rattle.poly_model.specs.Held.{Holds, front_length, filled_again};

    ghost Value = { List VarName };

    ghost view = { λ vars. take vars.len vars.names };

    ghost invariant = { λ vars. Holds vars.names vars.len };

    ghost inverse = { λ names. record {
      names = names
          ++ replicate (MOST_VARIABLES - length names) (U 0);
      len = length names;
    } };

    ghost inverse_ok = { λ vars h i. record {
      names = filled_again vars.names vars.len h i;
      len =
          front_length vars.names vars.len h i;
    } };
}

impl VarName {
    /// The number of the variable in its kind.
    pub fn number(self) -> u8
        ensures { result ≡ number self }
    {
        match self {
            VarName::U(n) => n,
            VarName::X(n) => n,
        }
    }
}

impl Vars {
    /// The variables of these names. None exactly where there are too many, or a kind is not numbered from 1 in order.
    pub fn from_names(names: &[VarName]) -> Option<Vars>
        ensures some { IfSome result (λ vars. IsTrue (are_variables names.now) × (vars
            ≡ names.now)) }
        ensures none { IfNone result (are_variables names.now ≡ false) }
    {
        if names.len() > MOST_VARIABLES || !are_numbered(names) {
            return None;
        }
        let mut array = fillers();
        array[..names.len()].copy_from_slice(names);
        Some(Vars {
            names: array,
            len: names.len() as u8,
        })
    }

    /// The number of variables.
    pub fn len(&self) -> usize
        ensures len { result ≡ length self.now }
        ensures within { result ≤ MOST_VARIABLES }
        ensures numbered { IsTrue (are_variables self.now) }
    {
        self.len as usize
    }

    /// There are no variables.
    pub fn is_empty(&self) -> bool
        ensures { IsTrue result ↔ (length self.now ≡ 0) }
    {
        self.len == 0
    }

    /// The name of the variable at a place.
    pub fn at(&self, i: usize) -> VarName
        requires { i < length self.now }
        ensures { result ≡ get_or self.now i result }
    {
        let names = &self.names;
        names[i]
    }
}

fn fillers() -> [VarName; MOST_VARIABLES]
    ensures { result ≡ replicate MOST_VARIABLES (VarName.U 0) }
{
    [VarName::U(0); MOST_VARIABLES]
}

fn are_numbered(names: &[VarName]) -> bool
    requires { length names.now ≤ MOST_VARIABLES }
    ensures { result ≡ are_numbered names.now }
{
    let (mut u, mut x): (u8, u8) = (1, 1);
    let mut rest = names;
    while let Some((name, tail)) = rest.split_first() {
        match *name {
            VarName::U(n) => {
                if n != u {
                    return false;
                }
                u += 1;
            }
            VarName::X(n) => {
                if n != x {
                    return false;
                }
                x += 1;
            }
        }
        rest = tail;
    }
    true
}
