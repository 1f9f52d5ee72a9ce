// Coordinates of points.
ghost use Rattle.std.specs.Prelude.{◌≡◌, ◌≤◌, ◌<◌, ◌+◌, IfOk, OnOk, IsTrue, get_or, length, nat_le};
ghost use Rattle.gcl_reader.specs.Grammar.{Gives};
ghost use Rattle.poly_model.specs.Names.{are_variables};
ghost use Rattle.poly_model.specs.declared.limits.TheConstants.{MOST_VARIABLES};
ghost use Rattle.gcl_reader.specs.declared.refusal.GclFault.TheVariants.{Refused};
ghost use Rattle.algebraize.specs.Layout.{dependent_point, empty, free_point, next, semi_free_point, with_place, with_points, with_u, with_x};
ghost use Rattle.algebraize.specs.Problem.{laid_out, too_many_variables};

use crate::points::{NewPoints, new_points};
use gcl_names::Act;
use gcl_reader::{GclFault, Kind, Refusal};
use poly_model::{MOST_VARIABLES, VarName, Vars};
use std::alloc::{AllocError, Global};
use std::marker::Model;

/// A coordinate of a point: zero, or the variable at a place among the variables of the problem.
#[derive(Clone, Copy, Debug, PartialEq, Eq)]
pub enum Coordinate {
    Zero,
    Variable(u8),
}

/// The coordinates of the points so far, and the variables that were made for them. Contracts see the layout.
#[derive(Drop)]
pub struct Layout {
    places: Vec<(Coordinate, Coordinate)>,
    variables: Vec<VarName>,
    frees: u8,
    us: u8,
    xs: u8,
}

impl Model for Layout {
    ghost use Rattle.std.specs.Prelude.{◌≡◌, ◌≤◌, ◌+◌, length};
    ghost use Rattle.poly_model.specs.declared.limits.TheConstants.{MOST_VARIABLES};
    ghost use Rattle.algebraize.specs.Layout.{Layout};

    ghost Value = { Layout };

    ghost view = { λ l. record {
      places = l.places.items;
      variables = l.variables.items;
      frees = l.frees;
      us = l.us;
      xs = l.xs;
    } };

    ghost invariant = { λ l. (l.us + l.xs ≡ length l.variables.items)
        × (length l.variables.items ≤ MOST_VARIABLES) × (l.frees ≤ 2) };
}

impl Layout {
    fn new(alloc: Global) -> Layout
        ensures { result ≡ empty }
    {
        Layout {
            places: Vec::new(alloc),
            variables: Vec::new(alloc),
            frees: 0,
            us: 0,
            xs: 0,
        }
    }

    fn next(&self) -> Coordinate
        requires { length self.now.variables < MOST_VARIABLES }
        ensures { result ≡ next self.now }
    {
        Coordinate::Variable(self.variables.len() as u8)
    }

    fn add_u(&mut self) -> Result<(), AllocError>
        requires { length self.old.variables < MOST_VARIABLES }
        ensures { OnOk result (self.new ≡ with_u self.old) }
    {
        self.variables.push(VarName::U(self.us + 1))?;
        self.us += 1;
        Ok(())
    }

    fn add_x(&mut self) -> Result<(), AllocError>
        requires { length self.old.variables < MOST_VARIABLES }
        ensures { OnOk result (self.new ≡ with_x self.old) }
    {
        self.variables.push(VarName::X(self.xs + 1))?;
        self.xs += 1;
        Ok(())
    }

    fn add_place(&mut self, x: Coordinate, y: Coordinate) -> Result<(), AllocError>
        ensures { OnOk result (self.new ≡ with_place x y self.old) }
    {
        self.places.push((x, y))?;
        Ok(())
    }

    fn free_point(&mut self) -> Result<(), AllocError>
        requires { length (free_point self.old).variables ≤ MOST_VARIABLES }
        ensures { OnOk result (self.new ≡ free_point self.old) }
    {
        match self.frees {
            0 => {
                self.frees = 1;
                self.add_place(Coordinate::Zero, Coordinate::Zero)
            }
            1 => {
                let x = self.next();
                self.add_u()?;
                self.frees = 2;
                self.add_place(x, Coordinate::Zero)
            }
            _ => {
                let x = self.next();
                self.add_u()?;
                let y = self.next();
                self.add_u()?;
                self.add_place(x, y)
            }
        }
    }

    fn dependent_point(&mut self) -> Result<(), AllocError>
        requires { length (dependent_point self.old).variables ≤ MOST_VARIABLES }
        ensures { OnOk result (self.new ≡ dependent_point self.old) }
    {
        let x = self.next();
        self.add_x()?;
        let y = self.next();
        self.add_x()?;
        self.add_place(x, y)
    }

    fn semi_free_point(&mut self) -> Result<(), AllocError>
        requires { length (semi_free_point self.old).variables ≤ MOST_VARIABLES }
        ensures { OnOk result (self.new ≡ semi_free_point self.old) }
    {
        let x = self.next();
        self.add_u()?;
        let y = self.next();
        self.add_x()?;
        self.add_place(x, y)
    }

    fn add_points(&mut self, points: NewPoints) -> Result<(), AllocError>
        requires { length (with_points points self.old).variables ≤ MOST_VARIABLES }
        ensures { OnOk result (self.new ≡ with_points points self.old) }
    {
        match points {
            NewPoints::NoPoint => Ok(()),
            NewPoints::Free => self.free_point(),
            NewPoints::SemiFree => self.semi_free_point(),
            NewPoints::Dependent => self.dependent_point(),
            NewPoints::TwoDependent => {
                self.dependent_point()?;
                self.dependent_point()
            }
        }
    }

    /// How many variables points take.
    fn wanted(&self, points: NewPoints) -> usize
        ensures { length (with_points points self.now).variables
            ≡ length self.now.variables + result }
    {
        match points {
            NewPoints::NoPoint => 0,
            NewPoints::Free => match self.frees {
                0 => 0,
                1 => 1,
                _ => 2,
            },
            NewPoints::SemiFree | NewPoints::Dependent => 2,
            NewPoints::TwoDependent => 4,
        }
    }

    fn has_room(&self, points: NewPoints) -> bool
        ensures { result ≡ nat_le (length (with_points points self.now).variables) MOST_VARIABLES }
    {
        self.variables.len() + self.wanted(points) <= MOST_VARIABLES
    }

    /// The coordinates of the points, in the order of making.
    pub fn places(&self) -> &[(Coordinate, Coordinate)]
        ensures { result.now ≡ self.now.places }
    {
        &self.places
    }

    /// The variables, in the order of making.
    pub fn vars(&self) -> Vars
        requires { IsTrue (are_variables self.now.variables) }
        ensures { result ≡ self.now.variables }
    {
        match Vars::from_names(&self.variables) {
            Some(vars) => vars,
            None => unreachable!(),
        }
    }
}

/// A prove is refused for its variables, at its word.
fn too_many_variables(prove: &Act) -> GclFault
    ensures { result ≡ Refused (too_many_variables prove.now) }
{
    GclFault::Refused(Refusal {
        line: prove.line,
        kind: Kind::TooManyVars,
        at: prove.at,
        len: prove.len,
    })
}

/// Lays out the points of the acts before a prove. The prove is refused where they want too many variables.
#[tactic(auto, unfolding(crate::specs::Layout::layout_from))]
pub fn lay_out(alloc: Global, before: &[Act], prove: &Act) -> Result<Layout, GclFault>
    ensures { Gives (λ l. l) result (laid_out before.now prove.now) }
{
    let mut layout = Layout::new(alloc);
    let mut rest = before;
    while let Some((act, tail)) = rest.split_first() {
        let points = new_points(&act.deed);
        if !layout.has_room(points) {
            return Err(too_many_variables(prove));
        }
        layout.add_points(points)?;
        rest = tail;
    }
    Ok(layout)
}
