// What is constructed so far.
ghost use Rattle.std.specs.Prelude.{◌≡◌, ◌<◌, ◌≤◌, ◌^◌, [], List, ℕ, length, OnOk};
ghost use Rattle.circle_cut.specs.Sizes.{IsNear, IsLaid, IsRound};
ghost use Rattle.construct.specs.Constructed.{Constructed, nothing, spot_in, line_in, circle_in, with_point, with_line, with_circle, counted};

use crate::spots::Spots;
use fixed_point::{LineEq, Round, Row, Spot};
use std::alloc::{AllocError, Global};
use std::marker::Model;

/// The points, lines and circles that are constructed so far, and how many of the points are semi-free.
#[derive(Debug, Drop)]
pub struct Construction {
    points: Vec<Spot>,
    lines: Vec<LineEq>,
    circles: Vec<Round>,
    semi_free: usize,
}

impl Model for Construction {
    ghost use Rattle.std.specs.Prelude.{◌≤◌, length, All};
    ghost use Rattle.circle_cut.specs.Sizes.{IsNear, IsLaid, IsRound};
    ghost use Rattle.construct.specs.Constructed.{Constructed};

    ghost Value = { Constructed };

    ghost view = { λ f. record {
      points = f.points.items;
      lines = f.lines.items;
      circles = f.circles.items;
      semi_free = f.semi_free;
    } };

    ghost invariant = { λ f. All IsNear f.points.items × All IsLaid f.lines.items
        × All IsRound f.circles.items × (f.semi_free ≤ length f.points.items) };
}

impl Construction {
    ghost use Rattle.construct.specs.Placing.{positions_in};
    ghost use Rattle.construct.specs.Spots.{positions_of};

    pub fn new(alloc: Global) -> Construction
        ensures { result ≡ nothing }
    {
        Construction {
            points: Vec::new(alloc),
            lines: Vec::new(alloc),
            circles: Vec::new(alloc),
            semi_free: 0,
        }
    }

    pub fn point(&self, p: u32) -> &Spot
        requires { p < length self.now.points }
        ensures value { result.now ≡ spot_in self.now p }
        ensures near { IsNear result.now }
    {
        &self.points[p as usize]
    }

    pub fn line(&self, l: u32) -> &LineEq
        requires { l < length self.now.lines }
        ensures value { result.now ≡ line_in self.now l }
        ensures laid { IsLaid result.now }
    {
        &self.lines[l as usize]
    }

    pub fn circle(&self, k: u32) -> &Round
        requires { k < length self.now.circles }
        ensures value { result.now ≡ circle_in self.now k }
        ensures round { IsRound result.now }
    {
        &self.circles[k as usize]
    }

    /// How many of the points are semi-free.
    pub fn semi_free(&self) -> usize
        ensures value { result ≡ self.now.semi_free }
        ensures size { result < 2 ^ 63 }
    {
        self.semi_free
    }

    pub fn add_point(&mut self, spot: Spot) -> Result<(), AllocError>
        requires { IsNear spot }
        ensures { OnOk result (self.new ≡ with_point spot self.old) }
    {
        self.points.push(spot)?;
        Ok(())
    }

    pub fn add_semi_free(&mut self, spot: Spot) -> Result<(), AllocError>
        requires { IsNear spot }
        ensures { OnOk result (self.new ≡ with_point spot (counted self.old)) }
    {
        self.points.push(spot)?;
        self.semi_free += 1;
        Ok(())
    }

    pub fn add_line(&mut self, line: LineEq) -> Result<(), AllocError>
        requires { IsLaid line }
        ensures { OnOk result (self.new ≡ with_line line self.old) }
    {
        self.lines.push(line)?;
        Ok(())
    }

    pub fn add_circle(&mut self, circle: Round) -> Result<(), AllocError>
        requires { IsRound circle }
        ensures { OnOk result (self.new ≡ with_circle circle self.old) }
    {
        self.circles.push(circle)?;
        Ok(())
    }

    /// What is constructed, to be kept.
    pub fn into_spots(self) -> Spots
        ensures { positions_of result ≡ positions_in self }
    {
        let Construction {
            points,
            lines,
            circles,
            semi_free: _,
        } = self;
        Spots {
            points: Row::from_vec(points),
            lines: Row::from_vec(lines),
            circles: Row::from_vec(circles),
        }
    }
}
