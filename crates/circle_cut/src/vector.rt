// Vectors of numbers of known sizes.
ghost use Rattle.std.specs.Prelude.{◌≡◌, ◌*◌, ◌+◌, ◌≤◌, unsigned_abs, pos, ◌*ℤ◌, ◌≤ℤ◌};
ghost use Rattle.circle_cut.specs.Sizes.{IsWithin, IsNear};
ghost use Rattle.circle_cut.specs.Vectors.{position, plus, minus, negated, scaled, rot, dot, cross, sq, way};

use crate::limits::{MOST_NORMAL, MOST_SPAN};
use edge_num::{MOST_DIVIDEND, MOST_SIZE, MOST_TERM, Whole};
use fixed_point::Spot;

/// A vector, or a position as the way from the origin. Each call tells how large its result is.
#[derive(Clone, Copy, Debug, PartialEq, Eq)]
pub struct Vector {
    pub x: Whole,
    pub y: Whole,
}

impl Vector {
    /// From the origin to a spot.
    #[tactic(auto, unfolding(crate::specs::Vectors::position))]
    pub fn position(a: &Spot) -> Vector
        ensures value { result ≡ position a.now }
        ensures x { unsigned_abs result.x ≡ unsigned_abs a.now.x }
        ensures y { unsigned_abs result.y ≡ unsigned_abs a.now.y }
    {
        Vector {
            x: Whole::new(a.x as i128),
            y: Whole::new(a.y as i128),
        }
    }

    /// From one spot to another.
    #[tactic(auto, unfolding(crate::specs::Vectors::way))]
    pub fn way(a: &Spot, b: &Spot) -> Vector
        requires near { IsNear a.now × IsNear b.now }
        ensures value { result ≡ way a.now b.now }
        ensures size { IsWithin MOST_SPAN result }
    {
        Vector::position(b).minus(&Vector::position(a))
    }

    #[tactic(auto, unfolding(crate::specs::Vectors::plus))]
    pub fn plus(&self, other: &Vector) -> Vector
        requires first { IsWithin MOST_DIVIDEND self.now }
        requires second { IsWithin MOST_DIVIDEND other.now }
        ensures value { result ≡ plus self.now other.now }
        ensures x { unsigned_abs result.x ≤ unsigned_abs self.now.x + unsigned_abs other.now.x }
        ensures y { unsigned_abs result.y ≤ unsigned_abs self.now.y + unsigned_abs other.now.y }
    {
        Vector {
            x: self.x.plus(other.x),
            y: self.y.plus(other.y),
        }
    }

    #[tactic(auto, unfolding(crate::specs::Vectors::minus))]
    pub fn minus(&self, other: &Vector) -> Vector
        requires first { IsWithin MOST_DIVIDEND self.now }
        requires second { IsWithin MOST_DIVIDEND other.now }
        ensures value { result ≡ minus self.now other.now }
        ensures x { unsigned_abs result.x ≤ unsigned_abs self.now.x + unsigned_abs other.now.x }
        ensures y { unsigned_abs result.y ≤ unsigned_abs self.now.y + unsigned_abs other.now.y }
    {
        Vector {
            x: self.x.minus(other.x),
            y: self.y.minus(other.y),
        }
    }

    /// The opposite vector.
    #[tactic(auto, unfolding(crate::specs::Vectors::negated))]
    pub fn negated(&self) -> Vector
        requires { IsWithin MOST_DIVIDEND self.now }
        ensures value { result ≡ negated self.now }
        ensures size { IsWithin MOST_DIVIDEND result }
    {
        Vector {
            x: self.x.negated(),
            y: self.y.negated(),
        }
    }

    /// The vector times a number, where the number's size is at most `A` and that of the coordinates at most `B`.
    #[tactic(auto, unfolding(crate::specs::Vectors::scaled))]
    pub fn scaled<const A: u64, const B: u64>(&self, k: Whole) -> Vector
        requires first { unsigned_abs k ≤ A }
        requires second { IsWithin B self.now }
        requires fits { A * B ≤ MOST_SIZE }
        ensures value { result ≡ scaled k self.now }
        ensures size { IsWithin (A * B) result }
    {
        Vector {
            x: k.times::<A, B>(self.x),
            y: k.times::<A, B>(self.y),
        }
    }

    /// Twice the vector.
    #[tactic(auto, using(crate::proofs::Laid::sq_double))]
    pub fn doubled(&self) -> Vector
        requires { IsWithin MOST_SPAN self.now }
        ensures value { result ≡ scaled (pos 2) self.now }
        ensures size { IsWithin MOST_NORMAL result }
        ensures square { sq result ≡ pos 4 *ℤ sq self.now }
    {
        self.scaled::<2, MOST_SPAN>(Whole::new(2))
    }

    /// The vector after a quarter turn to the left.
    #[tactic(auto, using(crate::proofs::Laid::sq_rot), unfolding(crate::specs::Vectors::rot))]
    pub fn rot(&self) -> Vector
        requires { IsWithin MOST_DIVIDEND self.now }
        ensures value { result ≡ rot self.now }
        ensures x { unsigned_abs result.x ≡ unsigned_abs self.now.y }
        ensures y { unsigned_abs result.y ≡ unsigned_abs self.now.x }
        ensures square { sq result ≡ sq self.now }
    {
        Vector {
            x: self.y.negated(),
            y: self.x,
        }
    }

    /// The scalar product, where the coordinates' sizes are at most `A` and `B`.
    #[tactic(auto, unfolding(crate::specs::Vectors::dot))]
    pub fn dot<const A: u64, const B: u64>(&self, other: &Vector) -> Whole
        requires first { IsWithin A self.now }
        requires second { IsWithin B other.now }
        requires fits { A * B ≤ MOST_TERM }
        ensures value { result ≡ dot self.now other.now }
        ensures size { unsigned_abs result ≤ 2 * (A * B) }
    {
        self.x
            .times::<A, B>(other.x)
            .plus(self.y.times::<A, B>(other.y))
    }

    /// The determinant, where the coordinates' sizes are at most `A` and `B`.
    #[tactic(auto, unfolding(crate::specs::Vectors::cross))]
    pub fn cross<const A: u64, const B: u64>(&self, other: &Vector) -> Whole
        requires first { IsWithin A self.now }
        requires second { IsWithin B other.now }
        requires fits { A * B ≤ MOST_TERM }
        ensures value { result ≡ cross self.now other.now }
        ensures size { unsigned_abs result ≤ 2 * (A * B) }
    {
        self.x
            .times::<A, B>(other.y)
            .minus(self.y.times::<A, B>(other.x))
    }

    /// The square of the length, where the coordinates' sizes are at most `A`.
    #[tactic(auto, using(crate::proofs::Laid::sq_from), unfolding(crate::specs::Vectors::sq))]
    pub fn sq<const A: u64>(&self) -> Whole
        requires size { IsWithin A self.now }
        requires fits { A * A ≤ MOST_TERM }
        ensures value { result ≡ sq self.now }
        ensures from { pos 0 ≤ℤ result }
        ensures size { unsigned_abs result ≤ 2 * (A * A) }
    {
        self.dot::<A, A>(self)
    }
}
