ghost use Rattle.std.specs.Prelude.{◌≡◌, ◌≢◌, ◌<◌, ◌+ℤ◌, ◌*ℤ◌, neg_ℤ, ℕ, ℤ, List, [], map, get_or, nat_le, IsTrue, Ok, ◌↔◌};
ghost use Rattle.poly_model.specs.Domain.{integer_in, integers};
ghost use Rattle.poly_model.specs.Polynomial.{Polynomial, IsDescending, at_monomial, sum_over, coefficient_of, exponents_sum, poly_sum, poly_difference, poly_product, poly_constant, poly_variable, poly_scaled, is_over, power, value_at};
ghost use Rattle.poly_model.specs.Content.{coefficients_gcd, content, primitive_part};
ghost use Rattle.poly_model.specs.Standard.{is_standard};
ghost use Rattle.poly_model.specs.Reduction.{class_of, is_constant, number_of, coefficient_at, without_degree, shifted, initial_of, cross_difference, reduction_of, main_place};
ghost use Rattle.poly_model.specs.Powers.{low_at, stripped, without_variables, has_factor};
ghost use Rattle.poly_model.specs.Bounded.{bounded_sum, bounded_difference, bounded_product, bounded_shift, bounded_reduction};
ghost use Rattle.poly_model.specs.Division.{division_of, IsDivision};
ghost use Rattle.poly_model.specs.Zeros.{AllZero, NoneZero, IsZero};

use crate::domain::Domain;

/// Evaluation at a point keeps sums, differences, products and constants, and takes a variable to its coordinate: it
/// is a ring homomorphism.
pub fn evaluation_is_a_homomorphism<D: Domain>(_domain: &D)
    ensures sum { (p q : Polynomial) (point : List D.Member)
        → value_at D.operations (poly_sum p q) point
        ≡ D.operations.add (value_at D.operations p point) (value_at D.operations q point) }
    ensures difference { (p q : Polynomial) (point : List D.Member)
        → value_at D.operations (poly_difference p q) point
        ≡ D.operations.add (value_at D.operations p point) (D.operations.neg (value_at D.operations
        q point)) }
    ensures product { (p q : Polynomial) (point : List D.Member)
        → value_at D.operations (poly_product p q) point
        ≡ D.operations.mul (value_at D.operations p point) (value_at D.operations q point) }
    ensures scaled { (m : ℤ) (p : Polynomial) (point : List D.Member)
        → value_at D.operations (poly_scaled m p) point
        ≡ D.operations.mul (integer_in D.operations m) (value_at D.operations p point) }
    ensures zero { (point : List D.Member) → value_at D.operations [] point ≡ D.operations.zero }
    ensures constant { (n : ℕ) (c : ℤ) (point : List D.Member)
        → value_at D.operations (poly_constant n c) point ≡ integer_in D.operations c }
    ensures variable { (n i : ℕ) (point : List D.Member) → i < n
        → value_at D.operations (poly_variable n i) point ≡ get_or point i D.operations.one }
{}

/// A polynomial has the zeros of its primitive part, and so has a list of them.
pub fn primitive_parts_keep_zeros<D: Domain>(_domain: &D)
    ensures one { (p : Polynomial) (point : List D.Member)
        → value_at D.operations p point ≡ D.operations.zero
        ↔ value_at D.operations (primitive_part p) point ≡ D.operations.zero }
    ensures list { (E N : List Polynomial) (point : List D.Member)
        → IsZero D.operations E N point
        ↔ IsZero D.operations (map primitive_part E) (map primitive_part N) point }
{}

/// Sums, differences and products are the usual ones on finite maps from monomials to coefficients.
pub fn operations_are_the_usual_ones()
    ensures sum { (xs : List ℕ) (p q : Polynomial)
        → coefficient_of xs (poly_sum p q) ≡ coefficient_of xs p +ℤ coefficient_of xs q }
    ensures difference { (xs : List ℕ) (p q : Polynomial)
        → coefficient_of xs (poly_difference p q)
        ≡ coefficient_of xs p +ℤ neg_ℤ (coefficient_of xs q) }
    ensures product { (xs : List ℕ) (p q : Polynomial)
        → coefficient_of xs (poly_product p q)
        ≡ sum_over integers (λ es c. sum_over integers (λ fs d. at_monomial xs (exponents_sum es
        fs) (c *ℤ d)) q) p }
    ensures content { (p : Polynomial) → poly_scaled (content p) (primitive_part p) ≡ p }
{}

/// A finite map has one list in descending order, and the operations give it.
pub fn one_list_for_each_map()
    ensures one { (n : ℕ) (p q : Polynomial) → IsDescending n p → IsDescending n q
        → ((xs : List ℕ) → coefficient_of xs p ≡ coefficient_of xs q) → p ≡ q }
    ensures sum { (n : ℕ) (p q : Polynomial) → IsDescending n p → IsDescending n q
        → IsDescending n (poly_sum p q) }
    ensures difference { (n : ℕ) (p q : Polynomial) → IsDescending n p → IsDescending n q
        → IsDescending n (poly_difference p q) }
    ensures product { (n : ℕ) (p q : Polynomial) → IsDescending n p → IsDescending n q
        → IsDescending n (poly_product p q) }
    ensures constant { (n : ℕ) (c : ℤ) → IsDescending n (poly_constant n c) }
    ensures variable { (n i : ℕ) → IsDescending n (poly_variable n i) }
    ensures primitive_part { (n : ℕ) (p : Polynomial) → IsDescending n p
        → IsDescending n (primitive_part p) }
{}

/// The coefficients of a primitive part have no common divisor but 1, and it is its own primitive part.
pub fn primitive_parts_are_primitive()
    ensures coprime { (n : ℕ) (p : Polynomial) → IsDescending n p → p ≢ []
        → coefficients_gcd (primitive_part p) ≡ 1 }
    ensures own { (n : ℕ) (p : Polynomial) → IsDescending n p
        → primitive_part (primitive_part p) ≡ primitive_part p }
{}

/// A polynomial is its coefficient of a power of a variable times that power, and the other terms; shifting is that
/// product; and a constant is its number times one.
pub fn parts_make_the_polynomial<D: Domain>(_domain: &D)
    ensures parts { (i d : ℕ) (p : Polynomial) (point : List D.Member)
        → value_at D.operations p point
        ≡ D.operations.add (D.operations.mul (value_at D.operations (coefficient_at i d p) point)
        (power D.operations (get_or point i D.operations.one) d))
        (value_at D.operations (without_degree i d p) point) }
    ensures shifted { (n i k : ℕ) (p : Polynomial) (point : List D.Member) → IsDescending n p
        → i < n → value_at D.operations (shifted i k p) point
        ≡ D.operations.mul (value_at D.operations p point) (power D.operations (get_or point i
        D.operations.one) k) }
    ensures constant { (p : Polynomial) (point : List D.Member) → IsTrue (is_constant p)
        → value_at D.operations p point ≡ integer_in D.operations (number_of p) }
{}

/// A polynomial is what is left when the greatest power of a variable that divides each term is divided out, times that
/// power; where q has one term and is not zero, dividing out its variables keeps the zeros.
pub fn powers_are_divided_out<D: Domain>(_domain: &D)
    ensures power { (i : ℕ) (p : Polynomial) (point : List D.Member)
        → value_at D.operations p point
        ≡ D.operations.mul (value_at D.operations (stripped i p) point)
        (power D.operations (get_or point i D.operations.one) (low_at i p)) }
    ensures variables { (q p : Polynomial) (point : List D.Member)
        → value_at D.operations q point ≢ D.operations.zero
        → value_at D.operations p point ≡ D.operations.zero
        ↔ value_at D.operations (without_variables q p) point ≡ D.operations.zero }
    ensures variable { (p v : Polynomial) (point : List D.Member) → IsTrue (has_factor p v)
        → value_at D.operations v point ≡ get_or point (main_place v) D.operations.one }
    ensures standard { (i : ℕ) (p : Polynomial) → IsTrue (is_standard p) → IsTrue (is_standard
        (stripped i p)) }
    ensures over { (n : ℕ) (q p : Polynomial) → IsTrue (is_over n p) → IsTrue (is_over n
        (without_variables q p)) }
{}

/// A class tells which variables occur, and operations bring in no others.
pub fn operations_keep_to_their_variables()
    ensures class { (n : ℕ) (p : Polynomial) → is_over n p ≡ nat_le (class_of p) n }
    ensures sum { (n : ℕ) (p q : Polynomial) → IsTrue (is_over n p) → IsTrue (is_over n q)
        → IsTrue (is_over n (poly_sum p q)) }
    ensures difference { (n : ℕ) (p q : Polynomial) → IsTrue (is_over n p)
        → IsTrue (is_over n q) → IsTrue (is_over n (poly_difference p q)) }
    ensures product { (n : ℕ) (p q : Polynomial) → IsTrue (is_over n p) → IsTrue (is_over n q)
        → IsTrue (is_over n (poly_product p q)) }
    ensures coefficient { (n i d : ℕ) (p : Polynomial) → IsTrue (is_over n p)
        → IsTrue (is_over n (coefficient_at i d p)) }
    ensures rest { (n i d : ℕ) (p : Polynomial) → IsTrue (is_over n p)
        → IsTrue (is_over n (without_degree i d p)) }
    ensures primitive_part { (n : ℕ) (p : Polynomial) → is_over n (primitive_part p) ≡ is_over n p }
    ensures reduction { (n : ℕ) (g f : Polynomial) → IsTrue (is_over n g) → IsTrue (is_over n f)
        → IsTrue (is_over n (reduction_of g f).1) }
{}

/// What bounded arithmetic gives of polynomials within the limits is the usual result.
pub fn bounded_results_are_the_usual_ones()
    ensures sum { (p q r : Polynomial) → bounded_sum p q ≡ Ok r → r ≡ poly_sum p q }
    ensures difference { (p q r : Polynomial) → bounded_difference p q ≡ Ok r
        → r ≡ poly_difference p q }
    ensures product { (p q r : Polynomial) → IsTrue (is_standard p) → IsTrue (is_standard q)
        → bounded_product p q ≡ Ok r → r ≡ poly_product p q }
    ensures shift { (i k : ℕ) (p r : Polynomial) → bounded_shift i k p ≡ Ok r → r ≡ shifted i k p }
    ensures reduction { (g f : Polynomial) (r : ℤ × Polynomial) → IsTrue (is_standard g)
        → IsTrue (is_standard f) → bounded_reduction g f ≡ Ok r → r ≡ reduction_of g f }
{}

/// What bounded arithmetic gives of polynomials within the limits is within them.
pub fn bounded_results_are_within_the_limits()
    ensures sum { (p q r : Polynomial) → IsTrue (is_standard p) → IsTrue (is_standard q)
        → bounded_sum p q ≡ Ok r → IsTrue (is_standard r) }
    ensures difference { (p q r : Polynomial) → IsTrue (is_standard p) → IsTrue (is_standard q)
        → bounded_difference p q ≡ Ok r → IsTrue (is_standard r) }
    ensures product { (p q r : Polynomial) → IsTrue (is_standard p) → IsTrue (is_standard q)
        → bounded_product p q ≡ Ok r → IsTrue (is_standard r) }
    ensures shift { (i k : ℕ) (p r : Polynomial) → IsTrue (is_standard p)
        → bounded_shift i k p ≡ Ok r → IsTrue (is_standard r) }
    ensures reduction { (g f : Polynomial) (r : ℤ × Polynomial) → IsTrue (is_standard g)
        → IsTrue (is_standard f) → bounded_reduction g f ≡ Ok r → IsTrue (is_standard r.1) }
{}

/// Pseudo-division: an elementary reduction, and the identity `I^s*g = q*f + m*r` of a row of them.
pub fn divisions_are_exact()
    ensures step { (g f : Polynomial)
        → cross_difference g f ≡ poly_scaled (reduction_of g f).0 (reduction_of g f).1 }
    ensures row { (n s : ℕ) (g f : Polynomial) → IsDescending n g → IsDescending n f
        → IsDivision n g f (division_of g f s) }
{}

/// Where a polynomial is zero and its initial is not, an elementary reduction by it keeps the zeros.
pub fn reductions_keep_zeros<D: Domain>(_domain: &D)
    ensures { (g f : Polynomial) (point : List D.Member)
        → value_at D.operations f point ≡ D.operations.zero
        → value_at D.operations (initial_of f) point ≢ D.operations.zero
        → value_at D.operations g point ≡ D.operations.zero
        ↔ value_at D.operations (reduction_of g f).1 point ≡ D.operations.zero }
{}
