ghost use Rattle.std.specs.Prelude.{◌≡◌, ◌+◌, ◌*◌, ◌≤◌, take, drop, length};
ghost use Rattle.std.specs.Simd.Lanes.{number_l};
ghost use Rattle.poly_model.specs.declared.limits.TheConstants.{MOST_VARIABLES};
ghost use Rattle.polynomials.specs.Keys.{words_of};
ghost use Rattle.polynomials.specs.declared.key.TheConstants.{WORDS};

use poly_model::MOST_VARIABLES;

/// How many words a monomial has: sixteen exponents make one.
pub const WORDS: usize = MOST_VARIABLES / 16;

/// The exponents of a monomial as words, the greatest variable in the highest byte of the first.
#[derive(Clone, Copy, Debug)]
pub struct Key(pub [u128; WORDS]);

/// The sixteen exponents from a place on as one number, in which the last weighs most.
fn sixteen_exponents(exps: &[u8; MOST_VARIABLES], i: usize) -> u128
    requires { i + 16 ≤ MOST_VARIABLES }
    ensures { result ≡ number_l 256 (take 16 (drop i exps.now)) }
{
    u128::from_le_bytes([
        exps[i],
        exps[i + 1],
        exps[i + 2],
        exps[i + 3],
        exps[i + 4],
        exps[i + 5],
        exps[i + 6],
        exps[i + 7],
        exps[i + 8],
        exps[i + 9],
        exps[i + 10],
        exps[i + 11],
        exps[i + 12],
        exps[i + 13],
        exps[i + 14],
        exps[i + 15],
    ])
}

/// The words of a monomial.
pub fn pack(exps: &[u8; MOST_VARIABLES]) -> Key
    ensures { result.0 ≡ words_of WORDS exps.now }
{
    Key([
        sixteen_exponents(exps, 32),
        sixteen_exponents(exps, 16),
        sixteen_exponents(exps, 0),
    ])
}
