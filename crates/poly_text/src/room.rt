// A term's text, gathered in a room of its own so that it goes to the pen at once.
//
// Each function puts its text behind the first `n` bytes, and answers how many stand there then.
ghost use Rattle.std.specs.Prelude.{◌≡◌, ◌<◌, ◌≤◌, ◌+◌, ◌++◌, ◌∷◌, [], length, take, decimal, unsigned_abs};
ghost use Rattle.desk_io.specs.Characters.{space};
ghost use Rattle.poly_model.specs.Content.{is_negative};
ghost use Rattle.poly_model.specs.Standard.{entry_of};
ghost use Rattle.poly_text.specs.Text.{joint_text, exponent_text, factor_text, factors_text, term_text, sign_text, entry_text};

use crate::pieces::letter;
use crate::terms::is_left_out;
use itoa::Buffer;
use poly_model::{MOST_VARIABLES, Term, VarName, Vars};

/// How many bytes a sign may take.
const MOST_SIGN: usize = 3;

/// How many bytes a sign and a size may take, since no number has more than 40 digits.
const FRONT: usize = MOST_SIGN + 40;

/// How many bytes a factor may take: its joint, the letter and the number of its variable, and its exponent.
const MOST_FACTOR: usize = 9;

/// Room for any term.
pub const ROOM: usize = FRONT + MOST_FACTOR * MOST_VARIABLES;

fn put_byte(b: u8, n: usize, room: &mut [u8; ROOM]) -> usize
    requires { n < ROOM }
    ensures next { result ≡ n + 1 }
    ensures text { take result room.new ≡ take n room.old ++ b ∷ [] }
{
    room[n] = b;
    n + 1
}

/// A number below 100.
fn put_short(number: u8, n: usize, room: &mut [u8; ROOM]) -> usize
    requires { (number < 100) × (n + 2 ≤ ROOM) }
    ensures within { result ≤ n + 2 }
    ensures text { take result room.new ≡ take n room.old ++ decimal number }
{
    if number < 10 {
        return put_byte(b'0' + number, n, room);
    }
    let tens = put_byte(b'0' + number / 10, n, room);
    put_byte(b'0' + number % 10, tens, room)
}

fn put_number(number: u8, n: usize, room: &mut [u8; ROOM]) -> usize
    requires { n + 3 ≤ ROOM }
    ensures within { result ≤ n + 3 }
    ensures text { take result room.new ≡ take n room.old ++ decimal number }
{
    if number < 100 {
        return put_short(number, n, room);
    }
    let tens = put_short(number / 10, n, room);
    put_byte(b'0' + number % 10, tens, room)
}

fn put_joint(joined: bool, n: usize, room: &mut [u8; ROOM]) -> usize
    requires { n < ROOM }
    ensures within { result ≤ n + 1 }
    ensures text { take result room.new ≡ take n room.old ++ joint_text joined }
{
    if joined { put_byte(b'*', n, room) } else { n }
}

fn put_exponent(e: u8, n: usize, room: &mut [u8; ROOM]) -> usize
    requires { n + 4 ≤ ROOM }
    ensures within { result ≤ n + 4 }
    ensures text { take result room.new ≡ take n room.old ++ exponent_text e }
{
    if e == 1 {
        return n;
    }
    let caret = put_byte(b'^', n, room);
    put_number(e, caret, room)
}

/// A factor behind its joint.
fn put_factor(joined: bool, name: VarName, e: u8, n: usize, room: &mut [u8; ROOM]) -> usize
    requires { n + MOST_FACTOR ≤ ROOM }
    ensures within { result ≤ n + MOST_FACTOR }
    ensures text { take result room.new
        ≡ take n room.old ++ (joint_text joined ++ factor_text name e) }
{
    let joint = put_joint(joined, n, room);
    let kind = put_byte(letter(name), joint, room);
    let number = put_number(name.number(), kind, room);
    put_exponent(e, number, room)
}

fn put_factors(
    joined: bool,
    exps: &[u8; MOST_VARIABLES],
    vars: &Vars,
    n: usize,
    room: &mut [u8; ROOM],
) -> usize
    requires { n ≤ FRONT }
    ensures within { result ≤ ROOM }
    ensures text { take result room.new
        ≡ take n room.old ++ factors_text joined vars.now exps.now }
{
    let mut joined = joined;
    let mut n = n;
    for i in 0..vars.len() {
        let e = exps[i];
        if e == 0 {
            continue;
        }
        n = put_factor(joined, vars.at(i), e, n, room);
        joined = true;
    }
    n
}

fn put_text(text: &[u8], n: usize, room: &mut [u8; ROOM]) -> usize
    requires { n + length text.now ≤ ROOM }
    ensures next { result ≡ n + length text.now }
    ensures text { take result room.new ≡ take n room.old ++ text.now }
{
    let end = n + text.len();
    room[n..end].copy_from_slice(text);
    end
}

fn put_size(size: u128, n: usize, room: &mut [u8; ROOM]) -> usize
    requires { n ≤ MOST_SIGN }
    ensures within { result ≤ FRONT }
    ensures text { take result room.new ≡ take n room.old ++ decimal size }
{
    if size < 256 {
        return put_number(size as u8, n, room);
    }
    let mut buffer = Buffer::new();
    put_text(buffer.format(size).as_bytes(), n, room)
}

fn size(term: &Term) -> u128
    ensures { result ≡ unsigned_abs term.now.coef }
{
    term.coef.unsigned_abs()
}

fn put_term(term: &Term, vars: &Vars, n: usize, room: &mut [u8; ROOM]) -> usize
    requires { n ≤ MOST_SIGN }
    ensures within { result ≤ ROOM }
    ensures text { take result room.new ≡ take n room.old
        ++ term_text vars.now term.now.exps (unsigned_abs term.now.coef) }
{
    let size = size(term);
    if is_left_out(size, &term.exps) {
        return put_factors(false, &term.exps, vars, n, room);
    }
    let n = put_size(size, n, room);
    put_factors(true, &term.exps, vars, n, room)
}

/// A sign between terms.
fn put_parting(sign: u8, room: &mut [u8; ROOM]) -> usize
    ensures within { result ≤ MOST_SIGN }
    ensures text { take result room.new ≡ space ∷ sign ∷ space ∷ [] }
{
    let before = put_byte(b' ', 0, room);
    let behind = put_byte(sign, before, room);
    put_byte(b' ', behind, room)
}

fn put_sign(first: bool, negative: bool, room: &mut [u8; ROOM]) -> usize
    ensures within { result ≤ MOST_SIGN }
    ensures text { take result room.new ≡ sign_text first negative }
{
    match (first, negative) {
        (true, true) => put_byte(b'-', 0, room),
        (true, false) => 0,
        (false, true) => put_parting(b'-', room),
        (false, false) => put_parting(b'+', room),
    }
}

fn is_negative(term: &Term) -> bool
    ensures { result ≡ is_negative term.now.coef }
{
    term.coef < 0
}

/// The text of a term with its sign, put into the room.
pub fn entry<'a>(first: bool, term: &Term, vars: &Vars, room: &'a mut [u8; ROOM]) -> &'a [u8]
    ensures { result.now ≡ entry_text first vars.now (entry_of term.now) }
{
    let n = put_sign(first, is_negative(term), room);
    let end = put_term(term, vars, n, room);
    &room[..end]
}
