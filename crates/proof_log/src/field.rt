ghost use Rattle.std.specs.Prelude.{◌≡◌, ◌≢◌, ◌<◌, ◌≤◌, ◌^◌, ◌++◌, ◌∷◌, List, ℕ, ℤ, pos, Bool, false, length, map, decimal, codes, IfSome, IfNone, IfOk, IsErrOf, MatchOption};
ghost use Rattle.desk_io.specs.Characters.{full_stop, space};
ghost use Rattle.proof_log.specs.declared.fault.LineFault.{LineFault};
ghost use Rattle.proof_log.specs.Cuts.{EndsAt};
ghost use Rattle.poly_model.specs.Content.{signed_by};
ghost use Rattle.poly_model.specs.declared.limits.TheConstants.{MOST_LETTERS, MOST_SIZE};
ghost use Rattle.poly_model.specs.declared.limits.Reason.{Reason};
ghost use Rattle.proof_log.specs.Kinds.{IsAt, AreAt};
ghost use Rattle.proof_log.specs.Text.{Field, Multiplier, letter_text, reason_text, minus_where, field_text, FitsField, fields_text};

use crate::cut::cut;
use crate::fault::LineFault;
use crate::limits::{MOST_INDEX, MOST_PROOFS};
use poly_model::{MOST_CONCLUSIONS, MOST_FUEL, MOST_LETTERS, MOST_SIZE, Reason};
use poly_text::read_number;
use proof_steps::{Path, VERSION};
use std::alloc::Global;

/// A small field of a line: a version, a fuel, how many proofs or which, a conclusion, an equation or a condition, a multiplier,
/// a path, a reason.
#[derive(Clone, Copy, Debug)]
pub enum Field {
    Version(u8),
    Amount(u32),
    Proofs(u8),
    Conclusion(u8),
    Index(u16),
    Multiplier(i128),
    Letters(Path),
    Why(Reason),
}

/// The kind of a small field.
#[derive(Clone, Copy, Debug, PartialEq, Eq)]
pub enum FieldKind {
    Version,
    Amount,
    Proofs,
    Conclusion,
    Index,
    Multiplier,
    Letters,
    Why,
}

/// The number that a text spells, if it is one of these.
pub fn number_of(least: u128, most: u128, text: &[u8]) -> Option<u128>
    requires { most < 2 ^ 127 }
    ensures reads { IfSome result (λ n. (least ≤ n) × (n ≤ most) × (text.now ≡ decimal n)) }
    ensures refuses { IfNone result ((n : ℕ) → least ≤ n → n ≤ most → text.now ≢ decimal n) }
{
    let Some((n, rest)) = read_number(most, text) else {
        return None;
    };
    if n < least {
        return None;
    }
    if rest.is_empty() { Some(n) } else { None }
}

fn signed(negative: bool, size: u128) -> i128
    requires { size ≤ MOST_SIZE }
    ensures { result ≡ signed_by negative (pos size) }
{
    if negative {
        -(size as i128)
    } else {
        size as i128
    }
}

/// The text behind a `-` that stands first, and whether one does.
fn behind_minus(text: &[u8]) -> (bool, &[u8])
    ensures minus { text.now ≡ minus_where result.0 ++ result.1.now }
    ensures plus { result.0 ≡ false → (rest : List ℕ) → text.now ≢ codes "-" ++ rest }
{
    match text {
        [b'-', rest @ ..] => (true, rest),
        _ => (false, text),
    }
}

fn multiplier_of(text: &[u8]) -> Option<i128>
    ensures reads { IfSome result (λ m. FitsField (Multiplier m)
        × (text.now ≡ field_text (Multiplier m))) }
    ensures refuses { IfNone result ((m : ℤ) → FitsField (Multiplier m)
        → text.now ≢ field_text (Multiplier m)) }
{
    let (negative, digits) = behind_minus(text);
    match number_of(1, MOST_SIZE, digits) {
        Some(size) => Some(signed(negative, size)),
        None => None,
    }
}

fn letter_of(byte: u8) -> Option<bool>
    ensures reads { IfSome result (λ plus. byte ≡ letter_text plus) }
    ensures refuses { IfNone result ((plus : Bool) → byte ≢ letter_text plus) }
{
    match byte {
        b'+' => Some(true),
        b'-' => Some(false),
        _ => None,
    }
}

fn letters_of(text: &[u8]) -> Option<Path>
    ensures reads { IfSome result (λ path. (length path ≤ MOST_LETTERS)
        × (text.now ≡ full_stop ∷ map letter_text path)) }
    ensures refuses { IfNone result ((path : List Bool) → length path ≤ MOST_LETTERS
        → text.now ≢ full_stop ∷ map letter_text path) }
{
    let [b'.', letters @ ..] = text else {
        return None;
    };
    let mut path = Path::root();
    let mut rest = letters;
    while let Some((letter, after)) = rest.split_first() {
        if path.len() >= MOST_LETTERS {
            return None;
        }
        let Some(plus) = letter_of(*letter) else {
            return None;
        };
        path = path.child(plus);
        rest = after;
    }
    Some(path)
}

fn reason_of(text: &[u8]) -> Option<Reason>
    ensures reads { IfSome result (λ reason. text.now ≡ reason_text reason) }
    ensures refuses { IfNone result ((reason : Reason) → text.now ≢ reason_text reason) }
{
    if text == b"degree".as_slice() {
        Some(Reason::Degree)
    } else if text == b"bound".as_slice() {
        Some(Reason::Bound)
    } else if text == b"terms".as_slice() {
        Some(Reason::Terms)
    } else if text == b"depth".as_slice() {
        Some(Reason::Depth)
    } else if text == b"fuel".as_slice() {
        Some(Reason::Fuel)
    } else {
        None
    }
}

/// The field of a kind that a text spells.
fn field_of(kind: FieldKind, text: &[u8]) -> Option<Field>
    ensures reads { IfSome result (λ f. IsAt kind f × (text.now ≡ field_text f)) }
    ensures refuses { IfNone result ((f : Field) → IsAt kind f → text.now ≢ field_text f) }
{
    match kind {
        FieldKind::Version => match number_of(1, VERSION as u128, text) {
            Some(v) => Some(Field::Version(v as u8)),
            None => None,
        },
        FieldKind::Amount => match number_of(1, MOST_FUEL as u128, text) {
            Some(n) => Some(Field::Amount(n as u32)),
            None => None,
        },
        FieldKind::Proofs => match number_of(0, MOST_PROOFS as u128, text) {
            Some(n) => Some(Field::Proofs(n as u8)),
            None => None,
        },
        FieldKind::Conclusion => match number_of(1, MOST_CONCLUSIONS as u128, text) {
            Some(k) => Some(Field::Conclusion(k as u8)),
            None => None,
        },
        FieldKind::Index => match number_of(1, MOST_INDEX as u128, text) {
            Some(i) => Some(Field::Index(i as u16)),
            None => None,
        },
        FieldKind::Multiplier => match multiplier_of(text) {
            Some(m) => Some(Field::Multiplier(m)),
            None => None,
        },
        FieldKind::Letters => match letters_of(text) {
            Some(path) => Some(Field::Letters(path)),
            None => None,
        },
        FieldKind::Why => match reason_of(text) {
            Some(reason) => Some(Field::Why(reason)),
            None => None,
        },
    }
}

/// The text behind a blank that stands first.
pub fn behind_blank(text: &[u8]) -> Option<&[u8]>
    ensures { MatchOption result ((rest : List ℕ) → text.now ≢ space ∷ rest)
        (λ rest. text.now ≡ space ∷ rest.now) }
{
    match text {
        [b' ', rest @ ..] => Some(rest),
        _ => None,
    }
}

/// The fields that stand first, one of each kind, and the text behind them.
pub fn fields_at<'a>(
    alloc: Global,
    kinds: &[FieldKind],
    text: &'a [u8],
) -> Result<(Vec<Field>, &'a [u8]), LineFault>
    ensures reads { IfOk result (λ x. AreAt kinds.now x.0.items
        × (text.now ≡ fields_text x.0.items ++ x.1.now)) }
    ensures only { (fs : List Field) (rest : List ℕ) → AreAt kinds.now fs → EndsAt space rest
        → text.now ≡ fields_text fs ++ rest
        → IfOk result (λ x. (x.0.items ≡ fs) × (x.1.now ≡ rest)) }
    ensures refuses { IsErrOf result LineFault.Malformed → (fs : List Field) (rest : List ℕ)
        → AreAt kinds.now fs → EndsAt space rest → text.now ≢ fields_text fs ++ rest }
{
    let mut fields = Vec::new(alloc);
    let mut rest = text;
    let mut left = kinds;
    while let Some((kind, after)) = left.split_first() {
        let Some(behind) = behind_blank(rest) else {
            return Err(LineFault::Malformed);
        };
        let (word, next) = cut(b' ', behind);
        let Some(field) = field_of(*kind, word) else {
            return Err(LineFault::Malformed);
        };
        let Ok(()) = fields.push(field) else {
            return Err(LineFault::OutOfMemory);
        };
        rest = next;
        left = after;
    }
    Ok((fields, rest))
}
