ghost use Rattle.std.specs.List.{list_all};
ghost use Rattle.std.specs.Prelude.{◌≡◌, List, IsTrue, length};
ghost use Rattle.poly_model.specs.Names.{are_variables};
ghost use Rattle.poly_model.specs.Polynomial.{Polynomial, is_over};
ghost use Rattle.poly_model.specs.Standard.{is_standard};
ghost use Rattle.poly_model.specs.declared.vars.VarName.{VarName};
ghost use Rattle.poly_text.specs.Bytes.{is_poly_byte};
ghost use Rattle.poly_text.specs.Text.{poly_text};

/// No two polynomials over the same variables have one text.
pub fn texts_are_unique()
    ensures { (names : List VarName) (p q : Polynomial) → IsTrue (are_variables names)
        → IsTrue (is_standard p) → IsTrue (is_over (length names) p) → IsTrue (is_standard q)
        → IsTrue (is_over (length names) q)
        → poly_text names p ≡ poly_text names q → p ≡ q }
{}

/// A polynomial's text has no other bytes than digits, `u`, `x`, blanks, `*`, `+`, `-` and `^`. So it has no LF and no
/// `;`, and may stand in a line and between `;`s.
pub fn texts_are_plain()
    ensures { (names : List VarName) (p : Polynomial) → IsTrue (are_variables names)
        → IsTrue (is_standard p) → IsTrue (is_over (length names) p)
        → IsTrue (list_all is_poly_byte (poly_text names p)) }
{}
