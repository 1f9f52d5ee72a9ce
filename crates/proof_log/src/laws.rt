ghost use Rattle.std.specs.Prelude.{◌≡◌, ℕ, ◌+◌, ◌≤◌, List, [], IsTrue, length};
ghost use Rattle.poly_model.specs.Names.{are_variables};
ghost use Rattle.poly_model.specs.declared.vars.VarName.{VarName};
ghost use Rattle.proof_log.specs.Lengths.{line_all, lines_all};
ghost use Rattle.proof_log.specs.Headings.{Heading, IsHeading};
ghost use Rattle.proof_log.specs.Lines.{log_lines, LogWritten};
ghost use Rattle.proof_log.specs.Text.{line_text, IsLine, text_of, AreLines};
ghost use Rattle.proof_log.specs.declared.line.LogLine.{LogLine};
ghost use Rattle.proof_log.specs.declared.log.Proof.{Proof};

/// No two lines over the same variables have one text, and no two logs do, whatever their versions.
pub fn texts_are_unique()
    ensures lines { (names : List VarName) (l m : LogLine) → IsTrue (are_variables names)
        → IsLine names l → IsLine names m
        → line_text names l ≡ line_text names m → l ≡ m }
    ensures logs { (h other : Heading) (ps qs : List Proof) → IsHeading h → IsHeading other
        → LogWritten ps → LogWritten qs → AreLines [] (log_lines h ps)
        → AreLines [] (log_lines other qs)
        → text_of [] (log_lines h ps) ≡ text_of [] (log_lines other qs)
        → (h ≡ other) × (ps ≡ qs) }
{}

/// Lines are as short as their polynomials allow, each with its LF: so the length of a log can be told before it is written.
pub fn texts_are_short()
    ensures line { (names : List VarName) (l : LogLine) → IsTrue (are_variables names)
        → IsLine names l
        → length (line_text names l) + 1 ≤ line_all l }
    ensures lines { (names : List VarName) (ls : List LogLine) → IsTrue (are_variables names)
        → AreLines names ls
        → length (text_of names ls) ≤ lines_all ls }
{}
