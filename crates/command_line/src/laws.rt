// What the table of forms says as a whole, and what it means that a log is assured.
ghost use Rattle.std.specs.Prelude.{◌≡◌, ℕ, List, Option};
ghost use Rattle.desk_io.specs.Causes.{Rose};
ghost use Rattle.desk_io.specs.Files.{Files};
ghost use Rattle.command_line.specs.Answer.{Answer};
ghost use Rattle.command_line.specs.Headline.{Headline, ProvedIsAssured};
ghost use Rattle.command_line.specs.Readings.{Reading};
ghost use Rattle.command_line.specs.Run.{Answers};
ghost use Rattle.command_line.specs.Table.{Form, IsAnswerOf, names_of};
ghost use Rattle.command_line.specs.declared.status.Status.{Status};

use algebraize::equations_mean_their_figure;
use assurance::{trees_cover, verdicts_hold};
use placement::carried_is_met;
use poly_model::{Domain, Integers};

/// No words have two answers over the same readings of their files.
pub fn answers_are_unique()
    ensures { (form : Option Form) (readings : List Reading) (a b : Answer)
        → IsAnswerOf form readings a → IsAnswerOf form readings b → a ≡ b }
{}

/// What a run that is done has shown, in each domain, from the answer that is due; and what a carried figure meets, over the
/// whole numbers.
pub fn a_yes_is_assured<D: Domain>(domain: &D)
    ensures { (form : Option Form) (held : Option Files) (before now : ℕ)
        (out_old out_new notes_old notes_new : Option (List ℕ)) (status : Status)
        → Answers held (Rose before now) (names_of form) (IsAnswerOf form)
        out_old out_new notes_old notes_new status
        → Headline D.operations form held out_old out_new status }
{
    trees_cover(domain);
    verdicts_hold(domain);
    equations_mean_their_figure(domain);
    trees_cover(&Integers);
    verdicts_hold(&Integers);
    equations_mean_their_figure(&Integers);
    carried_is_met();
}

/// What `prove` writes of a file, `check` assures.
pub fn what_is_proved_is_assured()
    ensures { ProvedIsAssured }
{}
