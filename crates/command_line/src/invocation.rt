// The words of the command line.
ghost use Rattle.std.specs.Prelude.{◌≡◌, None, map};
ghost use Rattle.std.specs.String.{string_bytes};
ghost use Rattle.command_line.specs.Table.{TextOf, carry_words, one_file, log_and_file, form_of, prove_words, prove_workers, proved_by, trial_number, trial_words, trial_workers, tried_by, worker_count, workers_by, workers_of};
ghost use Rattle.command_line.specs.Forms.{command_of, form_seen, workers_seen};

use crate::numbers::trial_number;
use crate::workers::{Workers, worker_count};

/// The forms that make a text of one file.
#[derive(Clone, Copy, Debug, PartialEq, Eq)]
pub enum TextForm {
    Svg,
    Latex,
    System,
    Show,
    Sample,
}

/// What the words ask for.
#[derive(Clone, Copy)]
pub enum Invocation<'a> {
    /// They are no form of the command line.
    Wrong,
    /// A text of the file of a name.
    Text(TextForm, &'a str),
    /// The log of a file's proofs.
    Prove(&'a str),
    /// The same, by workers who do each proof together.
    ProveTogether(&'a str, Workers),
    /// Whether a log is accepted, and whether it has the problems of a file, where one is named.
    Check(&'a str, Option<&'a str>),
    /// What a log of a file's problems tells of a figure.
    Carry(&'a str, &'a str, &'a str),
    /// What comes of the file of a number, by workers who do each proof together.
    Trial(u32, Workers),
}

// A form that makes a text, with the words behind its first.
fn read_text(form: TextForm, names: &[String]) -> Invocation<'_>
    ensures form { form_seen result
        ≡ one_file (TextOf (command_of form)) (map string_bytes names.now) }
    ensures workers { workers_seen result ≡ None }
{
    match names {
        [name] => Invocation::Text(form, name.as_str()),
        _ => Invocation::Wrong,
    }
}

// `prove` of a file, by as many workers as a word tells.
fn read_together<'a>(name: &'a str, count: &str) -> Invocation<'a>
    ensures form { form_seen result ≡ proved_by name.now (worker_count count.now) }
    ensures workers { workers_seen result ≡ worker_count count.now }
{
    match worker_count(count) {
        Some(count) => Invocation::ProveTogether(name, Workers { count }),
        None => Invocation::Wrong,
    }
}

// `prove`, with the words behind it.
fn read_prove(words: &[String]) -> Invocation<'_>
    ensures form { form_seen result ≡ prove_words (map string_bytes words.now) }
    ensures workers { workers_seen result ≡ prove_workers (map string_bytes words.now) }
{
    match words {
        [name] => Invocation::Prove(name.as_str()),
        [name, option, count] if option.as_str() == "--workers" => {
            read_together(name.as_str(), count.as_str())
        }
        _ => Invocation::Wrong,
    }
}

// `check`, with the words behind it.
fn read_check(names: &[String]) -> Invocation<'_>
    ensures form { form_seen result ≡ log_and_file (map string_bytes names.now) }
    ensures workers { workers_seen result ≡ None }
{
    match names {
        [log] => Invocation::Check(log.as_str(), None),
        [log, file] => Invocation::Check(log.as_str(), Some(file.as_str())),
        _ => Invocation::Wrong,
    }
}

// `carry`, with the words behind it.
fn read_carry(names: &[String]) -> Invocation<'_>
    ensures form { form_seen result ≡ carry_words (map string_bytes names.now) }
    ensures workers { workers_seen result ≡ None }
{
    match names {
        [log, file, figure] => Invocation::Carry(log.as_str(), file.as_str(), figure.as_str()),
        _ => Invocation::Wrong,
    }
}

// `trial` of the number that a word tells, by as many workers as another tells.
fn read_trial_by(number: &str, count: &str) -> Invocation<'static>
    ensures form { form_seen result
        ≡ tried_by (trial_number number.now) (worker_count count.now) }
    ensures workers { workers_seen result
        ≡ workers_by (trial_number number.now) (worker_count count.now) }
{
    let Some(number) = trial_number(number) else {
        return Invocation::Wrong;
    };
    match worker_count(count) {
        Some(count) => Invocation::Trial(number, Workers { count }),
        None => Invocation::Wrong,
    }
}

// `trial`, with the words behind it.
fn read_trial(words: &[String]) -> Invocation<'_>
    ensures form { form_seen result ≡ trial_words (map string_bytes words.now) }
    ensures workers { workers_seen result ≡ trial_workers (map string_bytes words.now) }
{
    match words {
        [number, count] => read_trial_by(number.as_str(), count.as_str()),
        _ => Invocation::Wrong,
    }
}

/// Takes the words after the program's name apart. A name may be any word, also one that begins with `-`.
pub fn read_command(words: &[String]) -> Invocation<'_>
    ensures form { form_seen result ≡ form_of (map string_bytes words.now) }
    ensures workers { workers_seen result ≡ workers_of (map string_bytes words.now) }
{
    let [word, names @ ..] = words else {
        return Invocation::Wrong;
    };
    match word.as_str() {
        "svg" => read_text(TextForm::Svg, names),
        "latex" => read_text(TextForm::Latex, names),
        "system" => read_text(TextForm::System, names),
        "show" => read_text(TextForm::Show, names),
        "sample" => read_text(TextForm::Sample, names),
        "prove" => read_prove(names),
        "check" => read_check(names),
        "trial" => read_trial(names),
        "carry" => read_carry(names),
        _ => Invocation::Wrong,
    }
}
