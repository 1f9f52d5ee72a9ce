ghost use Rattle.std.specs.Prelude.{◌≡◌, ◌+◌, ◌≤◌, ◌<◌, ◌^◌, length, [], ◌∷◌, option_map, Option, Some, None, IfOk};
ghost use Rattle.gcl_reader.specs.declared.limits.TheConstants.{MOST_BYTES, MOST_COMMANDS};
ghost use Rattle.gcl_reader.specs.Tokens.{lexed, put, tokens};
ghost use Rattle.gcl_reader.specs.Standing.{TokensStand};
ghost use Rattle.gcl_reader.specs.Fitting.{IsFitting};
ghost use Rattle.gcl_reader.specs.Spelling.{Spells, SpelledIsRead};
ghost use Rattle.gcl_reader.specs.Ahead.{ahead, token_of, first_of};
ghost use Rattle.gcl_reader.specs.Table.{parameters_of};
ghost use Rattle.gcl_reader.specs.Grammar.{Gives, args_at, brace_at, statement_at, word_at, close_at, command_at, first_at, commands_at, file_of};

use crate::argument::{arg_at, refused, token_at};
use crate::file::{Arg, Command, File};
use crate::lexer::{Lexeme, Lexer};
use crate::limits::{MOST_BYTES, MOST_COMMANDS};
use crate::refusal::{GclFault, Kind};
use crate::table::{head_of, parameters_of, statement_of};
use crate::word::{Head, Parameter, Statement, Word};
use fixed_point::Row;
use std::alloc::Global;

/// The next tokens, one for each parameter.
fn args_at(
    alloc: Global,
    parameters: &[Parameter],
    lexer: &mut Lexer<'_>,
) -> Result<Vec<Arg>, GclFault>
    ensures { Gives (λ v. (v.items, ahead lexer.new)) result
        (args_at parameters.now (ahead lexer.old)) }
{
    let mut args = Vec::new(alloc);
    let mut rest = parameters;
    while let [parameter, after @ ..] = rest {
        let arg = arg_at(*parameter, lexer)?;
        args.push(arg)?;
        rest = after;
    }
    Ok(args)
}

/// The next token, which is the brace.
#[tactic(auto, unfolding(crate::specs::Grammar::brace_at))]
fn brace_at(brace: &[u8], lexer: &mut Lexer<'_>) -> Result<(), GclFault>
    ensures { Gives (λ _. ahead lexer.new) result (brace_at brace.now (ahead lexer.old)) }
{
    let token = token_at(lexer)?;
    if token.text == brace {
        Ok(())
    } else {
        Err(GclFault::Refused(refused(Kind::WantsBrace, token)))
    }
}

/// The next token, which names a statement.
#[tactic(auto, unfolding(crate::specs::Grammar::statement_at))]
fn statement_at(lexer: &mut Lexer<'_>) -> Result<Statement, GclFault>
    ensures { Gives (λ s. (s, ahead lexer.new)) result (statement_at (ahead lexer.old)) }
{
    let token = token_at(lexer)?;
    match statement_of(token.text) {
        Some(statement) => Ok(statement),
        None => Err(GclFault::Refused(refused(Kind::UnknownStatement, token))),
    }
}

/// The whole word of a command: that of a proof has its statement behind a brace.
#[tactic(auto, unfolding(crate::specs::Grammar::word_at))]
fn word_at(head: Head, lexer: &mut Lexer<'_>) -> Result<Word, GclFault>
    ensures { Gives (λ w. (w, ahead lexer.new)) result (word_at head (ahead lexer.old)) }
{
    match head {
        Head::Word(word) => Ok(word),
        Head::Prove => {
            brace_at(b"{", lexer)?;
            let statement = statement_at(lexer)?;
            Ok(Word::Prove(statement))
        }
    }
}

/// The brace that ends a command, where it wants one.
#[tactic(auto, unfolding(crate::specs::Grammar::close_at))]
fn close_at(head: Head, lexer: &mut Lexer<'_>) -> Result<(), GclFault>
    ensures { Gives (λ _. ahead lexer.new) result (close_at head (ahead lexer.old)) }
{
    match head {
        Head::Word(_) => Ok(()),
        Head::Prove => brace_at(b"}", lexer),
    }
}

/// The command that begins with a token.
#[tactic(auto, unfolding(crate::specs::Grammar::command_at))]
fn command_at(
    alloc: Global,
    token: Lexeme<'_>,
    head: Head,
    lexer: &mut Lexer<'_>,
) -> Result<Command, GclFault>
    ensures { Gives (λ c. (c, ahead lexer.new)) result
        (command_at (token_of token.entry) head (ahead lexer.old)) }
{
    let word = word_at(head, lexer)?;
    let args = args_at(alloc, parameters_of(&word), lexer)?;
    close_at(head, lexer)?;
    Ok(Command {
        word,
        line: token.line,
        at: token.at,
        len: token.text.len() as u32,
        args: Row::from_vec(args),
    })
}

/// The first token of a command, where one begins.
#[tactic(auto, unfolding(crate::specs::Grammar::first_at))]
fn first_at<'a>(lexer: &mut Lexer<'a>) -> Result<Option<(Lexeme<'a>, Head)>, GclFault>
    ensures { Gives (λ f. first_of f (ahead lexer.new)) result (first_at (ahead lexer.old)) }
{
    let Ok(token) = lexer.next() else {
        return Ok(None);
    };
    if token.text.is_empty() {
        return Err(GclFault::Refused(refused(Kind::NotText, token)));
    }
    match head_of(token.text) {
        Some(head) => Ok(Some((token, head))),
        None => Err(GclFault::Refused(refused(Kind::UnknownCommand, token))),
    }
}

/// The commands up to the end of the file.
fn commands_at(alloc: Global, lexer: &mut Lexer<'_>) -> Result<Vec<Command>, GclFault>
    ensures { Gives (λ v. v.items) result (commands_at MOST_COMMANDS (ahead lexer.old)) }
{
    let mut commands = Vec::new(alloc);
    loop {
        let Some((token, head)) = first_at(lexer)? else {
            return Ok(commands);
        };
        let full = commands.len() as u64 == MOST_COMMANDS;
        if full {
            return Err(GclFault::Refused(refused(Kind::TooManyCommands, token)));
        }
        let command = command_at(alloc, token, head, lexer)?;
        commands.push(command)?;
    }
}

/// Reads a file of at most `MOST_BYTES` bytes, or refuses it at its first token that offends.
///
/// The names of the file are not looked up: that is the next stage's work.
pub fn read(alloc: Global, bytes: &[u8]) -> Result<File, GclFault>
    requires { length bytes.now ≤ MOST_BYTES }
    ensures value { Gives (λ f. f.commands) result (file_of bytes.now) }
    ensures fitting { IfOk result (λ f. IsFitting f.commands) }
    ensures spelled { IfOk result (λ f. Spells (tokens bytes.now) f.commands) }
{
    let mut lexer = Lexer::new(bytes);
    let commands = commands_at(alloc, &mut lexer)?;
    Ok(File {
        commands: Row::from_vec(commands),
    })
}

/// Each token of a file has the text that stands at its place, and the line that its line feeds give that place.
pub fn tokens_stand()
    ensures { TokensStand }
{}

/// A file is read as whatever fitting commands its tokens spell. So no file spells two lists of them.
pub fn spelled_is_read()
    ensures { SpelledIsRead }
{}
