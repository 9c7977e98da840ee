ghost use Rattle.std.specs.Prelude.{◌≡◌, ◌≢◌, ℕ, [], ◌∷◌, map, codes, IfSome, IfNone, IfOk};
ghost use Rattle.std.specs.List.{list_any};
ghost use Rattle.clap.specs.Words.{FailsBy, HasMatchesOf, app_of, fault_of, found_of};
ghost use Rattle.solid_top.specs.Commands.{IsCommand, IsSphereCount, Names};
ghost use Rattle.solid_top.specs.CommandLine.{begins_with_hyphen, words_app, words_given};

use clap::error::ErrorKind;
use clap::{Arg, ArgAction, ArgMatches, Error};
use solid_base::{digit_count, number_up_to};
use std::alloc::{AllocError, Global};

/// The commands that are built.
#[derive(Clone, Copy, Debug, PartialEq, Eq)]
pub enum Command {
    /// `check`: reads a file and tells what it holds.
    Check,
    /// `replay`: reads a file and answers the lines after it, in their order.
    Replay,
    /// `serve`: reads a file and serves the sessions of the lines after it side by side.
    Serve,
    /// `load N`: makes an input with N spheres, 1 to 1,000, and counts the replies to it.
    Load(u32),
}

/// How many spheres a word asks for: 1 to 1,000, in at most four digits.
fn spheres(word: &[u8]) -> Option<u32>
    ensures some { IfSome result (IsSphereCount word.now) }
    ensures none { IfNone result ((n : ℕ) → IsSphereCount word.now n → ⊥) }
{
    if word.len() > 4 || digit_count(word) != word.len() {
        return None;
    }
    match number_up_to(word, 9_999) as u32 {
        count @ 1..=1_000 => Some(count),
        _ => None,
    }
}

/// The command with this word and no number.
fn command_named(word: &str) -> Option<Command>
    ensures named { IfSome result (Names (word.now ∷ [])) }
    ensures none { IfNone result ((word.now ≢ codes "check") × (word.now ≢ codes "replay")
        × (word.now ≢ codes "serve")) }
{
    match word {
        "check" => Some(Command::Check),
        "replay" => Some(Command::Replay),
        "serve" => Some(Command::Serve),
        _ => None,
    }
}

/// The command with this word and a number.
fn command_counted(word: &str, number: &str) -> Option<Command>
    ensures named { IfSome result (Names (word.now ∷ number.now ∷ [])) }
    ensures none { IfNone result (word.now ≡ codes "load" → (n : ℕ) →
        IsSphereCount number.now n → ⊥) }
{
    match word {
        "load" => match spheres(number.as_bytes()) {
            Some(count) => Some(Command::Load(count)),
            None => None,
        },
        _ => None,
    }
}

/// Whether the word begins with `-`, as clap's own flags do.
fn is_flag(word: &str) -> bool
    ensures { result ≡ begins_with_hyphen word.now }
{
    word.starts_with('-')
}

/// Whether a word begins with `-`.
fn has_flag(words: &[&str]) -> bool
    ensures { result ≡ list_any (λ w. begins_with_hyphen w.now) words.now }
{
    words.iter().any(|word| is_flag(word))
}

/// The parser of the words: it takes at most two, a command's name and a number.
fn parser<'a>(alloc: Global) -> Result<clap::Command<'a>, AllocError>
    ensures { IfOk result (λ parser. app_of parser ≡ words_app) }
{
    clap::Command::new(alloc, "solidd")
        .no_binary_name(true)
        .arg(Arg::new(alloc, "command").action(ArgAction::Set))?
        .arg(Arg::new(alloc, "number").action(ArgAction::Set))
}

/// What clap makes of the words.
fn matches_given<'a>(alloc: Global, words: &'a [&'a str]) -> Result<ArgMatches<'a>, Error>
    ensures matches { IfOk result (HasMatchesOf words_app (map (λ w. w.now) words.entry.now)) }
    ensures kinds { FailsBy (fault_of words_app (map (λ w. w.now) words.entry.now)) result }
{
    parser(alloc)?.try_get_matches_from(words)
}

/// The command that was given. None where there is none.
fn command_given(given: &ArgMatches<'_>) -> Option<Command>
    ensures named { IfSome result (Names (words_given (found_of given.now))) }
    ensures none { IfNone result (IsCommand (words_given (found_of given.now)) → ⊥) }
{
    match (given.get_str("command"), given.get_str("number")) {
        (Some(word), None) => command_named(word),
        (Some(word), Some(number)) => command_counted(word, number),
        (None, _) => None,
    }
}

/// The command that the words of a command line are. None where they are no command.
///
/// `AllocError` when out of memory.
pub fn command_of(alloc: Global, words: &[&str]) -> Result<Option<Command>, AllocError>
    ensures named { IfOk result (λ c. IfSome c (Names (map (λ w. w.now) words.now))) }
    ensures none { IfOk result (λ c. IfNone c (IsCommand (map (λ w. w.now) words.now) → ⊥)) }
{
    if has_flag(words) {
        return Ok(None);
    }
    match matches_given(alloc, words) {
        Ok(given) => Ok(command_given(&given)),
        Err(error) => match error.kind() {
            ErrorKind::OutOfMemory => Err(AllocError),
            _ => Ok(None),
        },
    }
}
