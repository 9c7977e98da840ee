ghost use Rattle.std.specs.Prelude.{◌≡◌, ◌≤◌, IfOk};
ghost use Rattle.solid_base.specs.Outcomes.{Gives};
ghost use Rattle.script_lines.specs.Grammar.{most_sessions};
ghost use Rattle.script_lines.specs.Reading.{kind_named, live_named, name_at, session_of};
ghost use Rattle.script_lines.specs.Reading.{session_at};

use crate::faults::LineFault;
use crate::numbers;
use crate::tables::Kind;
use crate::words::Words;

/// How many sessions there are.
const SESSIONS: u32 = 8;

/// The command with a name.
#[tactic(auto, unfolding(crate::specs::Reading::kind_named))]
fn kind_named(text: &[u8]) -> Option<Kind>
    ensures { result ≡ kind_named text.now }
{
    if text == b"point".as_slice() {
        Some(Kind::Point)
    } else if text == b"cell".as_slice() {
        Some(Kind::Cell)
    } else if text == b"items".as_slice() {
        Some(Kind::Items)
    } else if text == b"section".as_slice() {
        Some(Kind::Section)
    } else if text == b"volume".as_slice() {
        Some(Kind::Volume)
    } else if text == b"bounds".as_slice() {
        Some(Kind::Bounds)
    } else if text == b"export".as_slice() {
        Some(Kind::Export)
    } else if text == b"newest".as_slice() {
        Some(Kind::Newest)
    } else if text == b"replace".as_slice() {
        Some(Kind::Replace)
    } else if text == b"add".as_slice() {
        Some(Kind::Add)
    } else if text == b"drop".as_slice() {
        Some(Kind::Drop)
    } else if text == b"commit".as_slice() {
        Some(Kind::Commit)
    } else {
        None
    }
}

/// The command with a name that may stand after `live`.
#[tactic(auto, unfolding(crate::specs::Reading::live_named))]
fn live_named(text: &[u8]) -> Option<Kind>
    ensures { result ≡ live_named text.now }
{
    match kind_named(text) {
        Some(Kind::Point) => Some(Kind::Point),
        Some(Kind::Cell) => Some(Kind::Cell),
        Some(Kind::Section) => Some(Kind::Section),
        Some(Kind::Volume) => Some(Kind::Volume),
        Some(Kind::Bounds) => Some(Kind::Bounds),
        _ => None,
    }
}

/// The command that the next words name, and whether it is live. BadLine at the line's end where a
/// word is missing, UnknownCommand where one is no command of its place.
#[tactic(auto, unfolding(crate::specs::Reading::name_at))]
pub fn command_name(words: &mut Words<'_>) -> Result<(Kind, bool), LineFault>
    ensures { Gives (λ name. ((name.0, name.1), words.new)) result (name_at words.old) }
{
    let word = words.next_word()?;
    if word.text == b"live".as_slice() {
        let second = words.next_word()?;
        let kind = live_named(second.text).ok_or(LineFault::UnknownCommand)?;
        return Ok((kind, true));
    }
    let kind = kind_named(word.text).ok_or(LineFault::UnknownCommand)?;
    Ok((kind, false))
}

/// The number of the session that a word names: `@` and a whole number above 0.
#[tactic(auto, unfolding(crate::specs::Reading::session_of))]
fn session_of(text: &[u8]) -> Option<u32>
    ensures { result ≡ session_of text.now }
{
    match text {
        [b'@', digits @ ..] => numbers::entity(digits),
        _ => None,
    }
}

/// The session that the first word names. BadLine in column 1 where it names none, and
/// TooManySessions where its number is above 8.
#[tactic(auto, unfolding(crate::specs::Reading::session_at, crate::specs::Reading::next_word))]
pub fn session(words: &mut Words<'_>) -> Result<u32, LineFault>
    ensures value { Gives (λ k. (k, words.new)) result (session_at words.old) }
    ensures few { IfOk result (λ k. k ≤ most_sessions) }
{
    let Ok(word) = words.next_word() else {
        return Err(LineFault::BadLine(1));
    };
    match session_of(word.text) {
        Some(number) if number <= SESSIONS => Ok(number),
        Some(_) => Err(LineFault::TooManySessions),
        None => Err(LineFault::BadLine(1)),
    }
}
