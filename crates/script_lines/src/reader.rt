ghost use Rattle.std.specs.Prelude.{◌≡◌, ◌<◌, ◌≤◌, ◌∷◌, [], ◌^◌, ℕ, List, Bool, false, length};
ghost use Rattle.std.specs.Prelude.{IfOk, IfSome, IfNone, OnOk, OnErr};
ghost use Rattle.solid_base.specs.Outcomes.{Gives};
ghost use Rattle.script_lines.specs.declared.commands.Command.TheVariants as command;
ghost use Rattle.script_lines.specs.declared.tables.Kind.TheVariants as kind;
ghost use Rattle.script_lines.specs.declared.commands.ScriptLine.{ScriptLine};
ghost use Rattle.script_lines.specs.Grammar.{IsLine};
ghost use Rattle.script_lines.specs.Lines.{kept_lines};
ghost use Rattle.script_lines.specs.Scripts.{IsLawfulCommand, IsLawfulLine, TakesMemory};
ghost use Rattle.script_lines.specs.Scripts.{HasRecordWithin};
ghost use Rattle.script_lines.specs.Tables.{has_record, row_with};
ghost use Rattle.script_lines.specs.Reading.{command_at, named_command, command_or_bad, line_in};
ghost use Rattle.script_lines.specs.Reading.{ended_with};

use crate::commands::{Command, ScriptLine};
use crate::faults::LineFault;
use crate::lines::first_kept;
use crate::names::{command_name, session};
use crate::questions;
use crate::tables::Kind;
use crate::words::Words;
use solid_base::{Bytes, RowText};
use solid_questions::Question;
use std::alloc::{AllocError, Global};
use std::marker::Model;

/// The words of an edit that brings a row: the entity, the row's numbers and its record, which
/// stands in the line.
#[derive(Clone, Copy, Debug)]
struct RowWords<'a> {
    de: u32,
    kind: u32,
    form: u32,
    matrix: u32,
    text: &'a [u8],
}

impl<'a> RowWords<'a> {
    /// The row that is to be read, with a text of its own.
    fn row(&self, alloc: Global) -> Result<RowText, AllocError>
        ensures { IfOk result (λ row. row
            ≡ row_with self.now.kind self.now.form self.now.matrix self.now.text.now) }
    {
        Ok(RowText {
            kind: self.kind,
            form: self.form,
            matrix: self.matrix,
            text: Bytes::from_vec(Vec::from_slice(alloc, self.text)?),
        })
    }
}

/// The words after `replace` or `add`.
#[tactic(auto, unfolding(crate::specs::Reading::command_at, crate::specs::Reading::numbers_from))]
fn row_words<'a>(words: &mut Words<'a>) -> Result<RowWords<'a>, LineFault>
    ensures replace { (live : Bool) → Gives
        (λ r. command.Replace r.de (row_with r.kind r.form r.matrix r.text.now)) result
        (command_at kind.Replace live words.old) }
    ensures add { (live : Bool) → Gives
        (λ r. command.Add r.de (row_with r.kind r.form r.matrix r.text.now)) result
        (command_at kind.Add live words.old) }
    ensures some { IfOk result (λ r. 0 < r.de) }
{
    let de = words.entity()?;
    let kind = words.whole()?;
    let form = words.whole()?;
    let matrix = words.whole()?;
    let text = words.record()?;
    Ok(RowWords {
        de,
        kind,
        form,
        matrix,
        text,
    })
}

/// A question, held or live.
fn asked(question: Question, live: bool) -> Result<Command, LineFault>
    ensures { result ≡ Ok (command.Ask question live) }
{
    Ok(Command::Ask { question, live })
}

/// The word after `drop`: an entity.
#[tactic(auto, unfolding(crate::specs::Reading::command_at, crate::specs::Reading::numbers_from))]
fn dropped(words: &mut Words<'_>) -> Result<Command, LineFault>
    ensures value { (live : Bool) → Gives (λ c. c) result (command_at kind.Drop live words.old) }
    ensures lawful { IfOk result IsLawfulCommand }
{
    let de = words.entity()?;
    words.no_more()?;
    Ok(Command::Drop { de })
}

/// A command after whose name nothing stands.
fn alone(words: &mut Words<'_>, command: Command) -> Result<Command, LineFault>
    requires { IsLawfulCommand command }
    ensures value { Gives (λ c. c) result (ended_with command words.old) }
    ensures lawful { IfOk result IsLawfulCommand }
{
    words.no_more()?;
    Ok(command)
}

/// The command that the words after its name make, where no record stands among them.
#[tactic(auto, unfolding(crate::specs::Reading::command_at, crate::specs::Reading::numbers_from))]
fn plain(kind: Kind, live: bool, words: &mut Words<'_>) -> Result<Command, LineFault>
    requires { has_record kind ≡ false }
    ensures value { Gives (λ c. c) result (command_at kind live words.old) }
    ensures lawful { IfOk result IsLawfulCommand }
{
    match kind {
        Kind::Point => asked(questions::point(words)?, live),
        Kind::Cell => asked(questions::cell(words)?, live),
        Kind::Items => asked(questions::items(words)?, live),
        Kind::Section => asked(questions::section(words)?, live),
        Kind::Volume => asked(questions::volume(words)?, live),
        Kind::Bounds => asked(questions::bounds(words)?, live),
        Kind::Drop => dropped(words),
        Kind::Export => {
            let question = Question::Export;
            alone(words, Command::Ask { question, live })
        }
        Kind::Newest => {
            let question = Question::Newest;
            alone(words, Command::Ask { question, live })
        }
        Kind::Commit | Kind::Replace | Kind::Add => alone(words, Command::Commit),
    }
}

/// A command, or a fault as one.
fn or_bad(read: Result<Command, LineFault>) -> Command
    ensures { result ≡ command_or_bad read }
{
    match read {
        Ok(command) => command,
        Err(fault) => Command::Bad(fault),
    }
}

/// The command that the words after its name make. Only the text of a row takes memory.
fn command_of(
    alloc: Global,
    kind: Kind,
    live: bool,
    words: &mut Words<'_>,
) -> Result<Command, AllocError>
    ensures value { IfOk result (λ c. c ≡ command_or_bad (command_at kind live words.old)) }
    ensures memory { OnErr result (TakesMemory (command_or_bad (command_at kind live words.old))) }
    ensures lawful { IfOk result IsLawfulCommand }
{
    match kind {
        Kind::Replace => match row_words(words) {
            Ok(row) => Ok(Command::Replace {
                de: row.de,
                row: row.row(alloc)?,
            }),
            Err(fault) => Ok(Command::Bad(fault)),
        },
        Kind::Add => match row_words(words) {
            Ok(row) => Ok(Command::Add {
                de: row.de,
                row: row.row(alloc)?,
            }),
            Err(fault) => Ok(Command::Bad(fault)),
        },
        _ => Ok(or_bad(plain(kind, live, words))),
    }
}

/// The command that the words after the session are.
#[tactic(auto, unfolding(crate::specs::Reading::named_command))]
fn command(alloc: Global, words: &mut Words<'_>) -> Result<Command, AllocError>
    ensures value { IfOk result (λ c. c ≡ command_or_bad (named_command words.old)) }
    ensures memory { OnErr result (TakesMemory (command_or_bad (named_command words.old))) }
    ensures lawful { IfOk result IsLawfulCommand }
{
    match command_name(words) {
        Ok((kind, live)) => command_of(alloc, kind, live, words),
        Err(fault) => Ok(Command::Bad(fault)),
    }
}

/// The session and the command of a line.
#[tactic(auto, unfolding(crate::specs::Reading::line_in))]
fn script_line(alloc: Global, line: &[u8]) -> Result<ScriptLine, AllocError>
    requires { length line.now ≤ 2 ^ 25 }
    ensures value { IfOk result (λ found. found ≡ line_in line.now) }
    ensures memory { OnErr result (TakesMemory (line_in line.now).command) }
    ensures lawful { IfOk result IsLawfulLine }
{
    let mut words = Words::new(line);
    match session(&mut words) {
        Ok(session) => {
            let command = command(alloc, &mut words)?;
            Ok(ScriptLine { session, command })
        }
        Err(fault) => Ok(ScriptLine {
            session: 0,
            command: Command::Bad(fault),
        }),
    }
}

/// The lines of a script, one after the other. Contracts see a reader as the bytes that are still
/// to be read, of which there are at most 2^25.
#[derive(Debug, Drop)]
pub struct ScriptReader<'a> {
    rest: &'a [u8],
}

impl<'a> Model for ScriptReader<'a> {
    ghost use Rattle.std.specs.Prelude.{ℕ, List, ◌≤◌, ◌^◌, length};

    ghost Value = { List ℕ };

    ghost view = { λ r. r.rest.now };

    ghost invariant = { λ r. length r.rest.now ≤ 2 ^ 25 };
}

impl<'a> ScriptReader<'a> {
    /// All lines of these bytes, of which there are at most 2^25.
    pub fn new(bytes: &'a [u8]) -> ScriptReader<'a>
        requires { length bytes.now ≤ 2 ^ 25 }
        ensures { result ≡ bytes.now }
    {
        ScriptReader { rest: bytes }
    }

    /// The next line that isn't skipped. None exactly where no such line is left. AllocError when
    /// out of memory, which only a line takes that brings a row; nothing is read then. The record
    /// of a row is one line, and no longer than what was left to read.
    pub fn next(&mut self, alloc: Global) -> Result<Option<ScriptLine>, AllocError>
        ensures found { IfOk result (λ found. IfSome found (λ line. (text : List ℕ)
            × (kept_lines self.old ≡ text ∷ kept_lines self.new) × IsLine text line)) }
        ensures shorter { IfOk result (λ found. IfSome found (λ line.
            length self.new < length self.old)) }
        ensures none { IfOk result (λ found. IfNone found
            ((kept_lines self.old ≡ []) × (self.new ≡ self.old))) }
        ensures memory { OnErr result ((text : List ℕ) × (more : List (List ℕ))
            × (line : ScriptLine) × (kept_lines self.old ≡ text ∷ more) × IsLine text line
            × TakesMemory line.command) }
        ensures unchanged { OnErr result (self.new ≡ self.old) }
        ensures lawful { IfOk result (λ found. IfSome found IsLawfulLine) }
        ensures record_within { IfOk result (λ found. IfSome found (λ line.
            HasRecordWithin (length self.old) line.command)) }
    {
        let Some((line, rest)) = first_kept(self.rest) else {
            return Ok(None);
        };
        let found = script_line(alloc, line)?;
        self.rest = rest;
        Ok(Some(found))
    }
}
