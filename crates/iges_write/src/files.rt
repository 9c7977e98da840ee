ghost use Rattle.std.specs.Prelude.{◌≡◌, ◌≤◌, ◌<◌, ◌+◌, ◌*◌, ◌^◌, ◌++◌, [], ◌∷◌, length, IfOk};
ghost use Rattle.std.specs.Prelude.{OnOk, OnErr};
ghost use Rattle.std.specs.List.{concat};
ghost use mathlib.Core.List.{IsPrefix};
ghost use Rattle.solid_base.specs.declared.entities.Token.TheVariants as Token;
ghost use Rattle.iges_parameters.specs.Accepted.{IsAccepted, lines_of};
ghost use Rattle.iges_write.specs.Cards.{right_aligned, card, cards};
ghost use Rattle.iges_write.specs.CanonicalFile.{group, groups, groups_of, global_lines};
ghost use Rattle.iges_write.specs.CanonicalFile.{directory_lines, parameter_lines};
ghost use Rattle.iges_write.specs.CanonicalFile.{canonical_lines, canonical_text};

use crate::cards::{NUMBER_COLUMNS, TEXT_COLUMNS, end_card, push_cards, push_number};
use crate::entities::push_entities;
use iges_fields::lay;
use solid_base::{Bytes, Lines, Model, Token, Tokens};
use std::alloc::{AllocError, Global};

/// How many lines the sections of a file have.
#[derive(Clone, Copy)]
struct LineCounts {
    start: u32,
    global: u32,
    directory: u32,
    parameter: u32,
}

/// A delimiter as a parameter: a text of this byte.
fn delimiter_token(alloc: Global, delimiter: u8) -> Result<Token, AllocError>
    ensures { IfOk result (λ token. token ≡ Token.Text (delimiter ∷ [])) }
{
    Ok(Token::Text(Bytes::from_vec(Vec::from_slice(alloc, &[delimiter])?)))
}

fn push_token(tokens: &mut Tokens, token: &Token) -> Result<(), AllocError>
    ensures { OnOk result (tokens.new ≡ tokens.old ++ token.now ∷ []) }
{
    tokens.push(token.clone()?)
}

fn push_tokens(tokens: &mut Tokens, more: &[Token]) -> Result<(), AllocError>
    ensures { OnOk result (tokens.new ≡ tokens.old ++ more.now) }
{
    for token in more {
        push_token(tokens, token)?;
    }
    Ok(())
}

/// The parameters of the global section: the two delimiters as texts, and the others.
fn global_tokens(alloc: Global, model: &Model) -> Result<Tokens, AllocError>
    ensures { IfOk result (λ tokens. tokens ≡ Token.Text (model.now.comma ∷ [])
        ∷ Token.Text (model.now.semi ∷ []) ∷ model.now.global) }
{
    let mut tokens = Tokens::new(alloc);
    tokens.push(delimiter_token(alloc, model.comma)?)?;
    tokens.push(delimiter_token(alloc, model.semi)?)?;
    push_tokens(&mut tokens, model.global.as_slice())?;
    Ok(tokens)
}

/// The lines of the global section.
fn lay_global(alloc: Global, model: &Model) -> Result<Lines, AllocError>
    requires { IsAccepted model.now }
    ensures { IfOk result (λ lines. lines ≡ global_lines model.now) }
{
    let tokens = global_tokens(alloc, model)?;
    lay(alloc, &tokens, model.comma, model.semi, TEXT_COLUMNS)
}

/// Writes a group of the terminate line: a section's letter, and the number of its last line.
fn push_group(out: &mut Bytes, letter: u8, count: u32) -> Result<(), AllocError>
    ensures ok { OnOk result (out.new ≡ out.old ++ group letter count) }
    ensures front { IsPrefix out.old out.new }
{
    out.push(letter)?;
    push_number::<NUMBER_COLUMNS>(out, count)
}

/// Writes the groups of the terminate line.
#[tactic(auto, unfolding(crate::specs::CanonicalFile::groups))]
fn push_groups(out: &mut Bytes, counts: LineCounts) -> Result<(), AllocError>
    ensures ok { OnOk result (out.new ≡ out.old
        ++ groups counts.start counts.global counts.directory counts.parameter) }
    ensures front { IsPrefix out.old out.new }
{
    push_group(out, b'S', counts.start)?;
    push_group(out, b'G', counts.global)?;
    push_group(out, b'D', counts.directory)?;
    push_group(out, b'P', counts.parameter)
}

/// Writes the terminate line.
fn push_terminate(out: &mut Bytes, counts: LineCounts) -> Result<(), AllocError>
    ensures ok { OnOk result (out.new ≡ out.old ++ card 84 1
        (groups counts.start counts.global counts.directory counts.parameter)) }
    ensures front { IsPrefix out.old out.new }
{
    let start = out.len();
    push_groups(out, counts)?;
    end_card(out, start, b'T', 1)
}

/// Writes the sections of a model's file, and gives how many lines each has.
fn push_sections(alloc: Global, text: &mut Bytes, model: &Model) -> Result<LineCounts, AllocError>
    requires { IsAccepted model.now }
    ensures text { OnOk result (text.new ≡ (((text.old
        ++ concat (cards 83 1 model.now.start)) ++ concat (cards 71 1 (global_lines model.now)))
        ++ concat (cards 68 1 (directory_lines model.now)))
        ++ concat (cards 80 1 (parameter_lines model.now))) }
    ensures front { IsPrefix text.old text.new }
    ensures counts { IfOk result (λ counts. counts ≡ record {
      start = length model.now.start;
      global = length (global_lines model.now);
      directory = length (directory_lines model.now);
      parameter = length (parameter_lines model.now);
    }) }
    ensures few { IfOk result (λ counts.
        counts.start + counts.global + counts.directory + counts.parameter < 2 ^ 31) }
{
    let globals = lay_global(alloc, model)?;
    let mut params = Bytes::new(alloc);
    push_cards(text, b'S', model.start.as_slice())?;
    push_cards(text, b'G', globals.as_slice())?;
    let parameter = push_entities(alloc, text, &mut params, model)?;
    text.extend_from_slice(params.as_slice())?;
    Ok(LineCounts {
        start: model.start.len() as u32,
        global: globals.len() as u32,
        directory: 2 * model.rows.len() as u32,
        parameter,
    })
}

/// Writes the file of a model that is served after a text, and gives how many lines it has.
fn push_file(alloc: Global, text: &mut Bytes, model: &Model) -> Result<u32, AllocError>
    requires { IsAccepted model.now }
    ensures text { OnOk result (text.new ≡ text.old ++ canonical_text model.now) }
    ensures front { IsPrefix text.old text.new }
    ensures lines { IfOk result (λ lines. lines ≡ length (canonical_lines model.now)) }
{
    let counts = push_sections(alloc, text, model)?;
    push_terminate(text, counts)?;
    Ok(counts.start + counts.global + counts.directory + counts.parameter + 1)
}

/// Writes the file of a model that is served after a text, in solidd's own layout of the fixed form
/// (IGES 5.3, 2.2.4), and gives how many lines it has.
///
/// Each line has 80 columns and ends with LF. The start lines come first, as they were; then the
/// global parameters, of which the first two are the delimiters; two directory lines an entity,
/// with the fields that are kept unread in their places; the parameter lines; and the terminate
/// line. AllocError when out of memory; the text is then unchanged.
pub fn append_model(alloc: Global, out: &mut Bytes, model: &Model) -> Result<u32, AllocError>
    requires { IsAccepted model.now }
    ensures written { OnOk result (out.new ≡ out.old ++ canonical_text model.now) }
    ensures lines { IfOk result (λ lines. lines ≡ length (canonical_lines model.now)) }
    ensures unchanged { OnErr result (out.new ≡ out.old) }
{
    let start = out.len();
    match push_file(alloc, out, model) {
        Ok(lines) => Ok(lines),
        Err(fault) => {
            out.truncate(start);
            Err(fault)
        }
    }
}

/// The file of a model that is served, as `append_model` writes it. AllocError when out of memory.
pub fn write_model(alloc: Global, model: &Model) -> Result<Bytes, AllocError>
    requires { IsAccepted model.now }
    ensures written { IfOk result (λ text. text ≡ canonical_text model.now) }
{
    let mut text = Bytes::new(alloc);
    append_model(alloc, &mut text, model)?;
    Ok(text)
}

/// How many lines the file of a model has that is served, whose records take so many. AllocError
/// when out of memory.
pub fn file_lines(alloc: Global, model: &Model, records: u64) -> Result<u32, AllocError>
    requires accepted { IsAccepted model.now }
    requires records { records ≡ lines_of model.now.comma model.now.semi model.now.rows }
    ensures { IfOk result (λ lines. lines ≡ length (canonical_lines model.now)) }
{
    let globals = lay_global(alloc, model)?;
    let directory = 2 * model.rows.len() as u32;
    Ok(model.start.len() as u32 + globals.len() as u32 + directory + records as u32 + 1)
}
