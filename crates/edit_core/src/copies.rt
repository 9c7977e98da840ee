ghost use Rattle.std.specs.Prelude.{◌≡◌, IfOk};

use solid_base::{Bytes, Lines, Token, Tokens};
use std::alloc::{AllocError, Global};

/// The same line.
fn copied_line(line: &Bytes) -> Result<Bytes, AllocError>
    ensures { IfOk result (λ copy. copy ≡ line.now) }
{
    line.clone()
}

/// The same lines.
pub fn copied_lines(alloc: Global, lines: &Lines) -> Result<Lines, AllocError>
    ensures { IfOk result (λ copy. copy ≡ lines.now) }
{
    let mut copy = Lines::new(alloc);
    for line in lines.as_slice() {
        copy.push(copied_line(line)?)?;
    }
    Ok(copy)
}

/// The same field.
fn copied_token(token: &Token) -> Result<Token, AllocError>
    ensures { IfOk result (λ copy. copy ≡ token.now) }
{
    match token {
        Token::Empty => Ok(Token::Empty),
        Token::Whole(text) => Ok(Token::Whole(text.clone()?)),
        Token::Real(text) => Ok(Token::Real(text.clone()?)),
        Token::Text(text) => Ok(Token::Text(text.clone()?)),
    }
}

/// The same fields.
pub fn copied_tokens(alloc: Global, tokens: &Tokens) -> Result<Tokens, AllocError>
    ensures { IfOk result (λ copy. copy ≡ tokens.now) }
{
    let mut copy = Tokens::new(alloc);
    for token in tokens.as_slice() {
        copy.push(copied_token(token)?)?;
    }
    Ok(copy)
}
