ghost use Rattle.std.specs.Prelude.{◌≡◌, ◌<◌, ◌+◌, ◌-◌, ◌^◌, [], ◌∷◌, ◌++◌, length, IfOk, OnOk};
ghost use Rattle.iges_fields.specs.Layout.{IsSpelt, AreSpelt};
ghost use Rattle.iges_parameters.specs.Faults.{GivesOrMemory};
ghost use Rattle.iges_parameters.specs.RecordFields.{token_of};
ghost use Rattle.iges_parameters.specs.Records.{tail_from};

use crate::faults::RowFault;
use crate::reading::parameters::Parameters;
use iges_fields::{Field, FieldKind};
use solid_base::{Bytes, Token, Tokens};
use std::alloc::{AllocError, Global};

/// A field as a token with bytes of its own.
fn token_of(alloc: Global, field: &Field) -> Result<Token, AllocError>
    ensures { IfOk result (λ token. token ≡ token_of field.now.kind field.now.text.now) }
{
    let token = match field.kind {
        FieldKind::Empty => Token::Empty,
        FieldKind::Whole => Token::Whole(Bytes::from_vec(Vec::from_slice(alloc, field.text)?)),
        FieldKind::Real => Token::Real(Bytes::from_vec(Vec::from_slice(alloc, field.text)?)),
        FieldKind::Text => Token::Text(Bytes::from_vec(Vec::from_slice(alloc, field.text)?)),
    };
    Ok(token)
}

fn push_field(alloc: Global, tokens: &mut Tokens, field: &Field) -> Result<(), AllocError>
    ensures { OnOk result (tokens.new
        ≡ tokens.old ++ token_of field.now.kind field.now.text.now ∷ []) }
{
    tokens.push(token_of(alloc, field)?)
}

/// The fields after the defined parameters, up to the end of the record.
pub fn read_tail(alloc: Global, parameters: &mut Parameters) -> Result<Tokens, RowFault>
    requires few { parameters.now.index + length parameters.now.fields < 2 ^ 32 - 1 }
    ensures value { GivesOrMemory (λ tail. tail) result
        (tail_from [] parameters.old.index parameters.old.fields) }
    ensures spelt { IfOk result AreSpelt }
{
    let mut tokens = Tokens::new(alloc);
    while let Some(field) = parameters.more()? {
        push_field(alloc, &mut tokens, &field)?;
    }
    Ok(tokens)
}
