ghost use Rattle.std.specs.Prelude.{◌≡◌, ◌<◌, ◌+◌, ◌-◌, ◌≤◌, ◌^◌, length, IfOk, IfSome};
ghost use Rattle.iges_fields.specs.Delimiters.{AreDelimiters};
ghost use Rattle.iges_fields.specs.Layout.{IsSpelt};
ghost use Rattle.solid_base.specs.Outcomes.{Gives};
ghost use Rattle.iges_parameters.specs.RecordFields.{token_of, fields_of, fields_left};
ghost use Rattle.iges_parameters.specs.Rules.{Place, Moves, token_at};
ghost use Rattle.iges_parameters.specs.Records.{IsMore};

use crate::faults::RowFault;
use iges_fields::{Field, FieldKind, Fields};
use std::marker::Model;

/// The parameters of a record that are still to be read, and the index of the next one.
#[derive(Debug, Drop)]
pub struct Parameters<'a> {
    fields: Fields<'a>,
    index: u32,
}

impl<'a> Model for Parameters<'a> {
    ghost use Rattle.iges_parameters.specs.RecordFields.{fields_left};
    ghost use Rattle.iges_parameters.specs.Rules.{Place};

    ghost Value = { Place };

    ghost view = { λ p. record { index = p.index; fields = fields_left p.fields } };
}

/// The next field, whose index this is, or None after the last field of the record.
fn more_fields<'a>(fields: &mut Fields<'a>, index: u32) -> Result<Option<Field<'a>>, RowFault>
    ensures more { IsMore (record { index = index; fields = fields_left fields.old })
        (record { index = index + 1; fields = fields_left fields.new }) result }
    ensures spelt { IfOk result (λ found. IfSome found (λ field.
        IsSpelt (token_of field.kind field.text.now))) }
{
    match fields.next() {
        Ok(Some(field)) => Ok(Some(field)),
        Ok(None) => Ok(None),
        Err(_) => Err(RowFault::Token(index)),
    }
}

/// The next field, whose index this is; after the last field of the record each is empty.
fn next_field<'a>(fields: &mut Fields<'a>, index: u32) -> Result<Field<'a>, RowFault>
    ensures value { Gives (λ field. (
      token_of field.kind field.text.now,
      record {
        index = index + 1;
        fields = fields_left fields.new;
      },
    ))
        result (token_at (record { index = index; fields = fields_left fields.old })) }
    ensures fewer { IfOk result (λ field.
        length (fields_left fields.new) ≤ length (fields_left fields.old)) }
    ensures spelt { IfOk result (λ field. IsSpelt (token_of field.kind field.text.now)) }
{
    match fields.next() {
        Ok(Some(field)) => Ok(field),
        Ok(None) => Ok(Field {
            kind: FieldKind::Empty,
            text: b"",
        }),
        Err(_) => Err(RowFault::Token(index)),
    }
}

impl<'a> Parameters<'a> {
    /// The fields of a record from the type's number on, which has index 0.
    pub fn new(text: &'a [u8], comma: u8, semi: u8) -> Parameters<'a>
        requires { AreDelimiters comma semi }
        ensures value { result ≡ record { index = 0; fields = fields_of comma semi text.now } }
        ensures few { length result.fields ≤ length text.now + 1 }
    {
        Parameters {
            fields: Fields::new(text, comma, semi),
            index: 0,
        }
    }

    /// The index of the next parameter.
    pub fn index(&self) -> u32
        ensures { result ≡ self.now.index }
    {
        self.index
    }

    /// The next field; after the last field of the record each is empty. Token where no field
    /// stands.
    pub fn token(&mut self) -> Result<Field<'a>, RowFault>
        requires { self.now.index < 2 ^ 32 - 1 }
        ensures value { Gives (λ field. (token_of field.kind field.text.now, self.new)) result
            (token_at self.old) }
        ensures moves { IfOk result (λ field. Moves 1 self.old self.new) }
        ensures spelt { IfOk result (λ field. IsSpelt (token_of field.kind field.text.now)) }
    {
        let field = next_field(&mut self.fields, self.index)?;
        self.index += 1;
        Ok(field)
    }

    /// The next field, or None after the last field of the record. Token where no field stands.
    pub fn more(&mut self) -> Result<Option<Field<'a>>, RowFault>
        requires { self.now.index < 2 ^ 32 - 1 }
        ensures more { IsMore self.old self.new result }
        ensures spelt { IfOk result (λ found. IfSome found (λ field.
            IsSpelt (token_of field.kind field.text.now))) }
    {
        let found = more_fields(&mut self.fields, self.index)?;
        self.index += 1;
        Ok(found)
    }
}
