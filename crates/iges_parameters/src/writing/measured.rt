ghost use Rattle.std.specs.Prelude.{◌≡◌, ◌+◌, ◌-◌, ◌≤◌, ◌<◌, List, OnOk, IfOk, length, min};
ghost use Rattle.solid_base.specs.declared.entities.Token.{Token as token};
ghost use Rattle.iges_fields.specs.Layout.{spelling_of_token};
ghost use Rattle.iges_parameters.specs.Writing.{integer_text};
ghost use Rattle.iges_parameters.specs.WrittenRows.{used_after, room_up_to_most, most_counted};

use crate::writing::RECORD_COLUMNS;
use crate::writing::tokens::TokenSink;
use decimal_scale::real_length;
use iges_fields::gap;
use itoa::Buffer;
use solid_base::Token;
use std::convert::Infallible;

/// How many bytes tokens take in lines of 64 columns, each with a delimiter after it. The count
/// stands still at its type's end. It takes no memory.
#[derive(Clone, Copy)]
pub struct Measure {
    pub used: u64,
}

impl TokenSink for Measure {
    ghost use Rattle.std.proofs.Common.{ap};
    ghost use Rattle.iges_parameters.specs.WrittenRows.{counted_none, counted_more};

    type Error = Infallible;

    ghost with = { λ measure tokens. record { used = room_up_to_most measure.used tokens } };

    ghost with_none = { λ measure. ap (λ n. record { used = n }) (counted_none measure.used) };

    ghost with_more = { λ measure tokens more.
        ap (λ n. record { used = n }) (counted_more measure.used tokens more) };

    #[tactic(auto, unfolding(crate::specs::WrittenRows::room_up_to_most))]
    fn push_whole(&mut self, number: i64) -> Result<(), Infallible> {
        self.used = used_after(self.used, whole_length(number));
        Ok(())
    }

    #[tactic(auto, unfolding(crate::specs::WrittenRows::room_up_to_most))]
    fn push_real(&mut self, steps: i128) -> Result<(), Infallible> {
        self.used = used_after(self.used, real_length(steps, 12) as u64);
        Ok(())
    }

    #[tactic(auto, unfolding(crate::specs::WrittenRows::room_up_to_most))]
    fn push_token(&mut self, token: &Token) -> Result<(), Infallible> {
        self.used = used_after(self.used, spelling_length(token));
        Ok(())
    }
}

/// How many bytes are used after a token of so many and its delimiter.
fn used_after(used: u64, length: u64) -> u64
    ensures { result ≡ min (used_after used (length + 1)) most_counted }
{
    let size = length.saturating_add(1);
    used.saturating_add(gap(RECORD_COLUMNS as u64, used, size))
        .saturating_add(size)
}

/// How many bytes a whole number has in decimal, with a minus where it is below 0.
fn whole_length(number: i64) -> u64
    ensures { result ≡ length (integer_text number) }
{
    let mut buffer = Buffer::new();
    buffer.format(number).len() as u64
}

/// How many bytes a token's spelling has.
fn spelling_length(token: &Token) -> u64
    ensures { result ≡ min (length (spelling_of_token token.now)) most_counted }
{
    match token {
        Token::Empty => 0,
        Token::Whole(text) | Token::Real(text) => text.len() as u64,
        Token::Text(text) => {
            let mut buffer = Buffer::new();
            let count = buffer.format(text.len()).len() as u64;
            (text.len() as u64).saturating_add(count + 1)
        }
    }
}
