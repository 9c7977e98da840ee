ghost use Rattle.std.specs.Prelude.{◌≡◌, ◌≤◌, ◌++◌, [], ◌∷◌, List, OnOk, unsigned_abs};
ghost use Rattle.solid_base.specs.declared.entities.Token.{Token as token};
ghost use Rattle.solid_base.specs.Range.{far};
ghost use Rattle.iges_parameters.specs.Writing.{whole, real};

use solid_base::Token;

/// What the tokens of a record go into, one after the other: it lays them out in lines, or
/// measures them.
pub trait TokenSink {
    /// Why a token can't be taken.
    type Error;

    /// What it is after these tokens.
    ghost with: { Self → List token → Self };

    /// Takes a whole number.
    fn push_whole(&mut self, number: i64) -> Result<(), Self::Error>
        ensures { OnOk result (self.new ≡ with self.old (whole number ∷ [])) };

    /// Takes a real number of steps.
    fn push_real(&mut self, steps: i128) -> Result<(), Self::Error>
        requires { unsigned_abs steps ≤ far }
        ensures { OnOk result (self.new ≡ with self.old (real steps ∷ [])) };

    /// Takes a token as it is.
    fn push_token(&mut self, token: &Token) -> Result<(), Self::Error>
        ensures { OnOk result (self.new ≡ with self.old (token.now ∷ [])) };

    ghost with_none: { (sink : Self) → with sink [] ≡ sink };

    ghost with_more: { (sink : Self) (tokens more : List token) →
        with (with sink tokens) more ≡ with sink (tokens ++ more) };
}
