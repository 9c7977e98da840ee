ghost use Rattle.std.specs.Prelude.{◌≡◌, ◌↔◌, ◌<◌, ◌≤◌, ◌*◌, ◌^◌, ◌++◌, ℕ, List, length};
ghost use Rattle.solid_base.specs.Texts.{IsOneLine};
ghost use Rattle.solid_base.specs.declared.entities.Token.{Token};
ghost use Rattle.iges_fields.specs.Delimiters.{AreDelimiters};
ghost use Rattle.iges_fields.specs.Grammar.{IsField, RunsPast, IsOpen, IsNoField};
ghost use Rattle.iges_fields.specs.Layout.{laid, AreSpelt, AreHeld, AreOneLine, Reads, AreFields};
ghost use Rattle.iges_fields.specs.Layout.{spelt_size};
ghost use Rattle.iges_fields.specs.Reading.{Reading, field_at};

use crate::faults::FieldFault;

/// A field is read exactly where the text begins with one. So a text begins with one field at most.
pub fn reads_what_is_spelt()
    ensures { (comma semi : ℕ) (text : List ℕ) (field : Reading) → AreDelimiters comma semi →
        (field_at comma semi text ≡ Ok field) ↔ IsField comma semi text field }
{}

/// BadText comes exactly where the count of a text runs past the end.
pub fn refuses_a_long_count()
    ensures { (comma semi : ℕ) (text : List ℕ) →
        (field_at comma semi text ≡ Err FieldFault.BadText) ↔ RunsPast text }
{}

/// NoEnd comes exactly where the whole text is a field with no delimiter after it.
pub fn refuses_an_open_field()
    ensures { (comma semi : ℕ) (text : List ℕ) → AreDelimiters comma semi →
        (field_at comma semi text ≡ Err FieldFault.NoEnd) ↔ IsOpen text }
{}

/// BadToken comes exactly where what the text begins with is none of these.
pub fn refuses_what_is_no_field()
    ensures { (comma semi : ℕ) (text : List ℕ) → AreDelimiters comma semi →
        (field_at comma semi text ≡ Err FieldFault.BadToken) ↔ IsNoField comma semi text }
{}

/// Whatever stands after them, tokens that are laid read back as the same tokens.
pub fn laid_tokens_read_back()
    ensures { (width comma semi : ℕ) (tokens : List Token) (after : List ℕ) → 0 < length tokens →
        AreDelimiters comma semi → AreSpelt tokens → AreHeld tokens →
        Reads comma semi (laid width comma semi 0 tokens ++ after) tokens }
{}

/// In lines of any width tokens take at most twice as many bytes as they are spelt with, each with
/// a delimiter after it: the blanks before a token are fewer than its own bytes.
pub fn laid_tokens_take_twice_their_room()
    ensures { (width comma semi : ℕ) (tokens : List Token) →
        length (laid width comma semi 0 tokens) ≤ 2 * spelt_size tokens }
{}

/// The tokens of a text are spelt with no more bytes than the text has, each with a delimiter after
/// it.
pub fn tokens_are_no_longer_than_their_text()
    ensures { (comma semi : ℕ) (text : List ℕ) (tokens : List Token) → length text < 2 ^ 64 →
        AreFields comma semi text tokens → spelt_size tokens ≤ length text }
{}

/// The whole and real tokens of a text are spelt as such.
pub fn tokens_of_a_text_are_spelt()
    ensures { (comma semi : ℕ) (text : List ℕ) (tokens : List Token) →
        AreFields comma semi text tokens → AreSpelt tokens }
{}

/// Where no line feed stands in a text, none stands in its tokens.
pub fn tokens_of_one_line_are_of_one_line()
    ensures { (comma semi : ℕ) (text : List ℕ) (tokens : List Token) → IsOneLine text →
        AreFields comma semi text tokens → AreOneLine tokens }
{}
