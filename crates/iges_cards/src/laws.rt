ghost use Rattle.std.specs.Prelude.{◌≡◌, ◌↔◌, ℕ, List, Ok, Err};
ghost use Rattle.iges_cards.specs.declared.faults.CardFault.{CardFault};
ghost use Rattle.iges_cards.specs.declared.reader.Cards.{Cards};
ghost use Rattle.iges_cards.specs.FirstFault.{IsCardFault};
ghost use Rattle.iges_cards.specs.Grammar.{IsFixedForm};
ghost use Rattle.iges_cards.specs.Kept.{AreKept};
ghost use Rattle.iges_cards.specs.Reading.{cards_in};
ghost use Rattle.iges_cards.specs.Words.{IsOfText};

/// A law on all bytes: they are a file in the fixed form, with one reading, or they have a first
/// fault, and never both. The reading function gives exactly the files of the grammar.
pub fn one_reading()
    ensures read { (bytes : List ℕ) (cards : Cards) →
        IsFixedForm bytes cards ↔ (cards_in bytes ≡ Ok cards) }
    ensures once { (bytes : List ℕ) (a b : Cards) → IsFixedForm bytes a → IsFixedForm bytes b →
        a ≡ b }
    ensures refused { (bytes : List ℕ) (fault : CardFault) → IsCardFault bytes fault →
        IsOfText fault × ((cards : Cards) → IsFixedForm bytes cards → ⊥) }
    ensures faulty { (bytes : List ℕ) → ((cards : Cards) → IsFixedForm bytes cards → ⊥) →
        (fault : CardFault) × IsCardFault bytes fault }
{}

/// A law on all bytes: they have at most one first fault, which is the one that the reading
/// function gives. So each fault names its cause: the first line with a defect, and the first
/// defect of that line; or the end of the bytes.
pub fn one_fault()
    ensures read { (bytes : List ℕ) (fault : CardFault) →
        IsCardFault bytes fault ↔ (cards_in bytes ≡ Err fault) }
    ensures once { (bytes : List ℕ) (a b : CardFault) → IsCardFault bytes a →
        IsCardFault bytes b → a ≡ b }
{}

/// A law on all files in the fixed form: of 1 to 9,999,999 start lines 72 columns are kept, of
/// directory lines 80 and of parameter lines 64, and no kept text has a line feed.
pub fn kept_lines()
    ensures { (bytes : List ℕ) (cards : Cards) → IsFixedForm bytes cards → AreKept cards }
{}
