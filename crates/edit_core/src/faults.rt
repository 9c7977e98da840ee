ghost use Rattle.std.specs.Prelude.{◌≡◌, ◌++◌, codes, decimal, IfOk};
ghost use Rattle.edit_core.specs.EditFaults.{IsOfText, fault_number, fault_words};

use entity_graph::GraphFault;
use iges_parameters::RowFault;
use solid_base::{Bytes, push_decimal, word, word_and_number};
use std::alloc::{AllocError, Global};
use thiserror::Error;

/// Why an edit is refused. An entity is named by its number.
#[derive(Clone, Copy, Debug, PartialEq, Eq, Error)]
pub enum EditFault {
    /// Out of memory.
    #[error("out of memory")]
    Memory(AllocError),
    /// The batch has no change.
    #[error("the batch has no change")]
    EmptyBatch,
    /// The version is the last one that there may be.
    #[error("there are as many versions as there may be")]
    Full,
    /// A number is to be replaced or dropped that no entity has, or a null one.
    #[error("{0} is no entity")]
    NoEntity(u32),
    /// An entity is to be added where one stands that isn't null.
    #[error("entity {0} stands there already")]
    Taken(u32),
    /// An entity is to be added with an even number, or with one above 199,999.
    #[error("{0} is no number for an entity")]
    BadNumber(u32),
    /// The record for the number is faulty.
    #[error("the record for entity {0} is faulty")]
    BadRecord(u32, RowFault),
    /// The first number is to be dropped, and the second is the least that still names it.
    #[error("entity {0} is named by entity {1}")]
    InUse(u32, u32),
    /// The first entity names the second number, which no entity has, or a null one.
    #[error("entity {0} names {1}, which is no entity")]
    Dangling(u32, u32),
    /// The first entity names the second where a matrix is wanted and it is none, or the other way
    /// round.
    #[error("entity {0} names {1}, which isn't of the kind that is wanted")]
    WrongTarget(u32, u32),
    /// The entity reaches one that reaches itself.
    #[error("entity {0} leads to a cycle")]
    Cycle(u32),
    /// The entity has more than 64 levels.
    #[error("entity {0} has too many levels")]
    TooDeep(u32),
    /// The entity takes more than 2^20 evaluations of primitives.
    #[error("entity {0} is too heavy")]
    TooHeavy(u32),
    /// The records would take more than 300,000 lines.
    #[error("the records take too many lines")]
    TooManyLines,
}

impl From<AllocError> for EditFault {
    ghost use Rattle.edit_core.specs.declared.faults.EditFault.TheVariants.{Memory};

    ghost from_gives = { λ e fault. fault ≡ Memory e };

    fn from(e: AllocError) -> EditFault {
        EditFault::Memory(e)
    }
}

impl From<GraphFault> for EditFault {
    ghost use Rattle.edit_core.specs.EditFaults.{of_graph};

    ghost from_gives = { λ f fault. fault ≡ of_graph f };

    fn from(f: GraphFault) -> EditFault {
        match f {
            GraphFault::Memory(e) => EditFault::Memory(e),
            GraphFault::Dangling(de, to) => EditFault::Dangling(de, to),
            GraphFault::WrongTarget(de, to) => EditFault::WrongTarget(de, to),
            GraphFault::Cycle(de) => EditFault::Cycle(de),
            GraphFault::TooDeep(de) => EditFault::TooDeep(de),
            GraphFault::TooHeavy(de) => EditFault::TooHeavy(de),
        }
    }
}

/// A name and two numbers, blanks between them.
fn word_and_numbers(
    alloc: Global,
    text: &[u8],
    first: u32,
    second: u32,
) -> Result<Bytes, AllocError>
    ensures { IfOk result (λ words.
        words ≡ (text.now ++ decimal first) ++ codes " " ++ decimal second) }
{
    let mut words = word_and_number(alloc, text, first)?;
    words.extend_from_slice(b" ")?;
    push_decimal(&mut words, second)?;
    Ok(words)
}

fn bad_record(alloc: Global, entity: u32, fault: &RowFault) -> Result<Bytes, AllocError>
    requires { IsOfText (EditFault.BadRecord entity fault.now) }
    ensures { IfOk result (λ words. words ≡ fault_words (EditFault.BadRecord entity fault.now)) }
{
    let mut words = word_and_number(alloc, b"BadRecord ", entity)?;
    words.extend_from_slice(b" ")?;
    words.extend_from_slice(fault.write_fault(alloc)?.as_slice())?;
    Ok(words)
}

impl EditFault {
    /// The number of the fault, from 1 to 14.
    pub fn number(&self) -> u32
        ensures { result ≡ fault_number self.now }
    {
        match self {
            EditFault::Memory(_) => 1,
            EditFault::EmptyBatch => 2,
            EditFault::Full => 3,
            EditFault::NoEntity(_) => 4,
            EditFault::Taken(_) => 5,
            EditFault::BadNumber(_) => 6,
            EditFault::BadRecord(_, _) => 7,
            EditFault::InUse(_, _) => 8,
            EditFault::Dangling(_, _) => 9,
            EditFault::WrongTarget(_, _) => 10,
            EditFault::Cycle(_) => 11,
            EditFault::TooDeep(_) => 12,
            EditFault::TooHeavy(_) => 13,
            EditFault::TooManyLines => 14,
        }
    }

    /// The fault as it is printed: its name and its numbers, and after them the fault of a record.
    /// AllocError when out of memory. Out of memory itself is never printed.
    pub fn write_fault(&self, alloc: Global) -> Result<Bytes, AllocError>
        requires { IsOfText self.now }
        ensures { IfOk result (λ words. words ≡ fault_words self.now) }
    {
        match self {
            EditFault::Memory(_) => Ok(Bytes::new(alloc)),
            EditFault::EmptyBatch => word(alloc, b"EmptyBatch"),
            EditFault::Full => word(alloc, b"Full"),
            EditFault::NoEntity(de) => word_and_number(alloc, b"NoEntity ", *de),
            EditFault::Taken(de) => word_and_number(alloc, b"Taken ", *de),
            EditFault::BadNumber(de) => word_and_number(alloc, b"BadNumber ", *de),
            EditFault::BadRecord(de, fault) => bad_record(alloc, *de, fault),
            EditFault::InUse(de, by) => word_and_numbers(alloc, b"InUse ", *de, *by),
            EditFault::Dangling(de, to) => word_and_numbers(alloc, b"Dangling ", *de, *to),
            EditFault::WrongTarget(de, to) => word_and_numbers(alloc, b"WrongTarget ", *de, *to),
            EditFault::Cycle(de) => word_and_number(alloc, b"Cycle ", *de),
            EditFault::TooDeep(de) => word_and_number(alloc, b"TooDeep ", *de),
            EditFault::TooHeavy(de) => word_and_number(alloc, b"TooHeavy ", *de),
            EditFault::TooManyLines => word(alloc, b"TooManyLines"),
        }
    }
}

#[cfg(test)]
mod tests {
    use super::*;

    #[test]
    fn prints_names_and_numbers(rt: HostRuntime) -> Result<(), AllocError> {
        let alloc = rt.alloc();
        let wanted: [(EditFault, u32, &[u8]); 13] = [
            (EditFault::EmptyBatch, 2, b"EmptyBatch"),
            (EditFault::Full, 3, b"Full"),
            (EditFault::NoEntity(15), 4, b"NoEntity 15"),
            (EditFault::Taken(1), 5, b"Taken 1"),
            (EditFault::BadNumber(200_001), 6, b"BadNumber 200001"),
            (
                EditFault::BadRecord(3, RowFault::BadSize(1)),
                7,
                b"BadRecord 3 BadSize 1",
            ),
            (EditFault::InUse(1, 5), 8, b"InUse 1 5"),
            (EditFault::Dangling(5, 15), 9, b"Dangling 5 15"),
            (EditFault::WrongTarget(5, 7), 10, b"WrongTarget 5 7"),
            (EditFault::Cycle(5), 11, b"Cycle 5"),
            (EditFault::TooDeep(129), 12, b"TooDeep 129"),
            (EditFault::TooHeavy(43), 13, b"TooHeavy 43"),
            (EditFault::TooManyLines, 14, b"TooManyLines"),
        ];
        for (fault, number, words) in wanted {
            assert_eq!(rt; fault.number(), number);
            assert_eq!(rt; fault.write_fault(alloc)?.as_slice(), words);
        }
        Ok(())
    }
}
