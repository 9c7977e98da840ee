ghost use Rattle.std.specs.Prelude.{◌≡◌, IfOk};
ghost use Rattle.entity_graph.specs.GraphFaults.{IsOfText, fault_number, fault_words};

use solid_base::{Bytes, push_decimal, word_and_number};
use std::alloc::{AllocError, Global};
use thiserror::Error;

/// Why the references of a model break the rules. An entity is named by its number.
#[derive(Clone, Copy, Debug, PartialEq, Eq, Error)]
pub enum GraphFault {
    /// Out of memory.
    #[error("out of memory")]
    Memory(AllocError),
    /// The first entity names the second number, which no entity has, or a null one.
    #[error("entity {0} names {1}, which is no entity")]
    Dangling(u32, u32),
    /// The first entity names the second where a matrix is wanted and it is none, or the other way
    /// round.
    #[error("entity {0} names {1}, which isn't of the kind that is wanted")]
    WrongTarget(u32, u32),
    /// The entity reaches one that reaches itself.
    #[error("entity {0} leads to a cycle")]
    Cycle(u32),
    /// The entity has more than 64 levels.
    #[error("entity {0} has too many levels")]
    TooDeep(u32),
    /// The entity takes more than 2^20 evaluations of primitives.
    #[error("entity {0} is too heavy")]
    TooHeavy(u32),
}

impl From<AllocError> for GraphFault {
    ghost use Rattle.entity_graph.specs.declared.graph_faults.GraphFault.TheVariants.{Memory};

    ghost from_gives = { λ e fault. fault ≡ Memory e };

    fn from(e: AllocError) -> GraphFault {
        GraphFault::Memory(e)
    }
}

impl GraphFault {
    /// The number of the fault, from 1 to 6.
    pub fn number(&self) -> u32
        ensures { result ≡ fault_number self.now }
    {
        match self {
            GraphFault::Memory(_) => 1,
            GraphFault::Dangling(_, _) => 2,
            GraphFault::WrongTarget(_, _) => 3,
            GraphFault::Cycle(_) => 4,
            GraphFault::TooDeep(_) => 5,
            GraphFault::TooHeavy(_) => 6,
        }
    }

    /// The fault as it is printed: its name and its numbers. AllocError when out of memory. Out of
    /// memory itself is never printed.
    pub fn write_fault(&self, alloc: Global) -> Result<Bytes, AllocError>
        requires { IsOfText self.now }
        ensures { IfOk result (λ words. words ≡ fault_words self.now) }
    {
        match self {
            GraphFault::Memory(_) => Ok(Bytes::new(alloc)),
            GraphFault::Dangling(de, to) => {
                let mut words = word_and_number(alloc, b"Dangling ", *de)?;
                words.extend_from_slice(b" ")?;
                push_decimal(&mut words, *to)?;
                Ok(words)
            }
            GraphFault::WrongTarget(de, to) => {
                let mut words = word_and_number(alloc, b"WrongTarget ", *de)?;
                words.extend_from_slice(b" ")?;
                push_decimal(&mut words, *to)?;
                Ok(words)
            }
            GraphFault::Cycle(de) => word_and_number(alloc, b"Cycle ", *de),
            GraphFault::TooDeep(de) => word_and_number(alloc, b"TooDeep ", *de),
            GraphFault::TooHeavy(de) => word_and_number(alloc, b"TooHeavy ", *de),
        }
    }
}
