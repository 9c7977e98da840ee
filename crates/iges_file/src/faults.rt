ghost use Rattle.std.specs.Prelude.{◌≡◌, IfOk};
ghost use Rattle.iges_file.specs.Faults.{IsOfText, fault_number, fault_words};

use entity_graph::GraphFault;
use iges_cards::CardFault;
use iges_directory::{DirFault, GlobalFault};
use iges_parameters::RowFault;
use solid_base::{Bytes, word, word_and_number};
use std::alloc::{AllocError, Global};
use thiserror::Error;

/// Why bytes are no file that is read.
#[derive(Clone, Copy, Debug, PartialEq, Eq, Error)]
pub enum FileFault {
    /// Out of memory.
    #[error("out of memory")]
    Memory(AllocError),
    /// The lines aren't in the fixed form.
    #[error("the lines aren't in the fixed form")]
    Card(CardFault),
    /// The global section is faulty.
    #[error("the global section is faulty")]
    Global(GlobalFault),
    /// The directory is faulty.
    #[error("the directory is faulty")]
    Directory(DirFault),
    /// The record of the entity with this number is faulty.
    #[error("the record of entity {0} is faulty")]
    BadRow(u32, RowFault),
    /// The records would take more than 300,000 lines.
    #[error("the records take too many lines")]
    TooManyLines,
    /// The references between entities are faulty.
    #[error("the references between entities are faulty")]
    Graph(GraphFault),
}

impl From<AllocError> for FileFault {
    ghost use Rattle.iges_file.specs.declared.faults.FileFault.TheVariants.{Memory};

    ghost from_gives = { λ e fault. fault ≡ Memory e };

    fn from(e: AllocError) -> FileFault {
        FileFault::Memory(e)
    }
}

impl From<CardFault> for FileFault {
    ghost use Rattle.iges_file.specs.Faults.{of_card};

    ghost from_gives = { λ f fault. fault ≡ of_card f };

    fn from(f: CardFault) -> FileFault {
        match f {
            CardFault::Memory(e) => FileFault::Memory(e),
            other => FileFault::Card(other),
        }
    }
}

impl From<GlobalFault> for FileFault {
    ghost use Rattle.iges_file.specs.Faults.{of_global};

    ghost from_gives = { λ f fault. fault ≡ of_global f };

    fn from(f: GlobalFault) -> FileFault {
        match f {
            GlobalFault::Memory(e) => FileFault::Memory(e),
            other => FileFault::Global(other),
        }
    }
}

impl From<DirFault> for FileFault {
    ghost use Rattle.iges_file.specs.Faults.{of_directory};

    ghost from_gives = { λ f fault. fault ≡ of_directory f };

    fn from(f: DirFault) -> FileFault {
        match f {
            DirFault::Memory(e) => FileFault::Memory(e),
            other => FileFault::Directory(other),
        }
    }
}

impl From<GraphFault> for FileFault {
    ghost use Rattle.iges_file.specs.Faults.{of_graph};

    ghost from_gives = { λ f fault. fault ≡ of_graph f };

    fn from(f: GraphFault) -> FileFault {
        match f {
            GraphFault::Memory(e) => FileFault::Memory(e),
            other => FileFault::Graph(other),
        }
    }
}

fn bad_row(alloc: Global, entity: u32, fault: &RowFault) -> Result<Bytes, AllocError>
    requires { IsOfText (FileFault.BadRow entity fault.now) }
    ensures { IfOk result (λ words. words ≡ fault_words (FileFault.BadRow entity fault.now)) }
{
    let mut words = word_and_number(alloc, b"BadRow ", entity)?;
    words.extend_from_slice(b" ")?;
    words.extend_from_slice(fault.write_fault(alloc)?.as_slice())?;
    Ok(words)
}

impl FileFault {
    /// The number of the fault: that of the nested fault, 20 of a row's and 21 of too many lines.
    pub fn number(&self) -> u32
        ensures { result ≡ fault_number self.now }
    {
        match self {
            FileFault::Memory(_) => 1,
            FileFault::Card(fault) => fault.number(),
            FileFault::Global(fault) => fault.number(),
            FileFault::Directory(fault) => fault.number(),
            FileFault::BadRow(_, _) => 20,
            FileFault::TooManyLines => 21,
            FileFault::Graph(fault) => fault.number(),
        }
    }

    /// The fault as it is printed: the words of the nested fault; of a row's the number of its
    /// entity first. AllocError when out of memory. Out of memory itself is never printed.
    pub fn write_fault(&self, alloc: Global) -> Result<Bytes, AllocError>
        requires { IsOfText self.now }
        ensures { IfOk result (λ words. words ≡ fault_words self.now) }
    {
        match self {
            FileFault::Memory(_) => Ok(Bytes::new(alloc)),
            FileFault::Card(fault) => fault.write_fault(alloc),
            FileFault::Global(fault) => fault.write_fault(alloc),
            FileFault::Directory(fault) => fault.write_fault(alloc),
            FileFault::BadRow(entity, fault) => bad_row(alloc, *entity, fault),
            FileFault::TooManyLines => word(alloc, b"TooManyLines"),
            FileFault::Graph(fault) => fault.write_fault(alloc),
        }
    }
}
