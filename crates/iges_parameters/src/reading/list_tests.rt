ghost use Rattle.std.specs.Prelude.{◌≡◌, IfOk};

use crate::faults::RowFault;
use crate::reading::assemblies::assembly;
use crate::reading::parameters::Parameters;
use crate::reading::trees::tree;
use solid_base::{Bytes, Item, push_decimal};
use std::alloc::Global;
use std::test::Fail;

/// The fields of a record after the type's number.
fn parameters_of(text: &[u8]) -> Result<Parameters, RowFault>
    ensures { IfOk result (λ parameters. parameters.index ≡ 1) }
{
    let mut parameters = Parameters::new(text, b',', b';');
    parameters.token()?;
    Ok(parameters)
}

/// The words of a fault. Out of memory is an error of the test.
fn fault_words(alloc: Global, fault: RowFault) -> Result<Bytes, Fail> {
    if fault.number() == 1 {
        return Err(Fail::from(fault));
    }
    Ok(fault.write_fault(alloc)?)
}

/// The items of a tree, `+`, `*` and `-` for the operations, and after a bar the index of the next
/// parameter; or the words of the fault.
fn tree_words(alloc: Global, text: &[u8]) -> Result<Bytes, Fail> {
    let mut parameters = parameters_of(text)?;
    let items = match tree(alloc, &mut parameters) {
        Ok(items) => items,
        Err(fault) => return fault_words(alloc, fault),
    };
    let mut words = Bytes::new(alloc);
    for item in items.as_slice() {
        match item {
            Item::Operand(entity) => push_decimal(&mut words, *entity)?,
            Item::Join => words.push(b'+')?,
            Item::Meet => words.push(b'*')?,
            Item::Less => words.push(b'-')?,
        }
        words.push(b' ')?;
    }
    words.push(b'|')?;
    push_decimal(&mut words, parameters.index())?;
    Ok(words)
}

/// The items of an assembly, each with its matrix, and after a bar the index of the next parameter;
/// or the words of the fault.
fn assembly_words(alloc: Global, text: &[u8]) -> Result<Bytes, Fail> {
    let mut parameters = parameters_of(text)?;
    let items = match assembly(alloc, &mut parameters) {
        Ok(items) => items,
        Err(fault) => return fault_words(alloc, fault),
    };
    let mut words = Bytes::new(alloc);
    for placed in items.as_slice() {
        push_decimal(&mut words, placed.item)?;
        words.push(b'/')?;
        push_decimal(&mut words, placed.matrix)?;
        words.push(b' ')?;
    }
    words.push(b'|')?;
    push_decimal(&mut words, parameters.index())?;
    Ok(words)
}

#[test]
fn reads_trees(rt: HostRuntime) -> Result<(), Fail> {
    for (text, want) in [
        ("180,1,-1;", "1 |3"),
        ("180,3,-1,-3,1,7,;", "1 3 + |5"),
        ("180,+5,-9999999,-3,+2,-007,3;", "9999999 3 * 7 - |7"),
        ("180,5,-1,-3,-5,3,2;", "1 3 5 - * |7"),
        ("180;", "Missing 1"),
        ("180,,-1;", "Missing 1"),
        ("180,1.,-1;", "WrongKind 1"),
        ("180,1H1,-1;", "WrongKind 1"),
        ("180,0;", "BadSize 1"),
        ("180,-1,-1;", "BadSize 1"),
        ("180,10000000;", "TooFar 1"),
        ("180,x;", "Token 1"),
        ("180,2,-1;", "Missing 3"),
        ("180,2,-1,,1;", "Missing 3"),
        ("180,1,-2.5;", "WrongKind 2"),
        ("180,1,-10000000;", "TooFar 2"),
        (
            "180,3,-1,-3,99999999999999999999999999999999999999999;",
            "TooFar 4",
        ),
        ("180,1,0;", "BadPostfix 2"),
        ("180,3,-1,-3,0;", "BadPostfix 4"),
        ("180,3,-1,-3,4;", "BadPostfix 4"),
        ("180,2,-1,1;", "BadPostfix 3"),
        ("180,5,-1,-3,1,2,x;", "BadPostfix 5"),
        ("180,6,-1,-3,1,x,2,-5;", "Token 5"),
        ("180,2,-1,-3;", "BadPostfix 1"),
        ("180,4,-1,-3,1,-5,x;", "BadPostfix 1"),
        ("180,5,-1,-3,1,-5,x;", "Token 6"),
    ] {
        let words = tree_words(rt.alloc(), text.as_bytes())?;
        assert_eq!(rt; words.as_slice(), want.as_bytes(), "{text}");
    }
    Ok(())
}

#[test]
fn reads_assemblies(rt: HostRuntime) -> Result<(), Fail> {
    for (text, want) in [
        ("184,1,7;", "7/0 |4"),
        ("184,2,1,3,0,5,9;", "1/0 3/5 |6"),
        ("184,2,0,3,,5;", "0/0 3/5 |6"),
        ("184,3,9999999,1,3,,,9999999;", "9999999/0 1/0 3/9999999 |8"),
        ("184;", "Missing 1"),
        ("184,0;", "BadSize 1"),
        ("184,-2,1,3;", "BadSize 1"),
        ("184,10000000;", "TooFar 1"),
        ("184,2,1,,0,0;", "Missing 3"),
        ("184,1,-1;", "TooFar 2"),
        ("184,1,10000000;", "TooFar 2"),
        ("184,1,1.;", "WrongKind 2"),
        ("184,1,1,-3;", "TooFar 3"),
        ("184,1,1,1H3;", "WrongKind 3"),
        ("184,2,1,3,x,-5;", "Token 4"),
        ("184,2,1,-3,x;", "TooFar 3"),
    ] {
        let words = assembly_words(rt.alloc(), text.as_bytes())?;
        assert_eq!(rt; words.as_slice(), want.as_bytes(), "{text}");
    }
    Ok(())
}
