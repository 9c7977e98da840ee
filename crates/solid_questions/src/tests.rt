//! Texts of small answers, with ample memory.
use crate::{
    Question, Refusal, cells, is_lawful, push_body, refusal_of, render, render_bounds,
    render_counts,
};
use solid_base::{Bytes, Class, Cube, List, Placed, Row, U, Vec3, Verdict, Verdicts};
use std::alloc::{AllocError, Global};

const TWO: Cube = Cube {
    lo: Vec3 { x: 0, y: 0, z: 0 },
    hi: Vec3 {
        x: 2 * U,
        y: 2 * U,
        z: 2 * U,
    },
};

#[test]
fn volumes_and_extents_are_written(rt: HostRuntime) -> Result<(), AllocError> {
    let alloc = rt.alloc();
    let volume = render_counts(alloc, 8, 125, &TWO, 3)?;
    let want: &[u8] = b"VOLUME 8 125 512 0.125 1.953125";
    assert_eq!(rt; volume.as_slice(), want);
    let extents = render_bounds(alloc, Some(TWO))?;
    let want: &[u8] = b"BOUNDS 0.0 0.0 0.0 2.0 2.0 2.0";
    assert_eq!(rt; extents.as_slice(), want);
    let nothing = render_bounds(alloc, None)?;
    let want: &[u8] = b"EMPTY";
    assert_eq!(rt; nothing.as_slice(), want);
    Ok(())
}

#[test]
fn the_newest_is_named(rt: HostRuntime) -> Result<(), AllocError> {
    let alloc = rt.alloc();
    let mut out = Bytes::new(alloc);
    push_body(
        alloc,
        &mut out,
        &Question::Newest,
        None,
        &Verdicts::new(alloc),
    )?;
    let want: &[u8] = b"NEWEST";
    assert_eq!(rt; out.as_slice(), want);
    Ok(())
}

#[test]
fn refusals_are_written(rt: HostRuntime) -> Result<(), AllocError> {
    let mut out = Bytes::new(rt.alloc());
    Refusal::Unsupported(13).push(&mut out)?;
    Refusal::TooLarge.push(&mut out)?;
    let want: &[u8] = b"REFUSED Unsupported 13REFUSED TooLarge";
    assert_eq!(rt; out.as_slice(), want);
    let question = Question::Items { e: 15 };
    assert_eq!(rt;
        refusal_of(&question, Some(&Row::Null), 0, 0),
        Some(Refusal::NoEntity(15))
    );
    Ok(())
}

/// A question, the verdicts on its cells in order, and the body of its answer.
type Case = (Question, &'static [Verdict], &'static [u8]);

const OUT: Verdict = Verdict {
    class: Class::Outside,
    leaf: 0,
};

const MIX: Verdict = Verdict {
    class: Class::Mixed,
    leaf: 27,
};

const IN: Verdict = Verdict {
    class: Class::Inside,
    leaf: 0,
};

const ORIGIN: Vec3 = Vec3 { x: 0, y: 0, z: 0 };

/// A section with so many cells with sides of 1 along x and y.
fn section(nx: u32, ny: u32) -> Question {
    Question::Section {
        e: 1,
        z: 0,
        x0: -U,
        y0: U,
        step: U,
        nx,
        ny,
    }
}

/// The body by these verdicts, or nothing where they aren't one for each cell.
fn body(alloc: Global, question: &Question, list: &[Verdict]) -> Result<Bytes, AllocError> {
    let mut verdicts = Verdicts::new(alloc);
    for verdict in list {
        verdicts.push(*verdict)?;
    }
    let count = verdicts.len() as u64;
    if is_lawful(question) && 0 < count && cells(question) == Some(count) {
        render(alloc, question, &verdicts)
    } else {
        Ok(Bytes::new(alloc))
    }
}

#[test]
fn cells_are_written(rt: HostRuntime) -> Result<(), AllocError> {
    let point = Question::Point { e: 1, at: ORIGIN };
    let cell = Question::Cell { e: 1, cube: TWO };
    let volume = Question::Volume {
        e: 1,
        cube: TWO,
        depth: 0,
    };
    let bounds = Question::Bounds {
        e: 1,
        cube: TWO,
        depth: 0,
    };
    let cases: [Case; 11] = [
        (point, &[OUT], b"OUTSIDE"),
        (point, &[MIX], b"UNDECIDED 27"),
        (point, &[IN], b"INSIDE"),
        (cell, &[MIX], b"UNDECIDED 27"),
        (
            section(3, 2),
            &[IN, OUT, MIX, OUT, OUT, IN],
            b"SECTION 3 2\n#.?\n..#",
        ),
        (
            section(2, 3),
            &[IN, OUT, MIX, OUT, OUT, IN],
            b"SECTION 2 3\n#.\n?.\n.#",
        ),
        (section(1, 1), &[MIX], b"SECTION 1 1\n?"),
        (volume, &[MIX], b"VOLUME 0 1 1 0.0 8.0"),
        (volume, &[IN], b"VOLUME 1 1 1 8.0 8.0"),
        (bounds, &[MIX], b"BOUNDS 0.0 0.0 0.0 2.0 2.0 2.0"),
        (bounds, &[OUT], b"EMPTY"),
    ];
    for (question, list, text) in cases.iter() {
        let found = body(rt.alloc(), question, list)?;
        assert_eq!(rt; found.as_slice(), *text);
    }
    Ok(())
}

#[test]
fn items_are_listed(rt: HostRuntime) -> Result<(), AllocError> {
    let alloc = rt.alloc();
    let none = Verdicts::new(alloc);
    let question = Question::Items { e: 9 };
    let mut items = List::new(alloc);
    for (item, matrix) in [(1, 0), (3, 7), (1, 5)] {
        items.push(Placed { item, matrix })?;
    }
    let assembly = Row::Assembly { items, matrix: 0 };
    let mut out = Bytes::new(alloc);
    push_body(alloc, &mut out, &question, Some(&assembly), &none)?;
    let instance = Row::Instance {
        child: 7,
        matrix: 0,
    };
    push_body(alloc, &mut out, &question, Some(&instance), &none)?;
    let want: &[u8] = b"ITEMS 3 1 3/7 1/5ITEMS 1 9";
    assert_eq!(rt; out.as_slice(), want);
    Ok(())
}
