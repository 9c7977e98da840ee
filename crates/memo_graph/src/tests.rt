//! Small memos, by tables of looks and fills.
ghost use Rattle.fixed_enclosure.specs.Spans.{IsBox};

use crate::{HashedKey, Memo};
use fixed_enclosure::{Box3, Enc};
use solid_base::{Class, Verdict};
use std::test::*;

fn point(at: i32) -> Box3
    ensures { IsBox result }
{
    let enc = Enc::point(at as i128);
    Box3 {
        x: enc,
        y: enc,
        z: enc,
    }
}

fn key(de: u32, stamp: u64, at: i32) -> HashedKey {
    HashedKey::new(de, stamp, &point(at))
}

fn mixed(leaf: u32) -> Verdict {
    Verdict {
        class: Class::Mixed,
        leaf,
    }
}

#[test]
fn a_key_is_its_entity_its_stamp_and_its_box(rt: HostRuntime) -> Result<(), Fail> {
    let mut memo = Memo::new(rt.alloc(), 4)?;
    memo.fill(&key(1, 0, 5), mixed(1))?;
    assert_eq!(rt; memo.look(&key(1, 0, 5)), Some(mixed(1)));
    let others = [key(3, 0, 5), key(1, 1, 5), key(1, 0, 6), key(1, 0, -5)];
    for other in others.iter() {
        assert_eq!(rt; memo.look(other), None);
    }
    let half_open = Box3 {
        z: Enc::All,
        ..point(5)
    };
    let open = HashedKey::new(1, 0, &half_open);
    assert!(rt; open == open && open != key(1, 0, 5));
    assert_eq!(rt; memo.look(&open), None);
    memo.fill(&open, mixed(7))?;
    assert_eq!(rt; memo.look(&open), Some(mixed(7)));
    assert_eq!(rt; memo.look(&key(1, 0, 5)), Some(mixed(1)));
    assert_eq!(rt; memo.len(), 2);
    Ok(())
}

#[test]
fn a_key_gives_back_its_parts(rt: HostRuntime) {
    let most = 1_000_000_000_000_000_000;
    let at = Box3 {
        x: Enc::Span {
            lo: -most,
            hi: most,
        },
        y: Enc::All,
        z: Enc::Span { lo: 0, hi: 1 },
    };
    let key = HashedKey::new(7, 9, &at);
    assert_eq!(rt; (key.de(), key.stamp(), key.at()), (7, 9, at));
}

#[test]
fn the_entry_that_was_used_the_longest_ago_goes(rt: HostRuntime) -> Result<(), Fail> {
    let mut memo = Memo::new(rt.alloc(), 2)?;
    memo.fill(&key(1, 0, 0), mixed(1))?;
    memo.fill(&key(3, 0, 0), mixed(3))?;
    assert_eq!(rt; memo.look(&key(1, 0, 0)), Some(mixed(1)));
    memo.fill(&key(5, 0, 0), mixed(5))?;
    assert_eq!(rt; memo.look(&key(3, 0, 0)), None);
    assert_eq!(rt; memo.look(&key(1, 0, 0)), Some(mixed(1)));
    memo.fill(&key(5, 0, 0), mixed(9))?;
    assert_eq!(rt; memo.len(), 2);
    memo.fill(&key(7, 0, 0), mixed(7))?;
    assert_eq!(rt; memo.look(&key(1, 0, 0)), None);
    assert_eq!(rt; memo.look(&key(5, 0, 0)), Some(mixed(9)));
    assert_eq!(rt; memo.look(&key(7, 0, 0)), Some(mixed(7)));
    Ok(())
}

#[test]
fn a_memo_of_one_entry_keeps_the_newest(rt: HostRuntime) -> Result<(), Fail> {
    let mut memo = Memo::new(rt.alloc(), 1)?;
    for number in 0u32..5 {
        memo.fill(&key(number, 0, 0), mixed(number))?;
        assert_eq!(rt; memo.len(), 1);
        assert_eq!(rt; memo.look(&key(number, 0, 0)), Some(mixed(number)));
    }
    Ok(())
}
