//! Cursors as one thread calls them: what each call of a script is replied.

use super::asks::{Ask, Told, call_of, summary};
use super::counter::who;
use cursor_core::Cursors;
use history_lock::Solo;
use std::alloc::Global;
use std::test::*;

/// The bytes of a small item.
const SMALL: usize = 5;

/// Those of the largest.
const LARGE: usize = 16_777_216;

static SCRIPTS: [(&str, &[(Ask, Told)]); 6] = [
    (
        "nine items, three of which were given before, in batches that are asked in time",
        &[
            (Ask::Start(0, 6, SMALL), Told::Started(1)),
            (Ask::More(599_999, 1, "c", 3), Told::Batch(Some(0), 3, 1)),
            (Ask::More(1_199_998, 1, "c", 3), Told::Batch(Some(3), 3, 0)),
            (Ask::More(1_199_998, 1, "c", 3), Told::NotFound),
            (Ask::Count(1_199_998), Told::Counted(0)),
        ],
    ),
    (
        "the first cursor is asked in the middle, and the second is not; a moment may be an earlier one",
        &[
            (Ask::Start(0, 2, SMALL), Told::Started(1)),
            (Ask::Start(0, 2, SMALL), Told::Started(2)),
            (Ask::More(300_000, 1, "c", 0), Told::Batch(None, 0, 1)),
            (Ask::Count(599_999), Told::Counted(2)),
            (Ask::More(600_000, 2, "c", 1), Told::NotFound),
            (Ask::Count(0), Told::Counted(1)),
            (Ask::More(1, 1, "c", 5), Told::Batch(Some(0), 2, 0)),
        ],
    ),
    (
        "a cursor is killed once",
        &[
            (Ask::Start(0, 2, SMALL), Told::Started(1)),
            (Ask::Kill(0, [1, 1]), Told::Killed(true, false)),
            (Ask::More(0, 1, "c", 1), Told::NotFound),
            (Ask::Start(0, 2, SMALL), Told::Started(2)),
        ],
    ),
    (
        "a cursor stays where it is asked for another space",
        &[
            (Ask::Start(0, 3, SMALL), Told::Started(1)),
            (Ask::More(0, 1, "d", 1), Told::OtherSpace),
            (Ask::More(0, 1, "c", 1), Told::Batch(Some(0), 1, 1)),
            (Ask::More(0, 1, "c", 2), Told::Batch(Some(1), 2, 0)),
        ],
    ),
    (
        "with its last moment",
        &[
            (Ask::Start(0, 3, SMALL), Told::Started(1)),
            (Ask::More(599_999, 1, "d", 1), Told::OtherSpace),
            (Ask::More(600_000, 1, "c", 1), Told::NotFound),
        ],
    ),
    (
        "a batch of large items has one",
        &[
            (Ask::Start(0, 3, LARGE), Told::Started(1)),
            (Ask::More(0, 1, "c", 10), Told::Batch(Some(0), 1, 1)),
        ],
    ),
];

fn is_told(alloc: Global, solo: &mut Solo<Cursors>, ask: &Ask, wanted: Told) -> bool {
    match call_of(alloc, ask) {
        Ok(call) => {
            let reply = solo.call(who(0, 0), call);
            summary(&reply) == wanted
        }
        Err(_) => false,
    }
}

/// The first row that is replied otherwise.
fn wrong_in(alloc: Global, solo: &mut Solo<Cursors>, rows: &[(Ask, Told)]) -> Option<usize> {
    for (place, (ask, wanted)) in rows.iter().enumerate() {
        if !is_told(alloc, solo, ask, *wanted) {
            return Some(place);
        }
    }
    None
}

fn first_wrong(alloc: Global, rows: &[(Ask, Told)]) -> Option<usize> {
    let Ok(mut solo) = Solo::new(alloc, Cursors::new(alloc)) else {
        return Some(0);
    };
    let wrong = wrong_in(alloc, &mut solo, rows);
    drop(solo);
    wrong
}

#[test]
fn each_call_of_a_script_is_replied_so(rt: HostRuntime) -> Result<(), Fail> {
    for (name, rows) in &SCRIPTS {
        let wrong = first_wrong(rt.alloc(), rows);
        assert!(rt; wrong.is_none(), "{name}: {wrong:?}");
    }
    Ok(())
}

/// Whether so many cursors are started, and the next one is not.
fn fills(alloc: Global, solo: &mut Solo<Cursors>, most: u64) -> bool {
    for id in 0..most {
        if !is_told(alloc, solo, &Ask::Start(0, 1, SMALL), Told::Started(id + 1)) {
            return false;
        }
    }
    is_told(alloc, solo, &Ask::Start(0, 1, SMALL), Told::TooMany)
}

fn is_full_at(alloc: Global, most: u64) -> bool {
    let Ok(mut solo) = Solo::new(alloc, Cursors::new(alloc)) else {
        return false;
    };
    let full = fills(alloc, &mut solo, most);
    drop(solo);
    full
}

#[test]
fn so_many_cursors_are_held_and_no_more(rt: HostRuntime) -> Result<(), Fail> {
    assert!(rt; is_full_at(rt.alloc(), 65_536));
    Ok(())
}
