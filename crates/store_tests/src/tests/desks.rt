//! Tables called through desks: one over a history of its own, and one at a seat of a shared history.

ghost use Rattle.std.specs.Prelude.{◌≡◌, false, true};
ghost use Rattle.table_words.specs.Sound.{Sound};

use super::asks::{Ask, call_of, told};
use super::kept::{Sample, keeps};
use super::scripts::{Line, sure_tables};
use super::texts::{KEY_ONE, KEY_TWO, ONE, TWO};
use history_lock::{Closed, History, Seat, Solo, Who};
use outside::SureKeeper;
use shared_books::{SharedTables, SoloTables};
use std::alloc::Global;
use std::sync::Wait;
use table_store::Tables;
use table_words::TableDesk;

/// In a turn.
static HELD: [Line; 3] = [
    (Ask::SelectNamed("t.c"), "Absent"),
    (Ask::InsertNamed("t.c", "{_id: 1}"), "Inserted 1 2"),
    (Ask::Insert(1, "{_id: 1}"), "Duplicate"),
];

/// Behind it.
static FREE: [Line; 2] = [
    (Ask::Insert(1, "{_id: 2}"), "Inserted 1 3"),
    (
        Ask::SelectNamed("t.c"),
        concat!(
            r#"Rows 1 3 {"$s":{"$k":["_id"],"p":{"_id":{"t":"int"}}},"_id":1}"#,
            r#" {"$s":{"$k":["_id"],"p":{"_id":{"t":"int"}}},"_id":2}"#,
        ),
    ),
];

static KEPT: [Sample; 1] = [Sample(1, "t.c", &[(2, KEY_ONE, ONE), (3, KEY_TWO, TWO)])];

fn is_told<D: TableDesk>(alloc: Global, desk: &mut D, line: &Line) -> bool
    ensures { D.held desk.new ≡ D.held desk.old }
{
    let (ask, wanted) = line;
    let who = Who {
        seat: 0,
        link: 1,
        op: 2,
    };
    match call_of(alloc, ask) {
        Some(call) => {
            let reply = desk.call(who, call);
            told(alloc, &reply).as_str() == *wanted
        }
        None => false,
    }
}

fn are_told<D: TableDesk>(alloc: Global, desk: &mut D, script: &[Line]) -> bool
    ensures { D.held desk.new ≡ D.held desk.old }
{
    for line in script {
        if !is_told(alloc, desk, line) {
            return false;
        }
    }
    true
}

/// Whether a desk replies so in a turn and behind it.
fn is_right<D: TableDesk>(alloc: Global, desk: &mut D) -> bool
    requires { D.held desk.old ≡ false }
    ensures { D.held desk.new ≡ false }
{
    desk.hold();
    let held = are_told(alloc, desk, &HELD);
    desk.release();
    held && are_told(alloc, desk, &FREE)
}

/// How many calls the history has, where its tables are kept.
fn calls(alloc: Global, closed: Closed<Tables<SureKeeper>>) -> Option<u64> {
    let Closed { object, past } = closed;
    let mut keeper = object.keeper();
    if keeps(alloc, &mut keeper, &KEPT) {
        Some(past.len())
    } else {
        None
    }
}

fn by_solo(alloc: Global) -> Option<u64> {
    let tables = sure_tables(alloc, &[])?;
    // With their number tables tell that they are sound.
    let _none = tables.len();
    let solo = Solo::new(alloc, tables).ok()?;
    let mut desk = SoloTables::new(solo);
    let right = is_right(alloc, &mut desk);
    let calls = calls(alloc, desk.part().close());
    if right { calls } else { None }
}

fn is_right_at<R: Wait>(
    rt: &R,
    alloc: Global,
    history: &History<Tables<SureKeeper>>,
    seat: Seat<Tables<SureKeeper>>,
) -> bool
    requires history { seat.history ≡ history.now }
    requires free { seat.held ≡ false }
    requires sound { Sound seat.history.opening }
{
    let mut desk = SharedTables::new(rt, history, seat);
    let right = is_right(alloc, &mut desk);
    drop(desk.part());
    right
}

fn is_right_by_history(rt: &impl Wait, alloc: Global) -> Option<bool> {
    let tables = sure_tables(alloc, &[])?;
    let _none = tables.len();
    let Ok((history, seat)) = History::new(alloc, tables, 1) else {
        return None;
    };
    let right = is_right_at(rt, alloc, &history, seat);
    drop(history);
    Some(right)
}

#[test]
fn both_desks_call_the_tables(rt: HostRuntime) {
    assert_eq!(rt; by_solo(rt.alloc()), Some(5));
    assert_eq!(rt; is_right_by_history(&rt, rt.alloc()), Some(true));
}
