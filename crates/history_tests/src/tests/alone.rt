use super::counter::{at_zero, who};
use history_lock::{Closed, History, Solo};
use std::alloc::Global;
use std::sync::Wait;
use std::test::*;

/// Three replies, the count that the object came to, and the length of the history.
type Came = ([u64; 3], u64, u64);

fn by_solo(alloc: Global) -> Option<Came> {
    let mut solo = Solo::new(alloc, at_zero(alloc)).ok()?;
    let first = solo.call(who(0, 0), 7);
    let second = solo.call(who(0, 1), 7);
    let third = solo.call(who(0, 2), 7);
    let Closed { object, past } = solo.close();
    Some(([first, second, third], object.count, past.len()))
}

fn by_history(rt: &impl Wait, alloc: Global) -> Option<Came> {
    let (history, mut seat) = History::new(alloc, at_zero(alloc), 1).ok()?;
    let first = history.call(rt, &mut seat, who(0, 0), 7);
    let second = history.call(rt, &mut seat, who(0, 1), 7);
    let third = history.call(rt, &mut seat, who(0, 2), 7);
    let Closed { object, past } = history.close(seat);
    Some(([first, second, third], object.count, past.len()))
}

#[test]
fn solo_gives_the_same_replies(rt: HostRuntime) -> Result<(), Fail> {
    assert_eq!(rt; by_solo(rt.alloc()), Some(([1, 2, 3], 3, 3)));
    assert_eq!(rt; by_history(&rt, rt.alloc()), Some(([1, 2, 3], 3, 3)));
    Ok(())
}
