ghost use Rattle.std.specs.Prelude.{◌≡◌, false};
ghost use Rattle.history_lock.specs.Seats.{moved};

use super::counter::{Counter, at_zero, who};
use history_lock::{Closed, History, Seat};
use std::alloc::Global;
use std::process::Abort;
use std::sync::Wait;
use std::test::*;
use std::thread::{Threads, join};

/// What the second call of a turn asks.
const ENDS: u64 = 2;

// So many calls, each in a turn of its own.
fn call_often<R: Wait>(
    rt: &R,
    history: &History<Counter>,
    mut seat: Seat<Counter>,
    number: u64,
    times: u64,
) -> Seat<Counter>
    requires history { seat.history ≡ history.now }
    requires free { seat.held ≡ false }
    ensures { result ≡ moved seat false result.at }
{
    for op in 0..times {
        history.call(rt, &mut seat, who(number, op), number);
    }
    seat
}

// So many turns, each of two calls.
fn take_turns<R: Wait>(
    rt: &R,
    history: &History<Counter>,
    mut seat: Seat<Counter>,
    number: u64,
    times: u64,
) -> Seat<Counter>
    requires history { seat.history ≡ history.now }
    requires free { seat.held ≡ false }
    ensures { result ≡ moved seat false result.at }
{
    for op in 0..times {
        let mut turn = history.begin(rt, &mut seat);
        history.turn_call(&mut seat, &mut turn, who(number, op), number);
        history.turn_call(&mut seat, &mut turn, who(number, op), ENDS);
        history.end(&mut seat, turn);
    }
    seat
}

fn both<R: Threads + Wait + Sync>(
    rt: &R,
    history: &History<Counter>,
    one: Seat<Counter>,
    two: Seat<Counter>,
    turns: bool,
) -> (Seat<Counter>, Seat<Counter>)
    requires history { (one.history ≡ history.now) × (two.history ≡ history.now) }
    requires free { (one.held ≡ false) × (two.held ≡ false) }
    ensures { (result.0 ≡ moved one false result.0.at) × (result.1 ≡ moved two false result.1.at) }
{
    join(
        rt,
        move || -> Seat<Counter>
            requires { (one.history ≡ history.now) × (one.held ≡ false) }
            ensures { result ≡ moved one false result.at }
        {
            if turns {
                take_turns(rt, history, one, 0, 500)
            } else {
                call_often(rt, history, one, 0, 1000)
            }
        },
        move || -> Seat<Counter>
            requires { (two.history ≡ history.now) × (two.held ≡ false) }
            ensures { result ≡ moved two false result.at }
        { call_often(rt, history, two, 1, 1000) },
    )
}

fn close_after<R: Threads + Wait + Sync>(
    rt: &R,
    alloc: Global,
    turns: bool,
) -> Option<Closed<Counter>> {
    let Ok((history, mut one)) = History::new(alloc, at_zero(alloc), 2) else {
        return None;
    };
    let Ok(two) = history.split(&mut one, 1) else {
        return None;
    };
    let (mut one, two) = both(rt, &history, one, two, turns);
    history.join(&mut one, two);
    Some(history.close(one))
}

#[test]
fn two_threads_make_two_thousand_calls(rt: HostRuntime) -> Result<(), Fail> {
    let closed = close_after(&rt, rt.alloc(), false).ok_or("no memory")?;
    assert_eq!(rt; closed.object.count, 2000);
    assert_eq!(rt; closed.past.len(), 2000);
    Ok(())
}

#[test]
fn nothing_comes_between_the_calls_of_a_turn(rt: HostRuntime) -> Result<(), Fail> {
    let closed = close_after(&rt, rt.alloc(), true).ok_or("no memory")?;
    let asked = closed.object.asked.as_slice();
    assert_eq!(rt; asked.len(), 2000);
    for pair in asked.windows(2) {
        assert!(rt; (pair[0] == 0) == (pair[1] == ENDS), "{pair:?}");
    }
    Ok(())
}
