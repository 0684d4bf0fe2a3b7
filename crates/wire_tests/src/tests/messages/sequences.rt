use super::samples::{PING, TWO_SEQUENCES, message};
use bson_values::{Document, Value};
use op_msg::{Message, Taken, take};
use std::test::Fail;

/// The int of that name.
fn int(doc: &Document, name: &str) -> Option<i32> {
    match doc.get(name) {
        Some(Value::Int(number)) => Some(*number),
        _ => None,
    }
}

/// The int `a` of that document of the sequence at that place, where the sequence has that name.
fn in_sequence(message: &Message, place: usize, name: &str, doc: usize) -> Option<i32> {
    let sequence = message.sequences.get(place)?;
    if sequence.name.as_str() != name {
        return None;
    }
    int(sequence.docs.get(doc)?, "a")
}

/// How many documents the sequence at that place has, where it has that name.
fn count(message: &Message, place: usize, name: &str) -> Option<usize> {
    let sequence = message.sequences.get(place)?;
    if sequence.name.as_str() != name {
        return None;
    }
    Some(sequence.docs.len())
}

#[test]
fn sequences_stand_before_and_behind_the_body(rt: HostRuntime) -> Result<(), Fail> {
    let bytes = message(rt.alloc(), &TWO_SEQUENCES)?;
    let Taken::Whole { message, used } = take(rt.alloc(), bytes.as_slice()) else {
        panic!(rt; "no message");
    };
    assert_eq!(rt;
        (message.body.len(), message.sequences.len(), used),
        (0, 2, 64)
    );
    assert_eq!(rt;
        (count(&message, 0, "d"), count(&message, 1, "e")),
        (Some(2), Some(0))
    );
    assert_eq!(rt;
        (
            in_sequence(&message, 0, "d", 0),
            in_sequence(&message, 0, "d", 1)
        ),
        (Some(1), Some(2))
    );
    Ok(())
}

#[test]
fn the_body_is_read(rt: HostRuntime) -> Result<(), Fail> {
    let Taken::Whole { message, .. } = take(rt.alloc(), &PING) else {
        panic!(rt; "no message");
    };
    assert_eq!(rt; int(&message.body, "ping"), Some(1));
    Ok(())
}
