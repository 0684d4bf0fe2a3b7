use super::samples::{HIGH_FLAG, PING, nested};
use super::seen::{fault, is_short, seen};
use op_msg::BadKind;
use std::test::Fail;

#[test]
fn a_message_is_taken_when_it_is_whole(rt: HostRuntime) -> Result<(), Fail> {
    for len in 0..51 {
        assert!(rt; is_short(rt.alloc(), &PING[..len]), "{len} bytes");
    }
    assert!(rt; is_short(rt.alloc(), &[0, 0x6c, 0xdc, 2]), "48,000,000");
    assert_eq!(rt; seen(rt.alloc(), &PING), Some((1, 2, 0, None, 51)));
    assert_eq!(rt; seen(rt.alloc(), &HIGH_FLAG), Some((1, 0, 0, None, 26)));
    Ok(())
}

#[test]
fn a_body_has_at_most_128_levels(rt: HostRuntime) -> Result<(), Fail> {
    let deep = nested(rt.alloc(), 128)?;
    assert_eq!(rt;
        seen(rt.alloc(), deep.as_slice()),
        Some((1, 1, 0, None, 915))
    );
    let deeper = nested(rt.alloc(), 129)?;
    assert_eq!(rt; deeper.len(), 922);
    assert_eq!(rt;
        fault(rt.alloc(), deeper.as_slice()),
        Some((BadKind::Document, 789))
    );
    Ok(())
}
