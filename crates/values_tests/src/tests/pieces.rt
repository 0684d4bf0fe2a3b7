//! Pieces of bytes.

use std::test::Fail;
use std_words::{head, tail};

#[test]
fn a_head_and_a_tail_are_the_whole(rt: HostRuntime) -> Result<(), Fail> {
    assert_eq!(rt; head(&[1, 2, 3], 1), [1].as_slice());
    assert_eq!(rt; tail(&[1, 2, 3], 1), [2, 3].as_slice());
    Ok(())
}
