//! Lists, bytes, rooms and the names of collections.

use bson_values::{Bytes, List, NoMemory, Room, Space, Text};
use std::test::Fail;

#[test]
fn bytes_with_ample_memory_are_added(rt: HostRuntime) -> Result<(), Fail> {
    let mut bytes = Bytes::new(rt.alloc());
    bytes.extend(&[1, 2, 3, 4])?;
    bytes.overwrite(1, &[8, 9]);
    assert_eq!(rt; bytes.as_slice(), [1, 8, 9, 4].as_slice());
    Ok(())
}

#[test]
fn a_space_with_ample_memory_is_copied(rt: HostRuntime) -> Result<(), Fail> {
    let db = Text::of(rt.alloc(), "d")?;
    let coll = Text::of(rt.alloc(), "c")?;
    let space = Space { db, coll };
    assert!(rt; space.copy(rt.alloc())?.is(&space));
    Ok(())
}

#[test]
fn a_room_with_ample_memory_is_filled(rt: HostRuntime) -> Result<(), Fail> {
    let mut room = Room::new(rt.alloc(), 4)?;
    room.push_in(1);
    room.extend_in(&[2, 3, 4]);
    assert_eq!(rt; room.items(), [1, 2, 3, 4].as_slice());
    Ok(())
}

#[test]
fn a_list_with_ample_memory_is_changed(rt: HostRuntime) -> Result<(), Fail> {
    let mut list = List::new(rt.alloc());
    list.append(List::from_vec(vec![in rt.alloc(); 1, 2, 3]?))?;
    list.insert(1, 9).map_err(|_| NoMemory)?;
    assert_eq!(rt; list.as_slice(), [1, 9, 2, 3].as_slice());
    list.remove(2);
    list.truncate(2);
    assert_eq!(rt; list.as_slice(), [1, 9].as_slice());
    Ok(())
}
