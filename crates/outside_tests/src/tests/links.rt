use super::calls::{Call, first_wrong};
use super::samples::{memory_link, sure_link};
use outside::{Failed, Link};
use std::test::Fail;

static CUT_AND_FAILING: [Call<'static>; 13] = [
    Call::Read(Ok(b"a")),
    Call::Write(b"xy", Ok(2)),
    Call::Now(50),
    Call::Read(Ok(b"bcd")),
    Call::Read(Err(Failed)),
    Call::Write(b"z", Err(Failed)),
    Call::Read(Ok(b"e")),
    Call::Now(80),
    Call::Read(Ok(b"fghi")),
    Call::Write(b"w", Ok(1)),
    Call::Now(80),
    Call::Read(Ok(b"j")),
    Call::Read(Ok(b"")),
];

#[test]
fn a_memory_link_cuts_and_fails_as_it_was_told(rt: HostRuntime) -> Result<(), Fail> {
    let mut link = memory_link(rt.alloc())?;
    assert_eq!(rt; first_wrong(&mut link, &CUT_AND_FAILING), None);
    link.shut();
    assert_eq!(rt; link.written(), Some(b"xyw".as_slice()));
    Ok(())
}

static CUT: [Call<'static>; 11] = [
    Call::Read(Ok(b"a")),
    Call::Write(b"xy", Ok(2)),
    Call::Now(50),
    Call::Read(Ok(b"bcd")),
    Call::Read(Ok(b"efgh")),
    Call::Write(b"z", Ok(1)),
    Call::Read(Ok(b"i")),
    Call::Now(80),
    Call::Read(Ok(b"j")),
    Call::Now(80),
    Call::Read(Ok(b"")),
];

#[test]
fn a_sure_link_cuts_and_never_fails(rt: HostRuntime) -> Result<(), Fail> {
    let mut link = sure_link(rt.alloc())?;
    assert_eq!(rt; first_wrong(&mut link, &CUT), None);
    link.shut();
    assert_eq!(rt; link.written(), Some(b"xyz".as_slice()));
    Ok(())
}
