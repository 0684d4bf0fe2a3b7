//! Which documents may be stored.

use super::samples::Sample::{self, Arr, Bin, Doc, Int, Null, Regex as Pattern, Str};
use super::samples::document;
use bson_values::{Binary, Bytes, Document, NoMemory, Text, Unstorable, Value, storable};
use std::alloc::Global;
use std::test::Fail;

/// Each with why it is not stored.
static STORED: [(&[(&str, Sample)], Result<(), Unstorable>); 19] = [
    (&[], Ok(())),
    (&[("a", Null), ("", Bin(0, &[0]))], Ok(())),
    // A name, at its place.
    (
        &[("", Null), ("a$", Null), ("$", Null)],
        Err(Unstorable::Dollar(2)),
    ),
    (
        &[("", Null), ("a", Null), ("", Null)],
        Err(Unstorable::DuplicateKey(2)),
    ),
    (&[("a", Null), ("b.c", Null)], Err(Unstorable::Dot(1))),
    (
        &[("a", Null), ("b", Null), ("c\0", Null)],
        Err(Unstorable::Nul(2)),
    ),
    (&[("$a.b\0", Null)], Err(Unstorable::Dollar(0))),
    (&[("a.b\0", Null)], Err(Unstorable::Dot(0))),
    // A text, at its place.
    (&[("a", Null), ("b", Str("x\0y"))], Err(Unstorable::Nul(1))),
    (&[("a", Arr(&[Null, Str("\0")]))], Err(Unstorable::Nul(2))),
    (
        &[("a", Null), ("b", Pattern("^x", "i\0"))],
        Err(Unstorable::Nul(1)),
    ),
    (
        &[("a", Null), ("b", Pattern("\0", ""))],
        Err(Unstorable::Nul(1)),
    ),
    // A name is looked at before its value.
    (&[("a.b", Str("\0"))], Err(Unstorable::Dot(0))),
    (&[("a.b", Doc(&[("$", Null)]))], Err(Unstorable::Dot(0))),
    // The places are x 0, a 1, b 2, l 3, its items 4 and 5, the fields in the second 6 and 7, the last 8.
    (
        &[
            ("x", Doc(&[("a", Null), ("b", Null)])),
            ("l", Arr(&[Null, Doc(&[("a", Null), ("x", Null)])])),
            ("y", Null),
        ],
        Ok(()),
    ),
    (
        &[
            ("x", Doc(&[("a", Null), ("b", Null)])),
            ("l", Arr(&[Null, Doc(&[("a", Null), ("x", Null)])])),
            ("x", Null),
        ],
        Err(Unstorable::DuplicateKey(8)),
    ),
    (
        &[
            ("x", Doc(&[("a", Null), ("b", Null)])),
            ("l", Arr(&[Null, Doc(&[("a", Null), ("a", Null)])])),
            ("y", Null),
        ],
        Err(Unstorable::DuplicateKey(7)),
    ),
    (
        &[
            ("x", Doc(&[("a", Null), ("b", Null)])),
            ("l", Arr(&[Null, Doc(&[("a", Null), ("$", Null)])])),
            ("x", Null),
        ],
        Err(Unstorable::Dollar(7)),
    ),
    (
        &[
            ("x", Doc(&[("a", Null), ("b.", Null)])),
            ("x", Null),
            ("y", Null),
        ],
        Err(Unstorable::Dot(2)),
    ),
];

#[test]
fn documents_are_stored_as_the_table_says(rt: HostRuntime) -> Result<(), Fail> {
    for (row, (pairs, answer)) in STORED.iter().enumerate() {
        let document = document(rt.alloc(), pairs)?;
        assert!(rt; storable(&document) == *answer, "row {row}");
    }
    Ok(())
}

/// The document within so many others.
fn nested(alloc: Global, levels: u32, document: Document) -> Result<Document, NoMemory> {
    let mut document = document;
    for _ in 0..levels {
        let name = Text::of(alloc, "a")?;
        let mut outer = Document::new(alloc);
        outer
            .push(name, Value::Doc(document))
            .map_err(|_| NoMemory)?;
        document = outer;
    }
    Ok(document)
}

#[test]
fn thirty_two_levels_are_stored_and_no_more(rt: HostRuntime) -> Result<(), Fail> {
    // Behind the levels, the name would be refused.
    for (levels, name, answer) in [(31, "a", Ok(())), (32, "$", Err(Unstorable::TooDeep))] {
        let inner = document(rt.alloc(), &[(name, Null)])?;
        let document = nested(rt.alloc(), levels, inner)?;
        assert_eq!(rt; storable(&document), answer);
    }
    Ok(())
}

/// `{_id: 1, b: so many zeros}`, which has 22 bytes more.
fn zeros(alloc: Global, len: usize) -> Result<Document, NoMemory> {
    let bytes = Bytes::from_vec(vec![in alloc; 0; len]?);
    let name = Text::of(alloc, "b")?;
    let mut document = document(alloc, &[("_id", Int(1))])?;
    document
        .push(name, Value::Bin(Binary { subtype: 0, bytes }))
        .map_err(|_| NoMemory)?;
    Ok(document)
}

#[test]
fn sixteen_mebibytes_are_stored_and_no_more(rt: HostRuntime) -> Result<(), Fail> {
    // Behind the bytes, the levels would be refused.
    for (len, levels, answer) in [
        (16_777_194, 0, Ok(())),
        (16_777_195, 0, Err(Unstorable::TooLarge)),
        (16_777_195, 32, Err(Unstorable::TooLarge)),
    ] {
        let document = nested(rt.alloc(), levels, zeros(rt.alloc(), len)?)?;
        assert_eq!(rt; storable(&document), answer);
    }
    Ok(())
}
