//! What documents measure.

use super::samples::Sample::{
    self, Arr, Bin, Bool, Date, Doc, Id, Int, Long, Null, Regex as Pattern, Stamp, Str,
};
use super::samples::document;
use std::test::Fail;

/// Each with its bytes and its levels.
static MEASURED: [(&[(&str, Sample)], u64, u32); 15] = [
    (&[], 5, 1),
    (&[("hello", Str("world"))], 22, 1),
    (&[("a", Doc(&[("bcd", Null)]))], 18, 2),
    (&[("a", Arr(&[Null]))], 16, 2),
    (&[("a", Arr(&[Doc(&[]), Null]))], 24, 3),
    // Ten names of one digit and one of two.
    (
        &[(
            "a",
            Arr(&[
                Null, Null, Null, Null, Null, Null, Null, Null, Null, Null, Null,
            ]),
        )],
        47,
        2,
    ),
    (&[("a", Bin(5, &[0, 255]))], 15, 1),
    (&[("a", Id([7; 12]))], 20, 1),
    (&[("a", Bool(true))], 9, 1),
    (&[("a", Date(-2))], 16, 1),
    (&[("a", Null)], 8, 1),
    (&[("a", Pattern("^x", "i"))], 13, 1),
    (&[("a", Int(-1))], 12, 1),
    (&[("a", Stamp(3))], 16, 1),
    (&[("a", Long(4))], 16, 1),
];

#[test]
fn a_copy_with_ample_memory_has_these_measures(rt: HostRuntime) -> Result<(), Fail> {
    for (row, (pairs, size, depth)) in MEASURED.iter().enumerate() {
        let copied = document(rt.alloc(), pairs)?.copy(rt.alloc())?;
        assert!(rt; copied.size() == *size, "row {row}");
        assert!(rt; copied.depth() == *depth, "row {row}");
    }
    Ok(())
}
