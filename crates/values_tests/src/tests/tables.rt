//! Rows of the tables of numbers and names.

use case_tables::{
    CODES, Case, CaseTable, DUPLICATE_KEY, KINDS, NOT_SUPPORTED, TYPES, code_name_of, code_of,
    text_of,
};
use std::test::Fail;

#[test]
fn types_are_found_by_code_and_by_name(rt: HostRuntime) -> Result<(), Fail> {
    let types = TYPES;
    assert!(rt; matches!(types.by_code(255), Some(Case { name: "minKey", .. })));
    assert!(rt; matches!(types.by_name("binData"), Some(Case { code: 5, .. })));
    assert!(rt; types.by_code(20).is_none());
    assert!(rt; types.by_name("Double").is_none());
    Ok(())
}

/// Rows `code => name`.
macro_rules! rows {
    ($($code:literal => $name:literal),*) => {
        [$(Case { code: $code, name: $name }),*]
    };
}

static ONE_CODE: [Case; 3] = rows!(1 => "double", 1 => "string", 3 => "object");

static ONE_NAME: [Case; 3] = rows!(1 => "double", 2 => "double", 3 => "object");

#[test]
fn the_first_row_is_found_where_two_clash(rt: HostRuntime) -> Result<(), Fail> {
    let table = CaseTable { rows: &ONE_CODE };
    assert!(rt; !table.distinct(), "one code twice");
    assert!(rt; matches!(table.by_code(1), Some(Case { name: "double", .. })));
    let table = CaseTable { rows: &ONE_NAME };
    assert!(rt; !table.distinct(), "one name twice");
    assert!(rt; matches!(table.by_name("double"), Some(Case { code: 1, .. })));
    Ok(())
}

#[test]
fn a_kind_has_a_code_its_name_and_a_sentence(rt: HostRuntime) -> Result<(), Fail> {
    assert_eq!(rt; code_of(NOT_SUPPORTED), 238);
    assert_eq!(rt; code_name_of(NOT_SUPPORTED), "NotImplemented");
    assert_eq!(rt; text_of(NOT_SUPPORTED), "not supported");
    assert_eq!(rt; code_of(DUPLICATE_KEY), 11000);
    assert!(rt;
        matches!(
            KINDS.by_code(31),
            Some(Case {
                name: "duplicate key",
                ..
            })
        )
    );
    assert!(rt;
        matches!(
            CODES.by_name("DuplicateKey"),
            Some(Case { code: 11000, .. })
        )
    );
    for number in [0, 35] {
        assert_eq!(rt; code_of(number), 0);
        assert_eq!(rt; code_name_of(number), "");
        assert_eq!(rt; text_of(number), "");
    }
    Ok(())
}
