use super::kept::{CHANGES, GIVEN, MADE, changes, given, is};
use super::samples::numbers;
use outside::{KeepError, Keeper, MemoryKeeper, SureKeeper};
use std::alloc::Global;
use std::test::Fail;

/// Whether the keeper makes all changes.
fn makes_all<K: Keeper>(alloc: Global, keeper: &mut K) -> Result<bool, KeepError> {
    let changes = changes(alloc, &CHANGES)?;
    keeper.apply(changes.as_slice())?;
    let kept = keeper.load(alloc)?;
    Ok(is(&kept, &MADE))
}

#[test]
fn a_keeper_makes_all_changes_in_order(rt: HostRuntime) -> Result<(), Fail> {
    let none = numbers(rt.alloc(), &[])?;
    let mut keeper = MemoryKeeper::new(rt.alloc(), given(rt.alloc())?, none)?;
    assert_eq!(rt; makes_all(rt.alloc(), &mut keeper), Ok(true));
    assert_eq!(rt; keeper.faults(), 0);
    Ok(())
}

#[test]
fn a_sure_keeper_makes_all_changes_in_order(rt: HostRuntime) -> Result<(), Fail> {
    let mut keeper = SureKeeper::new(rt.alloc(), given(rt.alloc())?)?;
    assert_eq!(rt; makes_all(rt.alloc(), &mut keeper), Ok(true));
    Ok(())
}

#[test]
fn a_failed_apply_makes_no_change(rt: HostRuntime) -> Result<(), Fail> {
    let bad = numbers(rt.alloc(), &[0, 2])?;
    let mut keeper = MemoryKeeper::new(rt.alloc(), given(rt.alloc())?, bad)?;
    assert_eq!(rt; makes_all(rt.alloc(), &mut keeper), Err(KeepError::Failed));
    assert!(rt; is(&keeper.load(rt.alloc())?, &GIVEN));
    assert_eq!(rt; makes_all(rt.alloc(), &mut keeper), Ok(true));
    assert_eq!(rt; makes_all(rt.alloc(), &mut keeper), Err(KeepError::Failed));
    assert_eq!(rt; keeper.faults(), 2);
    Ok(())
}
