ghost use Rattle.std.specs.Prelude.{◌≡◌, false, true, IfOk, IsSome};

use super::calls::{Call, answers};
use super::kept::{GIVEN, given, is};
use super::samples::{memory_link, numbers, sure_link};
use bson_values::{List, NoMemory};
use outside::{Bad, KeepError, Keeper, MemoryWorld, SureWorld, World};
use std::alloc::Global;
use std::test::Fail;

/// A world whose first keep fails, and the first apply of its keeper.
fn memory_world(alloc: Global) -> Result<MemoryWorld, NoMemory>
    ensures { IfOk result (λ world. IsSome world.console) }
{
    let link = memory_link(alloc)?;
    let tables = given(alloc)?;
    let bad = Bad {
        keeps: numbers(alloc, &[0])?,
        applies: numbers(alloc, &[0])?,
    };
    MemoryWorld::new(alloc, link, tables, bad)
}

fn sure_world(alloc: Global) -> Result<SureWorld, NoMemory>
    ensures { IfOk result (λ world. IsSome world.console) }
{
    let link = sure_link(alloc)?;
    let tables = given(alloc)?;
    SureWorld::new(alloc, link, tables)
}

/// Whether the world's console begins with the first byte of the input.
fn gives_its_console<W: World>(world: &mut W) -> bool
where
    W::Console: Drop,
    requires { W.is_given world.old ≡ false }
    ensures { W.is_given world.new ≡ true }
{
    let mut console = world.console();
    answers(&mut console, Call::Read(Ok(b"a")))
}

#[test]
fn a_world_gives_its_console_with_the_input(rt: HostRuntime) -> Result<(), Fail> {
    let mut world = memory_world(rt.alloc())?;
    assert!(rt; gives_its_console(&mut world));
    let mut world = sure_world(rt.alloc())?;
    assert!(rt; gives_its_console(&mut world));
    Ok(())
}

/// Whether the world gives a keeper with its tables, whose first apply is answered so.
fn gives_its_keeper<W: World>(
    alloc: Global,
    world: &mut W,
    wanted: Result<(), KeepError>,
) -> Result<bool, KeepError>
where
    W::Keeper: Drop,
{
    let mut keeper = world.keep(alloc, None)?;
    let kept = keeper.load(alloc)?;
    Ok(is(&kept, &GIVEN) && keeper.apply(&[]) == wanted)
}

#[test]
fn a_world_gives_a_keeper_with_its_tables(rt: HostRuntime) -> Result<(), Fail> {
    let failed = Err(KeepError::Failed);
    let mut world = memory_world(rt.alloc())?;
    assert_eq!(rt;
        gives_its_keeper(rt.alloc(), &mut world, failed),
        Err(KeepError::Failed)
    );
    assert_eq!(rt; gives_its_keeper(rt.alloc(), &mut world, failed), Ok(true));
    let mut world = sure_world(rt.alloc())?;
    assert_eq!(rt; gives_its_keeper(rt.alloc(), &mut world, Ok(())), Ok(true));
    Ok(())
}
