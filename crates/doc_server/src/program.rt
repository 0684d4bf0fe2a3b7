ghost use Rattle.std.specs.Prelude.{◌≡◌, ◌≢◌, ◌↔◌, true, false, None, map, is_some, string_bytes, IfSome, IfNone, IfOk, IfErr};
ghost use Rattle.table_store.specs.Loading.{IsLoaded};
ghost use Rattle.table_words.specs.Tables.{Tables as TablesState};
ghost use Rattle.doc_server.specs.Talk.{Faults, scene};
ghost use Rattle.doc_server.specs.Ending.{Ending};
ghost use Rattle.doc_server.specs.Pipe.{Told};
ghost use Rattle.doc_server.specs.Program.{fresh, is_pipe, status_of, Headline, Unloaded, Unserved};

use crate::pipe::serve_pipe;
use crate::serve::Ended;
use crate::why::Why;
use history_lock::Closed;
use outside::{KeepError, Keeper, World};
use std::alloc::Global;
use table_store::{LoadRefused, Tables};

/// What is left when the program ends.
#[derive(Drop)]
pub struct Finished<C, K: Keeper + Drop> {
    /// 0: the input ended behind a whole message; 1: bad words; 2: the keeper failed, or the call for it; 3: what is kept is bad; 4: a write
    /// failed; 6: the input ended within a message; 7: a bad message; 8: a read failed; 9: want of memory; 10: the input is too long.
    pub status: u8,
    /// The console's connection, where it was served.
    pub console: Option<Ended<C>>,
    /// The tables with their whole history, where it was.
    pub tables: Option<Closed<Tables<K>>>,
    /// The keeper, where tables were not loaded from it.
    pub keeper: Option<K>,
    /// The table and the place of the first fault in what is kept, where it is bad.
    pub bad: Option<(u64, u64)>,
}

/// Why there are no tables: the status, the keeper that they were not loaded from, and the table and place of what is bad in it.
#[derive(Drop)]
struct Unopened<K> {
    status: u8,
    keeper: Option<K>,
    bad: Option<(u64, u64)>,
}

/// The same of a keeper that there is.
#[derive(Drop)]
struct Shut<K> {
    status: u8,
    keeper: K,
    bad: Option<(u64, u64)>,
}

fn status(why: &Why) -> u8
    ensures is { result ≡ status_of why.now }
    ensures served { result ≢ 1 }
{
    match why {
        Why::Closed => 0,
        Why::WriteFault => 4,
        Why::Truncated(_) => 6,
        Why::BadFrame(_, _) => 7,
        Why::ReadFault => 8,
        Why::NoMemory => 9,
        Why::Long => 10,
    }
}

/// Whether the words are the one word `pipe`.
fn is_pipe(words: &[String]) -> bool
    ensures { result ≡ is_pipe (map string_bytes words.now) }
{
    match words {
        [word] => word.as_str() == "pipe",
        _ => false,
    }
}

/// The status behind a connection, which was not served for want of memory.
fn status_after<C>(ended: &Option<Ended<C>>) -> u8
    ensures some { IfSome ended.now (λ e. result ≡ status_of e.why) }
    ensures none { IfNone ended.now (result ≡ 9) }
    ensures served { result ≢ 1 }
{
    match ended {
        Some(ended) => status(&ended.why),
        None => 9,
    }
}

/// The tables that a keeper has.
fn load<K: Keeper + Drop>(alloc: Global, keeper: K) -> Result<Tables<K>, Shut<K>>
    requires { K.faults keeper ≡ 0 }
    ensures loaded { IfOk result (λ tables. IfSome (K.told keeper) (λ kept. IsLoaded kept tables.state)) }
    ensures first { IfOk result (λ tables. K.faults tables.keeper ≡ 0) }
    ensures shut { IfErr result (λ it. Unloaded K.faults (K.told keeper) it.keeper it.bad it.status) }
{
    match Tables::load(alloc, keeper) {
        Ok(tables) => Ok(tables),
        Err((refused, keeper)) => Err(refuse(refused, keeper)),
    }
}

fn refuse<K>(refused: LoadRefused, keeper: K) -> Shut<K>
    ensures keeper { result.keeper ≡ keeper }
    ensures told { Told refused result.bad result.status }
{
    match refused {
        LoadRefused::KeeperFault => Shut {
            status: 2,
            keeper,
            bad: None,
        },
        LoadRefused::BadKept { table, place } => Shut {
            status: 3,
            keeper,
            bad: Some((table, place)),
        },
        LoadRefused::NoMemory => Shut {
            status: 9,
            keeper,
            bad: None,
        },
    }
}

/// The tables that the world's keeper has.
fn open<W: World>(alloc: Global, world: &mut W) -> Result<Tables<W::Keeper>, Unopened<W::Keeper>>
where
    W::Keeper: Drop,
    ensures loaded { IfOk result (λ tables. IfSome (W.tables world.old) (λ kept. IsLoaded kept tables.state)) }
    ensures first { IfOk result (λ tables. W.Keeper.faults tables.keeper ≡ 0) }
    ensures keeps { IfOk result (λ tables. W.keep_faults world.new ≡ W.keep_faults world.old) }
    ensures unopened { IfErr result (λ it. Unserved W.Keeper.faults (W.tables world.old)
        (W.keep_faults world.old) (W.keep_faults world.new) it.keeper it.bad it.status) }
    ensures words { IfErr result (λ it. it.status ≢ 1) }
    ensures given { W.is_given world.new ≡ W.is_given world.old }
    ensures input { W.input world.new ≡ W.input world.old }
{
    match world.keep(alloc, None) {
        Ok(keeper) => match load(alloc, keeper) {
            Ok(tables) => Ok(tables),
            Err(it) => Err(Unopened {
                status: it.status,
                keeper: Some(it.keeper),
                bad: it.bad,
            }),
        },
        Err(KeepError::Failed) => Err(Unopened {
            status: 2,
            keeper: None,
            bad: None,
        }),
        Err(KeepError::NoMemory) => Err(Unopened {
            status: 9,
            keeper: None,
            bad: None,
        }),
    }
}

/// All that the program does. The one command is `pipe`: it serves the console as a connection, over tables in memory.
pub fn ferret<W: World>(
    alloc: Global,
    words: &[String],
    world: &mut W,
) -> Finished<W::Console, W::Keeper>
where
    W::Console: Drop,
    W::Keeper: Drop,
    requires { W.is_given world.old ≡ false }

    // Bad words are status 1, and nothing is asked then. The console is asked for once the tables are there.
    ensures words { (result.status ≡ 1) ↔ (is_pipe (map string_bytes words.now) ≡ false) }
    ensures bad_words { result.status ≡ 1 → world.new ≡ world.old }
    ensures given { IfSome result.console (λ e. W.is_given world.new ≡ true) }
    ensures unasked { IfNone result.console (result.status ≢ 9 → W.is_given world.new ≡ false) }
    ensures both { is_some result.tables ≡ is_some result.console }

    // Where no connection is served, the status tells why.
    ensures unserved { IfNone result.console (Unserved W.Keeper.faults (W.tables world.old)
        (W.keep_faults world.old) (W.keep_faults world.new) result.keeper result.bad result.status) }

    // Else it tells how the connection ended.
    ensures status { IfSome result.console (λ e. result.status ≡ status_of e.why) }
    ensures none_bad { IfSome result.console (λ e. (result.keeper ≡ None) × (result.bad ≡ None)) }
    ensures names { IfSome result.console (λ e. (e.seat ≡ 0) × (e.number ≡ 0) × (e.lost ≡ 0)) }
    ensures faults { IfSome result.console (λ e. Faults e.why
        0 (W.Console.read_faults e.link) 0 (W.Console.write_faults e.link)) }
    ensures keeps { IfSome result.console (λ e. W.keep_faults world.new ≡ W.keep_faults world.old) }

    // It ended as what stands behind the messages shows, and what is left of the input.
    ensures ends { IfSome result.console (λ e. Ending (fresh (W.input world.old))
        (scene (W.Console.taken e.link) (W.Console.left e.link) (W.Console.written e.link) (W.Console.moments e.link))
        e.why) }

    // From the tables that were loaded: what came of the input are messages and a rest, what was written are their answers, the replies in
    // them are told by the whole history of the tables that are left, whose story is a run of the one-thread store, and nothing of the input
    // is left that could be answered, unless it was cut off.
    ensures headline { IfSome result.console (λ e. IfSome result.tables (λ c. (loaded : TablesState)
        × IfSome (W.tables world.old) (λ kept. IsLoaded kept loaded)
        × Headline loaded 0 c.past.seen c.object.state (W.Keeper.faults c.object.keeper) (W.input world.old)
        (scene (W.Console.taken e.link) (W.Console.left e.link) (W.Console.written e.link) (W.Console.moments e.link))
        e.why e.commands)) }
{
    if !is_pipe(words) {
        return Finished {
            status: 1,
            console: None,
            tables: None,
            keeper: None,
            bad: None,
        };
    }
    match open(alloc, world) {
        Ok(tables) => {
            let piped = serve_pipe(alloc, world.console(), tables);
            Finished {
                status: status_after(&piped.ended),
                console: piped.ended,
                tables: piped.tables,
                keeper: None,
                bad: None,
            }
        }
        Err(it) => Finished {
            status: it.status,
            console: None,
            tables: None,
            keeper: it.keeper,
            bad: it.bad,
        },
    }
}
