ghost use Rattle.std.specs.Prelude.{◌≡◌, is_some, IfSome};
ghost use Rattle.doc_server.specs.Talk.{Faults, scene};
ghost use Rattle.doc_server.specs.Ending.{Ending};
ghost use Rattle.doc_server.specs.Pipe.{Pipes};

use crate::serve::{Ended, serve_link};
use history_lock::{Closed, Solo};
use outside::{Keeper, Link};
use shared_books::SoloTables;
use std::alloc::Global;
use table_store::Tables;

/// A connection that was served over tables of its own. There is neither where memory was wanting before its first read.
#[derive(Drop)]
pub struct Piped<L, K: Keeper + Drop> {
    pub ended: Option<Ended<L>>,
    pub tables: Option<Closed<Tables<K>>>,
}

/// Serves one connection to its end, as connection 0 of worker 0, over tables that nobody else calls.
pub fn serve_pipe<L: Link + Drop, K: Keeper + Drop>(
    alloc: Global,
    link: L,
    tables: Tables<K>,
) -> Piped<L, K>
    ensures both { is_some result.tables ≡ is_some result.ended }
    ensures names { IfSome result.ended (λ e. (e.seat ≡ 0) × (e.number ≡ 0) × (e.lost ≡ 0)) }
    ensures ends { IfSome result.ended (λ e. Ending
        (scene (L.taken link) (L.left link) (L.written link) (L.moments link))
        (scene (L.taken e.link) (L.left e.link) (L.written e.link) (L.moments e.link)) e.why) }
    ensures faults { IfSome result.ended (λ e. Faults e.why (L.read_faults link) (L.read_faults e.link)
        (L.write_faults link) (L.write_faults e.link)) }
    ensures pipes { IfSome result.ended (λ e. IfSome result.tables (λ c. Pipes
        tables.state (K.faults tables.keeper) c.past.seen c.object.state (K.faults c.object.keeper)
        (scene (L.taken link) (L.left link) (L.written link) (L.moments link))
        (scene (L.taken e.link) (L.left e.link) (L.written e.link) (L.moments e.link)) e.why e.commands)) }
{
    // It tells that the tables are sound.
    tables.len();
    let Ok(solo) = Solo::new(alloc, tables) else {
        return Piped {
            ended: None,
            tables: None,
        };
    };
    let mut desk = SoloTables::new(solo);
    let ended = serve_link(alloc, link, 0, 0, &mut desk);
    Piped {
        ended: Some(ended),
        tables: Some(desk.part().close()),
    }
}
