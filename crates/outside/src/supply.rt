ghost use Rattle.std.specs.Prelude.{◌≡◌, [], Some, None, IsSome, unwrap_or};
ghost use Rattle.outside.specs.Told.{IsFresh};

use crate::archive::Archive;
use crate::link::Link;
use std::alloc::Global;
use std::marker::Model;

/// What a world in memory has still to give: its console and its tables.
#[derive(Drop)]
pub struct Supply<L: Link> {
    console: Option<L>,
    archive: Option<Archive>,
}

impl<L: Link> Model for Supply<L> {
    ghost use Rattle.std.specs.Prelude.{Option, List};
    ghost use Rattle.std.specs.Option.{ForSome};
    ghost use Rattle.outside.specs.declared.kept.KeptTable.{KeptTable};
    ghost use Rattle.outside.specs.Told.{IsFresh};

    ghost Value = { Option L × Option (List KeptTable) };

    ghost view = { λ it. (it.console, it.archive) };

    ghost invariant = { λ it. ForSome it.console (λ link.
        IsFresh (L.taken link) (L.written link) (L.moments link) (L.read_faults link) (L.write_faults link)) };
}

impl<L: Link> Supply<L> {
    pub fn new(console: L, archive: Archive) -> Supply<L>
        requires { IsFresh (L.taken console) (L.written console) (L.moments console)
            (L.read_faults console) (L.write_faults console) }
        ensures { result ≡ (Some console, Some archive) }
    {
        Supply {
            console: Some(console),
            archive: Some(archive),
        }
    }

    pub fn console(&mut self) -> L
        requires { IsSome self.old.0 }
        ensures given { self.old.0 ≡ Some result }
        ensures rest { self.new ≡ (None, self.old.1) }
        ensures fresh { IsFresh (L.taken result) (L.written result) (L.moments result)
            (L.read_faults result) (L.write_faults result) }
    {
        self.console.take().unwrap()
    }

    /// The tables, or none where they were given before.
    pub fn archive(&mut self, alloc: Global) -> Archive
        ensures given { result ≡ unwrap_or self.old.1 [] }
        ensures rest { self.new ≡ (self.old.0, None) }
    {
        match self.archive.take() {
            Some(archive) => archive,
            None => Archive::new(alloc),
        }
    }
}
