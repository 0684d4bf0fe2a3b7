/// Why tables were not loaded.
#[derive(Clone, Copy, Debug, PartialEq, Eq)]
pub enum LoadRefused {
    /// The keeper failed.
    KeeperFault,
    /// What is kept is not the tables of a store. The first fault is in the table of this number: in its row at this place, or before
    /// all of its rows, which is told as place 0.
    BadKept { table: u64, place: u64 },
    /// Memory was wanting.
    NoMemory,
}
