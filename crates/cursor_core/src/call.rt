ghost use Rattle.std.specs.Prelude.{◌≡◌};
ghost use Rattle.cursor_core.specs.Step.{moment};

use bson_values::{Bytes, List, Space};

/// Whether the cursor of an id was held.
#[derive(Clone, Copy, Drop)]
pub struct Mark {
    pub id: u64,
    pub was: bool,
}

/// What is asked of the cursors, at a moment in milliseconds.
#[derive(Drop)]
pub enum CursorCall {
    /// To hold a cursor of these items, which stand in the order in which they are given. Each is the BSON of a document: 5 to
    /// 16,777,216 bytes.
    Start {
        now: u64,
        space: Space,
        rest: List<Bytes>,
    },
    /// The next batch of a cursor of this space, of at most so many items.
    More {
        now: u64,
        id: u64,
        space: Space,
        most: u64,
    },
    /// To drop the cursors of these ids, in order. What the marks say is not looked at.
    Kill {
        now: u64,
        marks: List<Mark>,
    },
    /// How many cursors are held.
    Count {
        now: u64,
    },
}

impl CursorCall {
    /// When it is asked.
    pub(crate) fn moment(&self) -> u64
        ensures { result ≡ moment self.now }
    {
        match self {
            CursorCall::Start { now, .. } => *now,
            CursorCall::More { now, .. } => *now,
            CursorCall::Kill { now, .. } => *now,
            CursorCall::Count { now } => *now,
        }
    }
}

/// What the cursors reply.
#[derive(Drop)]
pub enum CursorReply {
    /// The cursor is held, under this id.
    Started(u64),
    /// As many cursors are held as may be, or all ids were given. None is started.
    TooMany,
    /// A batch, and the cursor's id, or 0 where nothing rests and the cursor is gone.
    Batch { items: List<Bytes>, id: u64 },
    /// No cursor of the id is held.
    NotFound,
    /// The cursor is of another space. It stays, with its last moment.
    OtherSpace,
    /// The marks, each with whether its cursor was held when its turn came.
    Killed(List<Mark>),
    /// So many cursors are held.
    Counted(u64),
    /// Memory was wanting, for a start or a batch. Nothing was changed but what each call changes first: the greatest moment is raised, and
    /// the idle cursors are gone.
    NoMemory,
}
