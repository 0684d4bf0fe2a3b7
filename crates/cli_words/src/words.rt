use bson_values::Text;

/// What the words of the command line ask for. A store is the path of one; none: in memory.
#[derive(Drop)]
pub enum Words {
    /// The messages on standard input are answered on standard output.
    Pipe {
        store: Option<Text>,
    },
    /// So many workers serve what comes at the address, so many connections in all.
    Serve {
        listen: Text,
        workers: u64,
        connections: u64,
        store: Option<Text>,
    },
    /// A session of so many documents is run.
    Load {
        count: u64,
    },
}

/// Why no words are read.
#[derive(Clone, Copy, Debug, PartialEq, Eq)]
pub enum WordsRefused {
    /// No command is named, or it does not take the words behind its name.
    BadWords,
    /// Reading them found no memory.
    NoMemory,
}
