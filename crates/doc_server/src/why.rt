use op_msg::BadKind;

/// How a connection ended.
#[derive(Debug, Drop)]
pub enum Why {
    /// The input ended behind a whole message, or before the first.
    Closed,
    /// The input ended within a message, of which so many bytes had come.
    Truncated(u64),
    /// What came next is no message: the kind of the fault, and its place, counted from the front of that message.
    BadFrame(BadKind, u64),
    /// A read failed.
    ReadFault,
    /// A write failed.
    WriteFault,
    /// 2^40 bytes came, and the last of them are no whole message.
    Long,
    NoMemory,
}
