// The states of a client.

/// The state of a client (this profile).
#[derive(Clone, Copy, Debug, PartialEq, Eq)]
pub enum State {
    /// On no connection, with commands of the program still to be counted, as far as it knows.
    Apart,
    /// On a connection, sending its plan.
    Running,
    /// A command has failed; others are still open.
    Failing,
    /// An abort was sent and has not ended.
    Aborting,
    /// Nothing is open after a failure or an abort: the plan can be begun again.
    Halted,
    /// The whole plan is counted.
    Done,
    /// What was read is unexpected; nothing more is read on this connection.
    Faulted,
}

/// Why a client closes a connection (this profile).
#[derive(Clone, Copy, Debug, PartialEq, Eq)]
pub enum Cause {
    /// A line is not a response, or a data text is not what the command asks for.
    NotResponse,
    /// A line is longer than 65,536 bytes.
    LineTooLong,
    /// A CR or LF is in a place where neither is allowed.
    BadByte,
    /// No command is open under the tag of a response.
    UnknownTag,
    /// A mark of this kind is not allowed here.
    OutOfOrder,
    /// A command that asks for data completed without any.
    NoData,
    /// A command was given data for the second time.
    SecondData,
    /// All tags are held.
    TagsSpent,
}
