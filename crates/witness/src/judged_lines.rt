// What the lines of both ends are, as far as the rules ask.

use dme_line::{Kind, Tag};

/// What a line of a client is.
#[derive(Clone, Copy, Debug, PartialEq, Eq)]
pub enum Sent {
    /// It begins with no tag that a command can have.
    Untagged,
    /// A command of this profile.
    Command(Tag, Kind),
    /// A command of the interface that this profile does not carry out, and that changes neither tool nor frame.
    Standard(Tag),
    /// Another name.
    Unknown(Tag),
    /// A command of this profile with arguments that do not read, or under a tag of the other sort.
    Unread(Tag, Kind),
}

/// What the text of a data line reads as.
#[derive(Clone, Copy, Debug, PartialEq, Eq)]
pub enum Data {
    Point,
    Homed,
    Other,
}

/// The severity of an error, as its text says.
#[derive(Clone, Copy, Debug, PartialEq, Eq)]
pub enum Severity {
    /// 3, that of all errors of this profile: a server carries nothing more out before a `ClearAllErrors`.
    Three,
    Other,
}

/// The mark of a response, with what its data are.
#[derive(Clone, Copy, Debug, PartialEq, Eq)]
pub enum Reply {
    Received,
    Given(Data),
    Complete,
    Error(Severity),
}

/// What a line of a server is.
#[derive(Clone, Copy, Debug, PartialEq, Eq)]
pub enum Heard {
    /// No response.
    Other,
    Response(Tag, Reply),
}

/// The marks of responses.
#[derive(Clone, Copy)]
pub enum Mark {
    Received,
    Data,
    Complete,
    Error,
}
