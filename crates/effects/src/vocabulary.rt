// What is asked of the outside, and what comes of it.

/// A file that a command knows by what it is for.
#[derive(Clone, Copy, Debug, PartialEq, Eq)]
pub enum Slot {
    /// The bytes of a recorded client.
    Up,
    /// The bytes of a recorded server.
    Down,
    /// The order in which they came.
    Order,
}

/// A file that grows, likewise.
#[derive(Clone, Copy, Debug, PartialEq, Eq)]
pub enum Growth {
    /// What a server has done.
    Contacts,
    /// What a server has told.
    Told,
    /// The record of a run.
    Record,
    /// The features that a run has completed.
    Features,
}

/// The other end of a connection.
#[derive(Clone, Copy, Debug, PartialEq, Eq)]
pub enum Peer {
    Client,
    Server,
}

/// Where the bytes of a file come from.
#[derive(Clone, Copy, Debug)]
pub enum Place<'a> {
    /// The file of this name.
    Named(&'a str),
    /// Standard input.
    Input,
    /// There are none.
    Nothing,
}

/// One thing that is asked of the outside.
#[derive(Clone, Copy, Debug)]
pub enum Effect<'a> {
    /// A file is opened for reading.
    Open(Slot, Place<'a>),
    /// The next bytes of a file. One that was not opened has none.
    Read(Slot),
    /// The next byte of standard input.
    Byte,
    /// Whether something has this name.
    Exists(&'a str),
    /// Whether a plain file has this name, or nothing.
    Look(&'a str),
    /// The place that a file of this name has or would have, without links. `Found` for a folder, a device or a pipe.
    Place(&'a str),
    /// The device of the file of this name, and its number there.
    Node(&'a str),
    /// The file of this name, which may be made for that, is locked.
    Hold(Growth, &'a str),
    /// The file that is locked has this text from now on, of which it has that many bytes, and grows; what it has after the second count of
    /// bytes is cut off.
    Fill(Growth, &'a [u8], usize, usize),
    /// The file of the first name, which may be made for that, is locked, and so is a new one of the second name, with this text, forced to
    /// the device. `Found` if the first has more than the first bytes of the text.
    Make(Growth, &'a str, &'a str, &'a [u8]),
    /// Both are as they were.
    Discard(Growth),
    /// The first file gets this name.
    SetAside(Growth, &'a str),
    /// The second file takes the name of the first, and grows from now on.
    Begin(Growth),
    /// This text is added to the file that grows.
    Append(Growth, &'a [u8]),
    /// Likewise, and all of the file is forced to the device.
    Keep(Growth, &'a [u8]),
    /// Whether the file that grows still has its name, and that many bytes.
    Stands(Growth, usize),
    /// The file of the first name has this text from now on, through one of the second name if it is a plain file.
    Replace(&'a str, &'a str, &'a [u8]),
    /// The names of what is in a folder, each with a `/` after it.
    Names(&'a str),
    /// A new file of this name is made, and written from now on.
    Create(Slot, &'a str),
    /// These bytes are added to it.
    Save(Slot, &'a [u8]),
    /// All of it is forced to the device.
    Settle(Slot),
    /// The file of this name is removed.
    Remove(&'a str),
    /// The log, a file of this name, is opened for adding, and made if there is none.
    Extend(&'a str),
    /// This text is added to it.
    Add(&'a [u8]),
    /// The present time as text (RFC 3339, in UTC, with milliseconds).
    Stamp,
    /// The milliseconds since the first time that this is asked.
    Now,
    /// Nothing, for that many milliseconds.
    Sleep(u64),
    /// A port of this address is listened on, whose connections are waited for or not.
    Listen(&'a str, u16, bool),
    /// The next connection is taken, whose reads wait for that many milliseconds, and whose writes for that many seconds. `Nothing` if none
    /// has come.
    Accept(Option<u64>, Option<u32>),
    /// A server of this host is called at this port, for at most that many milliseconds.
    Connect(&'a str, u16, Option<u64>),
    /// The reads of a peer wait for that many milliseconds, and its writes for that many seconds.
    Limit(Peer, Option<u64>, Option<u32>),
    /// From now on the connections of both peers are waited for together.
    Join,
    /// Until something may have come from either peer, or may be taken by it, or that many milliseconds are over.
    Wait(Option<u64>),
    /// The next bytes of a peer. `Nothing` if none have come for as long as its reads wait.
    Receive(Peer),
    /// These bytes are sent to a peer. `Nothing` if none were taken for as long as its writes wait.
    Send(Peer, &'a [u8]),
    /// As many of these bytes are sent to a peer as it takes at once.
    Pass(Peer, &'a [u8]),
    /// Nothing more is sent to a peer.
    Close(Peer),
    /// All connections are left.
    Leave,
    /// Printed on standard output.
    Print(&'a [u8]),
    /// Said on standard error.
    Say(&'a str),
    /// The program ends with this status. Nothing comes after it.
    Exit(u8),
}

/// Why an effect was not carried out.
#[derive(Clone, Copy, Debug, PartialEq, Eq)]
pub enum Cause {
    /// The system says nothing that helps.
    Unknown,
    /// A file is locked.
    Locked,
    /// A file is a link.
    Link,
    /// A file is a folder.
    Folder,
    /// A file is a device or a pipe.
    Device,
    /// The place of a new file is taken by what is no plain file.
    Taken,
    /// A file does not have its name any more.
    Renamed,
    /// The device is full.
    Full,
    /// It is not permitted.
    Forbidden,
    /// Memory ran out.
    Memory,
    /// A port is in use.
    InUse,
    /// A connection was reset.
    Reset,
    /// A connection was refused.
    Refused,
    /// A connection took too long.
    TimedOut,
    /// A host cannot be reached.
    Unreachable,
    /// A signal came in between.
    Interrupted,
    /// A host has no address.
    UnknownHost,
}

/// What came of an effect.
#[derive(Clone, Copy, Debug)]
pub enum Answer<'a> {
    /// It was carried out, all of it.
    Done,
    /// These bytes were read, at least one.
    Bytes(&'a [u8]),
    /// There are no more bytes.
    End,
    /// There is no such file.
    Missing,
    /// There is more than was looked for.
    Found,
    /// Nothing has come yet.
    Nothing,
    /// A number of milliseconds.
    At(u64),
    /// That many bytes were taken.
    Took(usize),
    /// It was not carried out, or only in part.
    Failed(Cause),
    /// Memory ran out.
    Short,
}
