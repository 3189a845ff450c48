// Where a session is.

/// What it asks for next, if the file of contacts or the log is named, or a time limit or a stop file.
#[derive(Clone, Copy, Debug, PartialEq, Eq)]
pub enum Stage {
    /// The log is opened.
    Logged,
    /// Whether the contacts file may grow.
    Looking,
    /// It is locked, and its next text is made.
    Making,
    /// The port is listened on.
    Listening,
    /// The contacts file is left as it was, since the port is not had.
    Discarding,
    /// What was in the contacts file is set aside.
    SettingAside,
    /// The contacts file grows from now on.
    Beginning,
    /// The stop file, before a connection is taken.
    Peeking,
    /// The next connection is taken.
    Accepting,
    /// Nothing, until it is looked for a connection again.
    Pausing,
    /// The stop file, before bytes are received.
    Checking,
    /// The time, before bytes are received.
    Timing,
    /// Bytes are received.
    Receiving,
    /// The lines that came or went are shown.
    Tracing,
    /// The time at which they did.
    Stamping,
    /// They are added to the log.
    Logging,
    /// What the server has done is added to the contacts file.
    Keeping,
    /// What it answered is sent.
    Sending,
    /// The connection is left.
    Leaving,
    /// The contacts file gets its whole text.
    Replacing,
    /// The contacts are printed.
    Printing,
    /// A message is said, before what comes next.
    Saying,
    /// The last message, which needs no memory.
    Telling,
    /// Nothing more.
    Exiting,
}
