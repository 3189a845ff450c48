// Where a relay is.

/// What it asks for next.
#[derive(Clone, Copy, Debug, PartialEq, Eq)]
pub enum RelayStage {
    /// The told file is locked, and its first text is made.
    Making,
    /// The port is listened on.
    Listening,
    /// What is in the folder for recordings.
    Listing,
    /// A file of a recording is made.
    Creating,
    /// The order of a recording gets its head.
    Heading,
    /// A file of a recording is removed.
    Removing,
    /// The told file is left as it was.
    Discarding,
    /// What was in the told file is set aside.
    SettingAside,
    /// The told file grows from now on.
    Beginning,
    /// The log is opened.
    Logged,
    /// The next client is taken.
    Accepting,
    /// Nothing, until it is looked for a client again.
    Pausing,
    /// The server is called.
    Connecting,
    /// Both ends are waited for together from now on.
    Joining,
    /// Bytes of the client are received.
    HearingClient,
    /// Bytes of the server are received.
    HearingServer,
    /// The lines that ended are shown.
    Tracing,
    /// The time at which they did.
    Stamping,
    /// They are added to the log.
    Logging,
    /// The bytes that came are kept.
    Saving,
    /// Which end they came from is kept.
    Noting,
    /// What the server has told is added to the told file.
    Telling,
    /// Bytes are sent on to the server.
    PassingUp,
    /// Nothing more is sent to the server.
    ClosingUp,
    /// Bytes are sent on to the client.
    PassingDown,
    /// Nothing more is sent to the client.
    ClosingDown,
    /// The time, since nothing has moved.
    Timing,
    /// Until something may move.
    Waiting,
    /// The told file is forced to the device.
    Forcing,
    /// A file of the recording is.
    Settling,
    /// Both ends are left.
    Leaving,
    /// A message is said, before what comes next.
    Saying,
    /// The last message, which needs no memory.
    Parting,
    /// Nothing more.
    Exiting,
}
