// Where a run is.

/// What a run asks for next.
#[derive(Clone, Copy, Debug, PartialEq, Eq)]
pub enum Stage {
    /// The log is opened, and it is said if it cannot be written.
    Logged,
    Warning,
    /// The time at which it begins to call its server.
    Beginning,
    /// The stop file, before its server is called.
    Peeking,
    /// The server is called.
    Connecting,
    /// The time, after a call that has failed.
    Elapsing,
    /// Nothing, until the server is called again.
    Pausing,
    /// How long reads and writes may wait.
    Limiting,
    /// The next text of the features file is made, and then it grows.
    MakingFeatures,
    BeginningFeatures,
    /// Likewise for the file of reported contacts.
    MakingContacts,
    BeginningContacts,
    /// The stop file, before bytes are received.
    Checking,
    /// The time, before bytes are received.
    Timing,
    /// Bytes are received.
    Receiving,
    /// Commands are sent.
    Sending,
    /// The operator is to confirm a pause by an empty line: its first byte, and the one after a CR.
    Awaiting,
    Returning,
    /// The server's errors, the lines that came or went, and what the operator is asked, are shown.
    Tracing,
    /// The time at which the lines did.
    Stamping,
    /// They are added to the log.
    Logging,
    /// The time of what is noted in the record.
    Noting,
    /// What the client has counted is added to the record; forced, if a feature is complete.
    Recording,
    Settling,
    /// It is added to the file of contacts.
    Reporting,
    /// The features that are complete are added to their file.
    Listing,
    /// They are shown.
    Showing,
    /// The features file gets its whole text.
    ReplacingFeatures,
    /// The report is printed.
    Printing,
    /// The server is left in order: how long its reads wait, nothing more is sent, and what still comes is dropped.
    Parting,
    Closing,
    Draining,
    /// The connection is left.
    Leaving,
    /// Files that did not grow are as they were.
    DiscardingFeatures,
    DiscardingContacts,
    /// Whether the record is whole; and if not, it gets its whole text.
    Standing,
    ReplacingRecord,
    /// The file of contacts gets its whole text.
    ReplacingContacts,
    /// What has failed is said, and what to do next.
    Ending,
    /// The last message, which needs no memory.
    Telling,
    /// Nothing more.
    Exiting,
}
