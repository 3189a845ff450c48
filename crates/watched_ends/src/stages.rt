// Where a session is.

/// What a session asks for.
#[derive(Clone, Copy, Debug, PartialEq, Eq)]
pub enum Stage {
    /// That a file is opened.
    Opening,
    /// The next bytes of a file.
    Reading,
    /// That notes are said, before the text is printed.
    Noting,
    /// That the text is printed.
    Printing,
    /// That a message is said, before it ends.
    Saying,
    /// Likewise, a message that needs no memory.
    Telling,
    /// The end.
    Exiting,
}
