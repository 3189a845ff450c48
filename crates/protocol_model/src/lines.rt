// Lines as values.

use dme_line::{Command, Kind, Tag};

/// A command under its tag (I++ DME Interface version 1).
#[derive(Debug, Drop)]
pub struct Line {
    pub tag: Tag,
    pub command: Command,
}

/// Why what was read under a tag is not a command (this profile).
#[derive(Clone, Copy, Debug, PartialEq, Eq)]
pub enum Misread {
    /// The name is unknown.
    UnknownCommand,
    /// The arguments of this kind of command don't read, or the tag is not of the command's kind.
    BadArguments(Kind),
}

/// What waits at a server: what was read under a tag, a command, or why it is not one (this profile).
#[derive(Debug, Drop)]
pub struct Waiting {
    pub tag: Tag,
    pub reading: Result<Command, Misread>,
}
