// The rules, and how far a command is. A line without its end, and commands that only ask, break none.
//
// Two recordings without the order of their bytes do not show all. A line is then blamed only for what no order excuses: no reply before its
// command is found, nor a tag that was used again too early if all its uses end later, or no later line was answered.
// - An `EndSession` with an error does not end the session, nor does such a `StartSession` begin one.
// - After an error under E0000 it is not known which line was refused. From there on neither order nor data for a further use of a tag are
//   judged.
// - An error whose text does not begin with `Error(3,` may stop nothing.

/// A rule of the interface, as this profile reads it, that a line breaks.
#[derive(Clone, Copy, Debug, PartialEq, Eq)]
pub enum Rule {
    /// A line of the client begins with no tag that a command can have.
    NoTag,
    /// The tag of a line of the client was used before, and not each of its uses has ended. Without the order: the use before has no end, or
    /// this one was passed over, with an error under E0000 during the use before.
    TagInUse,
    /// The interface has no such command, as far as this profile knows.
    UnknownCommand,
    /// A command under an event tag, or an event command under another.
    WrongTag,
    /// The arguments of a command do not read.
    BadArguments,
    /// A command before a session begins, or after it has ended.
    NoSession,
    /// A session begins inside a session.
    SessionOpen,
    /// A command under a standard tag is received while one runs and 64 wait.
    QueueFull,
    /// A line of the server is no response.
    NotResponse,
    /// No command has the tag, and it is not E0000.
    UnknownTag,
    /// A mark for a command that the client had not sent by then.
    NotSent,
    /// `&` after another mark, `#` or `%` before any, or `#` after an error.
    OutOfOrder,
    /// A command that asks for data is complete, and they did not come.
    NoData,
    /// Data once more.
    SecondData,
    /// Data that the command does not ask for, or that do not read.
    OtherData,
    /// Data or the end of a command, or the end of an abort, with an earlier command still open.
    NotInTurn,
    /// The end of a command that an error barred, with no `ClearAllErrors` between.
    NotCleared,
    /// The end of a session, with a command in it that failed and has not ended.
    NoEnd,
    /// More than 65,536 bytes come before the next CR or LF.
    LineTooLong,
    /// LF without CR, or CR followed by something other than LF.
    BadByte,
}

/// How far a command is, by the marks that its server sent.
#[derive(Clone, Copy, Debug, PartialEq, Eq)]
pub enum Stage {
    Sent,
    Received,
    Given,
    Failed,
    Ended,
}

/// Which lines of a client are looked for.
#[derive(Clone, Copy, Debug, PartialEq, Eq)]
pub enum Sought {
    /// A command that is carried out in turn, and has neither failed nor ended.
    Open,
    /// Likewise, but one that has not ended.
    Unended,
    /// A `ClearAllErrors` that has neither failed nor ended.
    Clearing,
}

/// What data a command asks for.
#[derive(Clone, Copy, Debug, PartialEq, Eq)]
pub enum Asks {
    Nothing,
    Point,
    Homed,
    /// It is not known what it asks for.
    Anything,
}

/// What a server had done when a line came, the line among it.
#[derive(Clone, Copy, Default)]
pub struct Moment {
    /// How many lines there were.
    pub number: usize,
    /// How many lines it had refused without their tags.
    pub refusals: usize,
    /// How many commands under standard tags were received and had not ended.
    pub busy: usize,
    /// The last place of the client's that it had answered, or 0.
    pub farthest: usize,
}

/// A line that breaks a rule.
#[derive(Clone, Copy, Debug, PartialEq, Eq)]
pub struct Found {
    /// Its number, counted from 1.
    pub number: usize,
    pub rule: Rule,
}

/// How far all commands of a client are.
#[derive(Clone, Copy)]
pub struct Standing {
    /// The places of the first line of each sort that is looked for.
    pub waiting: usize,
    pub unended: usize,
    pub clearing: usize,
    /// Whether an error bars the first that is open.
    pub barred: bool,
    /// Whatever comes after that one, and before this place, is barred.
    pub reach: usize,
}
