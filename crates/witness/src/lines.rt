// Lines of both ends of a connection, as the witness reads them, and what is reported of them.

use contact_ledger::Act;
use dme_line::{Command, Csy, Tag, Text};
use fixed_um::{Dir, Frame, Name, Point};
use protocol_model::Datum;

/// What a line of a client that has a tag asks for, as far as this profile knows it.
#[derive(Debug, Drop)]
pub enum SentCommand {
    /// A command of this profile.
    Known(Command),
    /// A command of other servers that only asks: it changes neither tool nor frame.
    Asking,
    /// Any other line with a tag: it may change the tool and the frame.
    Foreign(Text),
}

/// What a response is for the command under its tag.
#[derive(Clone, Copy, Debug, PartialEq, Eq)]
pub enum Heard {
    Received,
    Given(Datum),
    /// Data that the command does not ask for, or that do not read.
    Unread,
    Complete,
    Failed,
}

/// How far a command is, by the marks that were read for it: none, `&`, or `&` and its data.
#[derive(Clone, Copy, Debug, PartialEq, Eq)]
pub enum Stage {
    Sent,
    Received,
    Given(Datum),
    /// It failed, or broke a rule of marks.
    Lost,
}

/// A rule of marks or of turns that a line of a server breaks.
#[derive(Clone, Copy, Debug, PartialEq, Eq)]
pub enum Rule {
    /// The mark is unexpected there.
    OutOfOrder,
    /// A command that asks for data is complete, and they did not come.
    NoData,
    /// Data once more.
    SecondData,
    /// Data that the command does not ask for, or that do not read.
    OtherData,
    /// Data or the end of a command, while one that was sent before it has neither failed nor ended.
    NotInTurn,
    /// More lines of the client are open than a witness keeps: the line of this tag is the last, and nothing more of the connection is reported.
    TooMany,
    /// Only in texts of earlier versions: no command is open under the tag.
    UnknownTag,
    /// Only in texts of earlier versions: which of two commands under the tag ends is not known.
    TagInUse,
}

/// What a mark does to a command of this profile.
#[derive(Clone, Copy, Debug, PartialEq, Eq)]
pub enum Step {
    /// Nothing: an error of it was read before, or a rule was broken.
    Stays,
    Comes(Stage),
    Fails,
    /// The mark breaks a rule. What the command does is not reported.
    Breaks(Rule),
    /// It is complete, with these data.
    Counts(Option<Datum>),
}

/// How far a change of tool or frame is: no mark, `&`, or `&` and then `%` were read of it.
#[derive(Clone, Copy, Debug, PartialEq, Eq)]
pub enum Progress {
    Sent,
    Begun,
    Done,
}

/// A change of tool or frame that may hold.
#[derive(Clone, Copy, Debug, PartialEq, Eq)]
pub struct Standing {
    /// The number of its line among those of the client, from 0.
    pub line: u64,
    /// The line that was open last under its tag when it was sent.
    pub rival: Option<u64>,
    pub progress: Progress,
}

/// What may be known for a line, from the changes above it. None: it is unknown.
#[derive(Debug, Drop)]
pub struct Known {
    /// The tool that was changed to last.
    pub tool: Option<(Name, Standing)>,
    /// The coordinate system that was selected last.
    pub csy: Option<(Csy, Standing)>,
    /// The place of the part's zero point, in machine axes, that was stored last before that selection.
    pub part: Option<(Point, Standing)>,
    /// The one that was stored last.
    pub zero: Option<(Point, Standing)>,
}

/// What happens to the changes that may hold.
#[derive(Clone, Copy, Debug, PartialEq, Eq)]
pub enum Renewal {
    /// A fault: those that have begun are lost.
    Fault,
    /// A mark is read for the line of this number.
    Mark(u64, Heard),
    /// The data or the end of a line that stands below them: those that are not done are lost for it.
    Answer,
}

/// A line of a client whose end was not read.
#[derive(Debug, Drop)]
pub struct Use {
    pub tag: Tag,
    pub command: SentCommand,
    /// The number of its line among those of the client.
    pub line: u64,
    pub stage: Stage,
    /// Whether an error was read for it.
    pub has_failed: bool,
    /// The line that was open last under its tag when it was sent.
    pub rival: Option<u64>,
    pub known: Known,
}

/// One of the two ends of a connection.
#[derive(Clone, Copy, Debug, PartialEq, Eq)]
pub enum Side {
    Client,
    Server,
}

/// What a witness reports.
#[derive(Debug, Drop)]
pub enum Reported {
    /// The server reported that it did this.
    Did(Act),
    /// Likewise a move, in a frame that is not known.
    MovedSomewhere(Point),
    /// Likewise that a frame is selected, which is not known.
    FramedSomehow,
    /// Likewise a touch, with a tool or in a frame that is not known.
    Touched {
        target: Point,
        dir: Option<Dir>,
        tool: Option<Name>,
        frame: Option<Frame>,
        point: Point,
    },
    /// A line that this profile does not know. One of the client under a standard tag is reported as soon as the server answers it.
    Other(Side, Text),
    /// A line of the server that belongs to no command.
    Unasked(Text),
    /// A line of the server that breaks a rule, by its tag.
    Broken(Rule, Tag),
    /// The connection was opened.
    Opened,
    /// The connection was left.
    Left,
}
