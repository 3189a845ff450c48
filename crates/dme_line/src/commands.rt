// Commands and their kinds.

ghost use Rattle.std.specs.Prelude.{◌≡◌, ◌≤◌, length};
ghost use Rattle.dme_line.specs.Kinds.{kind_of, kind_name, csy_name, is_event_kind};

use fixed_um::{Dir, Name, Point};

/// A coordinate system that a command can select: the machine's, or the part's that was set before.
#[derive(Clone, Copy, Debug, PartialEq, Eq)]
pub enum Csy {
    MachineCsy,
    PartCsy,
}

impl Csy {
    /// The name, as it is written.
    pub(crate) fn name(self) -> &'static [u8]
        ensures name { result.now ≡ csy_name self }
        ensures short { length result.now ≤ 10 }
    {
        match self {
            Csy::MachineCsy => b"MachineCsy",
            Csy::PartCsy => b"PartCsy",
        }
    }
}

/// A command of the I++ DME Interface version 1 that this profile knows. Coordinates are in the selected coordinate system.
#[derive(Debug, Drop)]
pub enum Command {
    StartSession,
    EndSession,
    ClearAllErrors,
    /// Asks whether the machine is homed, with the answer as its data.
    IsHomed,
    Home,
    /// Asks for the three coordinates as the data of each touch.
    OnPtMeasReport,
    GoTo(Point),
    /// A touch at a point, with the direction if one is given.
    PtMeas(Point, Option<Dir>),
    ChangeTool(Name),
    /// The machine's zero point in part coordinates: a part position is the machine position plus these lengths (this profile).
    SetCsyTransformation(Point),
    SetCoordSystem(Csy),
    /// Stops everything. The one event command.
    AbortE,
}

/// The kind of a command, without its arguments.
#[derive(Clone, Copy, Debug, PartialEq, Eq)]
pub enum Kind {
    StartSession,
    EndSession,
    ClearAllErrors,
    IsHomed,
    Home,
    OnPtMeasReport,
    GoTo,
    PtMeas,
    ChangeTool,
    SetCsyTransformation,
    SetCoordSystem,
    AbortE,
}

impl Command {
    /// The command's kind.
    pub fn kind(&self) -> Kind
        ensures { result ≡ kind_of self.now }
    {
        match self {
            Command::StartSession => Kind::StartSession,
            Command::EndSession => Kind::EndSession,
            Command::ClearAllErrors => Kind::ClearAllErrors,
            Command::IsHomed => Kind::IsHomed,
            Command::Home => Kind::Home,
            Command::OnPtMeasReport => Kind::OnPtMeasReport,
            Command::GoTo(_) => Kind::GoTo,
            Command::PtMeas(_, _) => Kind::PtMeas,
            Command::ChangeTool(_) => Kind::ChangeTool,
            Command::SetCsyTransformation(_) => Kind::SetCsyTransformation,
            Command::SetCoordSystem(_) => Kind::SetCoordSystem,
            Command::AbortE => Kind::AbortE,
        }
    }
}

impl Kind {
    pub(crate) fn is_event(self) -> bool
        ensures { result ≡ is_event_kind self }
    {
        matches!(self, Kind::AbortE)
    }

    /// The name, as it is written.
    pub(crate) fn name(self) -> &'static [u8]
        ensures name { result.now ≡ kind_name self }
        ensures short { length result.now ≤ 20 }
    {
        match self {
            Kind::StartSession => b"StartSession",
            Kind::EndSession => b"EndSession",
            Kind::ClearAllErrors => b"ClearAllErrors",
            Kind::IsHomed => b"IsHomed",
            Kind::Home => b"Home",
            Kind::OnPtMeasReport => b"OnPtMeasReport",
            Kind::GoTo => b"GoTo",
            Kind::PtMeas => b"PtMeas",
            Kind::ChangeTool => b"ChangeTool",
            Kind::SetCsyTransformation => b"SetCsyTransformation",
            Kind::SetCoordSystem => b"SetCoordSystem",
            Kind::AbortE => b"AbortE",
        }
    }
}
