// Why a call on open commands is refused.

ghost use Rattle.std.specs.Prelude.{◌≡◌};
ghost use Rattle.dme_tags.specs.Answers.{cause_of};

use protocol_model::Cause;
use std::alloc::AllocError;

/// Why a tag is not drawn, or a mark is unexpected (this profile).
#[derive(Clone, Copy, Debug, PartialEq, Eq)]
pub enum TagFault {
    /// G1: no command is held under the tag. This comes before all else.
    UnknownTag,
    /// G2: the mark may not come for the command now.
    OutOfOrder,
    /// G3: a `PtMeas` or `IsHomed` is complete without its data.
    NoData,
    /// G4: a `PtMeas` or `IsHomed` is given a second data line.
    SecondData,
    /// G5: all tags are held.
    TagsSpent,
    /// A growth was refused. The call may be made again.
    Memory,
}

impl TagFault {
    /// Why a client that meets this fault leaves its connection; none if memory ran out.
    pub fn cause(self) -> Option<Cause>
        ensures { result ≡ cause_of self }
    {
        match self {
            TagFault::UnknownTag => Some(Cause::UnknownTag),
            TagFault::OutOfOrder => Some(Cause::OutOfOrder),
            TagFault::NoData => Some(Cause::NoData),
            TagFault::SecondData => Some(Cause::SecondData),
            TagFault::TagsSpent => Some(Cause::TagsSpent),
            TagFault::Memory => None,
        }
    }
}

impl From<AllocError> for TagFault {
    ghost use Rattle.std.specs.Prelude.{◌≡◌};
    ghost use Rattle.dme_tags.specs.declared.faults.TagFault.TheVariants.{Memory};

    ghost from_gives = { λ _ e. e ≡ Memory };

    fn from(_error: AllocError) -> TagFault {
        TagFault::Memory
    }
}
