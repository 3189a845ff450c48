// How many lines of each sort there are.

ghost use Rattle.std.specs.Prelude.{◌≡◌, count_by, map, IfOk};
ghost use Rattle.witness.specs.Counts as spec;

use crate::judged_lines::{Heard, Mark, Reply, Sent};
use dme_line::Kind;
use std::alloc::{AllocError, Global};

/// The commands of this profile, in the order of their counts.
pub const KINDS: [Kind; 12] = [
    Kind::StartSession,
    Kind::EndSession,
    Kind::ClearAllErrors,
    Kind::IsHomed,
    Kind::Home,
    Kind::OnPtMeasReport,
    Kind::GoTo,
    Kind::PtMeas,
    Kind::ChangeTool,
    Kind::SetCsyTransformation,
    Kind::SetCoordSystem,
    Kind::AbortE,
];

fn names(kind: Kind, sent: &Sent) -> bool
    ensures { result ≡ spec.names kind sent.now }
{
    matches!(sent, Sent::Command(_, named) | Sent::Unread(_, named) if *named == kind)
}

fn named_none(up: &[Sent]) -> usize
    ensures { result ≡ count_by spec.names_none up.now }
{
    let is_other = |sent: &&Sent| !matches!(sent, Sent::Command(_, _) | Sent::Unread(_, _));
    up.iter().filter(is_other).count()
}

fn kind_counts(alloc: Global, up: &[Sent]) -> Result<Vec<usize>, AllocError>
    ensures { IfOk result (λ counts. counts.items ≡ map (spec.named up.now) spec.kinds) }
{
    KINDS
        .iter()
        .map(|kind| up.iter().filter(|sent| names(*kind, sent)).count())
        .collect(alloc)
}

/// Lines of the client by command, and last those of no command of this profile. Fails only if out of memory.
pub(crate) fn client_counts(alloc: Global, up: &[Sent]) -> Result<Vec<usize>, AllocError>
    ensures { IfOk result (λ counts. counts.items ≡ spec.client_counts up.now) }
{
    let mut counts = kind_counts(alloc, up)?;
    counts.push(named_none(up))?;
    Ok(counts)
}

/// The marks of responses, in the order of their counts.
const MARKS: [Mark; 4] = [Mark::Received, Mark::Data, Mark::Complete, Mark::Error];

fn is_marked(mark: Mark, heard: &Heard) -> bool
    ensures { result ≡ spec.is_marked mark heard.now }
{
    matches!(
        (mark, heard),
        (Mark::Received, Heard::Response(_, Reply::Received))
            | (Mark::Data, Heard::Response(_, Reply::Given(_)))
            | (Mark::Complete, Heard::Response(_, Reply::Complete))
            | (Mark::Error, Heard::Response(_, Reply::Error(_)))
    )
}

pub(crate) fn server_counts(alloc: Global, down: &[Heard]) -> Result<Vec<usize>, AllocError>
    ensures { IfOk result (λ counts. counts.items ≡ spec.server_counts down.now) }
{
    MARKS
        .iter()
        .map(|mark| down.iter().filter(|heard| is_marked(*mark, heard)).count())
        .collect(alloc)
}
