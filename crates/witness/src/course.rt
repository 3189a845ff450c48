// What a server has done, and for which commands.

ghost use Rattle.std.specs.Prelude.{◌≡◌, ◌<◌, ◌^◌, ◌∷◌, [], ℕ, Some, None, if◌then◌else◌, length, reverse, get_or, IfOk, OnOk};
ghost use Rattle.witness.specs.JudgementNames.{option_or};
ghost use Rattle.witness.specs.JudgedUses as spec;

use crate::judged_lines::{Heard, Reply, Sent};
use crate::rules::Moment;
use crate::tables::{later_uses, look, next_of, put};
use dme_line::Tag;
use std::alloc::{AllocError, Global};

/// What came for each command of the client, by the mark.
#[derive(Drop)]
pub(crate) struct Notes {
    pub(crate) received: Vec<Option<Moment>>,
    pub(crate) given: Vec<Option<Moment>>,
    pub(crate) complete: Vec<Option<Moment>>,
    pub(crate) error: Vec<Option<Moment>>,
    /// That it was received, by the count of these marks.
    pub(crate) counted: Vec<Option<Moment>>,
}

/// What a server has done so far.
#[derive(Drop)]
pub(crate) struct Course {
    /// For each line of the client, the next use of its tag.
    pub(crate) next: Vec<Option<usize>>,
    /// The use of each tag that has as many uses above as there were ends of the tag.
    pub(crate) ends: Vec<Option<usize>>,
    /// Likewise, as there were lines that it was received.
    pub(crate) receipts: Vec<Option<usize>>,
    /// The last end of each tag.
    pub(crate) closed: Vec<Option<usize>>,
    pub(crate) notes: Notes,
    pub(crate) moment: Moment,
    /// A line of it is no response.
    pub(crate) is_unclear: bool,
}

#[tactic(auto, using(crate::proofs::Moments::few_busy, crate::proofs::Moments::few_refused, crate::proofs::Lists::above_count))]
fn moment_after(
    up: &[Sent],
    above: &[Heard],
    before: Moment,
    heard: Heard,
    place: Option<usize>,
) -> Moment
    requires before { before ≡ spec.moment up.now (reverse above.now) }
    requires short { length above.now < 2 ^ 63 }
    requires place { place ≡ spec.use_under up.now (reverse above.now) heard }
    ensures { result ≡ spec.moment up.now (heard ∷ reverse above.now) }
{
    let mut moment = before;
    moment.number += 1;
    match heard {
        Heard::Response(Tag::Event(0), Reply::Error(_)) => moment.refusals += 1,
        Heard::Response(Tag::Std(_), Reply::Received) => moment.busy += 1,
        Heard::Response(Tag::Std(_), Reply::Complete) => {
            moment.busy = moment.busy.saturating_sub(1);
        }
        _ => {}
    }
    if let Some(at) = place
        && moment.farthest < at
    {
        moment.farthest = at;
    }
    moment
}

fn note(notes: &mut Vec<Option<Moment>>, place: Option<usize>, moment: Moment)
    ensures count { length notes.new.items ≡ length notes.old.items }
    ensures each { (at : ℕ) → at < length notes.old.items → get_or notes.new.items at None
        ≡ option_or (get_or notes.old.items at None)
        (if spec.is_at place at then Some moment else None) }
{
    let Some(at) = place else {
        return;
    };
    if at < notes.len() && notes[at].is_none() {
        notes[at] = Some(moment);
    }
}

impl Course {
    pub(crate) fn new(alloc: Global, up: &[Sent]) -> Result<Course, AllocError>
        ensures { IfOk result (spec.IsCourse up.now []) }
    {
        let (first, next) = later_uses(alloc, up)?;
        let count = up.len();
        Ok(Course {
            next,
            receipts: Vec::from_slice(alloc, first.as_slice())?,
            ends: first,
            closed: Vec::new(alloc),
            notes: Notes {
                received: vec![in alloc; None; count]?,
                given: vec![in alloc; None; count]?,
                complete: vec![in alloc; None; count]?,
                error: vec![in alloc; None; count]?,
                counted: vec![in alloc; None; count]?,
            },
            moment: Moment::default(),
            is_unclear: false,
        })
    }

    /// One line more. Fails only if out of memory.
    #[tactic(auto, using(crate::proofs::Notes::own, crate::proofs::Notes::other, crate::proofs::Links::linked, crate::proofs::Links::unlinked, crate::proofs::Links::closed_more, crate::proofs::Links::still_closed, crate::proofs::Lists::above_count))]
    pub(crate) fn hear(
        &mut self,
        up: &[Sent],
        above: &[Heard],
        heard: Heard,
    ) -> Result<(), AllocError>
        requires course { spec.IsCourse up.now (reverse above.now) self.old }
        requires short { length above.now < 2 ^ 63 }
        ensures { OnOk result (spec.IsCourse up.now (heard ∷ reverse above.now) self.new) }
    {
        let Heard::Response(tag, reply) = heard else {
            self.moment = moment_after(up, above, self.moment, heard, None);
            self.is_unclear = true;
            return Ok(());
        };
        let place = look(self.ends.as_slice(), tag);
        let counted = look(self.receipts.as_slice(), tag);
        let moment = moment_after(up, above, self.moment, heard, place);
        self.moment = moment;
        match reply {
            Reply::Received => {
                note(&mut self.notes.received, place, moment);
                note(&mut self.notes.counted, counted, moment);
                let after = next_of(self.next.as_slice(), counted);
                put(&mut self.receipts, tag, after)?;
                Ok(())
            }
            Reply::Given(_) => {
                note(&mut self.notes.given, place, moment);
                Ok(())
            }
            Reply::Complete => {
                note(&mut self.notes.complete, place, moment);
                let after = next_of(self.next.as_slice(), place);
                put(&mut self.ends, tag, after)?;
                put(&mut self.closed, tag, Some(above.len()))?;
                Ok(())
            }
            Reply::Error(_) => {
                note(&mut self.notes.error, place, moment);
                Ok(())
            }
        }
    }
}
