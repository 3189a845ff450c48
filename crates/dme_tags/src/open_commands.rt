// The open commands of a client.

ghost use Rattle.std.specs.Prelude.{◌≡◌, ◌↔◌, Option, Ok, Some, None, ◌≤◌, ◌⊎◌, ◌==◌, true, false, not, IsErrOf, IsOk, IfOk, IfErr, OnOk, OnErr};
ghost use Rattle.dme_tags.specs.Names.{IsTagOf, Mark, Effect, count_open, is_asking, is_held, cause_of, effect_of, effect_heard, is_counted, Draws, IsRefused, Refuses, has_its_data, may_be_given, IsEnding, heard, held_beside, kind_under, next_tag, none_open, number_of, with_drawn, ArePassedOver, IsNext, IsSpentFor, AwaitsData, HasData, IsUnread};
ghost use Rattle.dme_tags.specs.Limits.{last_number};

use crate::commands::Commands;
use crate::drawing::{Sort, next_tag};
use crate::endings::Ended;
use crate::faults::TagFault;
use crate::marks::{end, end_of, fail, give, kind_of, receive};
use dme_line::{Kind, Tag};
use protocol_model::Datum;
use std::alloc::Global;
use std::marker::Model;

/// The commands that a client has sent and whose `%` it has not read, under standard tags and under event tags, each in sending
/// order (this profile). Contracts see them as `OpenValue`, with the numbers of the tags that were drawn last and whether a standard
/// command has failed since the plan began.
///
/// A tag is held from `draw` until the `%` of its command was read. Any number of commands may be open; how many a client keeps open
/// is its own affair.
#[derive(Debug, Drop)]
pub struct Open {
    standard: Commands,
    event: Commands,
    failed: bool,
    drawn: u32,
    event_drawn: u16,
}

impl Model for Open {
    ghost use Rattle.std.specs.Prelude.{◌≤◌};
    ghost use Rattle.dme_tags.specs.Limits.{last_number};
    ghost use Rattle.dme_tags.specs.Opened.{OpenValue};

    ghost Value = { OpenValue };

    ghost use Rattle.dme_tags.specs.Data.{AreFit};

    ghost view = { λ o. record {
      standard = o.standard;
      event = o.event;
      failed = o.failed;
      drawn = o.drawn;
      event_drawn = o.event_drawn;
    } };

    ghost invariant = { λ o. (o.drawn ≤ last_number) × (o.event_drawn ≤ last_number)
        × AreFit o.standard × AreFit o.event };
}

impl Open {
    /// Nothing is open, and no tag was drawn. Does not allocate.
    pub fn new(alloc: Global) -> Open
        ensures { result ≡ none_open }
    {
        Open {
            standard: Commands::new(alloc),
            event: Commands::new(alloc),
            failed: false,
            drawn: 0,
            event_drawn: 0,
        }
    }

    /// Discards all open commands for a new connection, on which the tags begin at number 1 again. Does not allocate.
    pub fn clear(&mut self)
        ensures { self.new ≡ none_open }
    {
        self.standard.clear();
        self.event.clear();
        self.begin_plan();
        self.drawn = 0;
        self.event_drawn = 0;
    }

    /// The tag that `draw` would give to a command of this kind. Draws nothing and does not allocate.
    ///
    /// The only refusal is `TagsSpent` (G5).
    pub fn next_tag(&self, kind: Kind) -> Result<Tag, TagFault>
        ensures next { IfOk result (λ tag. next_tag self.now kind ≡ Some tag) }
        ensures spent { OnErr result (next_tag self.now kind ≡ None) }
        ensures named { IfErr result (λ fault. fault ≡ TagFault.TagsSpent) }
        ensures tag { IfOk result (λ tag. IsTagOf kind tag × (number_of tag ≤ last_number)) }
        ensures fresh { IfOk result (λ tag. is_held tag (held_beside tag self.now) ≡ false) }
        ensures all_held { IsErrOf result TagFault.TagsSpent ↔ IsSpentFor kind self.now }
        ensures passed { IfOk result (λ tag. ArePassedOver tag self.now) }
    {
        match Sort::of(kind) {
            Sort::Standard => next_tag(&self.standard, Sort::Standard, self.drawn),
            Sort::Event => next_tag(&self.event, Sort::Event, u32::from(self.event_drawn)),
        }
    }

    /// Draws a tag for a command of this kind, which is open under it from now on: an event tag for an abort, a standard tag for any
    /// other. Tags are drawn with the numbers 1 to 9999 one after the other, again from 1 on after the last, and those that are held
    /// are passed over (this profile).
    ///
    /// `TagsSpent` (G5) if all of them are held. `Memory` if a growth was refused; nothing is drawn then. Only this
    /// growth can fail if `next_tag` has answered a tag.
    pub fn draw(&mut self, kind: Kind) -> Result<Tag, TagFault>
        ensures next { IfOk result (λ tag. next_tag self.old kind ≡ Some tag) }
        ensures drawn { Draws result self.old self.new kind }
        ensures spent { IsErrOf result TagFault.TagsSpent ↔ (next_tag self.old kind ≡ None) }
        ensures named { IfErr result (λ fault. (fault ≡ TagFault.TagsSpent)
            ⊎ (fault ≡ TagFault.Memory)) }
        ensures tag { IfOk result (λ tag. IsTagOf kind tag × (number_of tag ≤ last_number)) }
        ensures fresh { IfOk result (λ tag. is_held tag (held_beside tag self.old) ≡ false) }
        ensures all_held { IsErrOf result TagFault.TagsSpent ↔ IsSpentFor kind self.old }
        ensures passed { IfOk result (λ tag. ArePassedOver tag self.old) }
    {
        let tag = self.next_tag(kind)?;
        match tag {
            Tag::Std(number) => {
                self.standard.push(tag, kind)?;
                self.drawn = number;
            }
            Tag::Event(number) => {
                self.event.push(tag, kind)?;
                self.event_drawn = number;
            }
        }
        Ok(tag)
    }

    /// The kind of the command that is held under a tag; `None` if no command is. Does not allocate.
    pub fn kind_of(&self, tag: Tag) -> Option<Kind>
        ensures { result ≡ kind_under tag self.now }
    {
        match tag {
            Tag::Std(_) => kind_of(&self.standard, tag),
            Tag::Event(_) => kind_of(&self.event, tag),
        }
    }

    /// Takes in that `&` was read under a tag. Does not allocate.
    ///
    /// `UnknownTag` (G1) if no command is held under it; `OutOfOrder` (G2) where a mark was read for the command before.
    pub fn received(&mut self, tag: Tag) -> Result<(), TagFault>
        ensures due { IsOk result ↔ IsUnread tag self.old }
        ensures unknown { IsErrOf result TagFault.UnknownTag ↔ (kind_under tag self.old ≡ None) }
        ensures named { IfErr result (λ fault. (fault ≡ TagFault.UnknownTag)
            ⊎ (fault ≡ TagFault.OutOfOrder)) }
        ensures ok { OnOk result (heard self.old tag Mark.Ack ≡ Ok (self.new, Effect.Quiet)) }
        ensures refused { Refuses result self.old self.new (heard self.old tag Mark.Ack) }
    {
        match tag {
            Tag::Std(_) => receive(&mut self.standard, tag),
            Tag::Event(_) => receive(&mut self.event, tag),
        }
    }

    /// Takes in that these data were read under a tag. Where a `PtMeas` is held under it the caller must give a point, and where an
    /// `IsHomed` is, whether the machine is homed. Does not allocate.
    ///
    /// `UnknownTag` (G1) if no command is held under it; `SecondData` (G4) where the command, a `PtMeas` or `IsHomed` at the front, has
    /// data already; `OutOfOrder` (G2) where it asks for no data, is not at the front, not yet received, or failed.
    #[inline(always)]
    pub fn data(&mut self, tag: Tag, datum: Datum) -> Result<(), TagFault>
        requires { may_be_given (kind_under tag self.old) datum ≡ true }
        ensures due { IsOk result ↔ AwaitsData tag self.old }
        ensures unknown { IsErrOf result TagFault.UnknownTag ↔ (kind_under tag self.old ≡ None) }
        ensures second { IsErrOf result TagFault.SecondData ↔ HasData tag self.old }
        ensures named { IfErr result (λ fault. (fault ≡ TagFault.UnknownTag)
            ⊎ (fault ≡ TagFault.OutOfOrder)
            ⊎ (fault ≡ TagFault.SecondData)) }
        ensures ok { OnOk result (heard self.old tag (Mark.Given datum)
            ≡ Ok (self.new, Effect.Quiet)) }
        ensures refused { Refuses result self.old self.new (heard self.old tag (Mark.Given datum)) }
    {
        match tag {
            Tag::Std(_) => give(&mut self.standard, !self.failed, tag, datum),
            Tag::Event(_) => give(&mut self.event, true, tag, datum),
        }
    }

    /// Takes in that `!` was read under a tag: the command has failed, and a further `!` of it changes nothing. Does not allocate.
    ///
    /// `UnknownTag` (G1) if no command is held under it.
    pub fn failed(&mut self, tag: Tag) -> Result<(), TagFault>
        ensures unknown { IsErrOf result TagFault.UnknownTag ↔ (kind_under tag self.old ≡ None) }
        ensures named { IfErr result (λ fault. fault ≡ TagFault.UnknownTag) }
        ensures ok { OnOk result ((heard self.old tag Mark.Error ≡ Ok (self.new, Effect.Failure))
            ⊎ (heard self.old tag Mark.Error ≡ Ok (self.new, Effect.Quiet))) }
        ensures refused { Refuses result self.old self.new (heard self.old tag Mark.Error) }
    {
        match tag {
            Tag::Std(_) => {
                if fail(&mut self.standard, tag)? {
                    self.failed = true;
                }
            }
            Tag::Event(_) => {
                let _ = fail(&mut self.event, tag)?;
            }
        }
        Ok(())
    }

    /// How `complete` would answer. Changes nothing and does not allocate.
    #[tactic(auto, using(crate::proofs::Effects::standard_effect, crate::proofs::Effects::event_effect))]
    pub fn end_of(&self, tag: Tag) -> Result<Ended, TagFault>
        ensures ending { IsEnding tag self.now result }
        ensures ok { IfOk result (λ ended. effect_heard (heard self.now tag Mark.Done)
            ≡ Some (effect_of ended)) }
        ensures data { IfOk result (λ ended. has_its_data ended ≡ true) }
        ensures refused { IfErr result (λ fault. IsRefused (heard self.now tag Mark.Done)
            (cause_of fault)) }
    {
        match tag {
            Tag::Std(_) => end_of(&self.standard, !self.failed, tag),
            Tag::Event(_) => end_of(&self.event, true, tag),
        }
    }

    /// Takes in that `%` was read under a tag, which is free from now on: the command counts, a `PtMeas` with its point and an `IsHomed`
    /// with whether the machine is homed, or is closed where it had failed. Does not allocate.
    ///
    /// `UnknownTag` (G1) if no command is held under it; `NoData` (G3) where a `PtMeas` or `IsHomed` at the front was received and has no
    /// data; `OutOfOrder` (G2) where the command has not failed and is not at the front, or was not received. So commands count in sending
    /// order, standard ones and event ones each.
    #[inline(always)]
    pub fn complete(&mut self, tag: Tag) -> Result<Ended, TagFault>
        ensures ending { IsEnding tag self.old result }
        ensures ok { IfOk result (λ ended. heard self.old tag Mark.Done
            ≡ Ok (self.new, effect_of ended)) }
        ensures data { IfOk result (λ ended. has_its_data ended ≡ true) }
        ensures refused { Refuses result self.old self.new (heard self.old tag Mark.Done) }
        ensures in_order { IfOk result (λ ended. is_counted ended ≡ true → IsNext tag self.old) }
    {
        match tag {
            Tag::Std(_) => end(&mut self.standard, !self.failed, tag),
            Tag::Event(_) => end(&mut self.event, true, tag),
        }
    }

    /// How many standard commands are open: neither their `!` nor their `%` was read. Does not allocate.
    pub fn count(&self) -> usize
        ensures { result ≡ count_open self.now.standard }
    {
        self.standard.count_open()
    }

    /// Whether an `IsHomed` is open: neither its `!` nor its `%` was read. No command is due meanwhile. Does not allocate.
    pub fn is_asking(&self) -> bool
        ensures { result ≡ is_asking self.now.standard }
    {
        self.standard.is_asking()
    }

    /// Whether an event command is open. Does not allocate.
    pub fn event_open(&self) -> bool
        ensures { result ≡ not (count_open self.now.event == 0) }
    {
        self.event.count_open() != 0
    }

    /// Whether a standard command has failed since the plan began. Does not allocate.
    pub fn has_failed(&self) -> bool
        ensures { result ≡ self.now.failed }
    {
        self.failed
    }

    /// Begins a plan: no command of it has failed yet. Commands that have failed and whose `%` is on its way keep their tags; a client
    /// begins a plan only while no standard command is open. Does not allocate.
    pub fn begin_plan(&mut self)
        ensures { self.new ≡ record self.old { failed = false } }
    {
        self.failed = false;
    }
}
