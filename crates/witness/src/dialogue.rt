// The lines of both ends of a connection, one at a time.

ghost use Rattle.std.specs.Prelude.{◌≡◌, ◌<◌, ◌++◌, ◌^◌, ◌+◌, [], length, map, slice_get, IfOk, IfSome, OnOk, OnErr, Some, true, vec_len, vec_capacity};
ghost use Rattle.witness.specs.Dialogues as spec;
ghost use Rattle.witness.specs.Names.{Leads, the_mark, client_line, server_line, signal_of, all_renewed, is_foreign};

use crate::asking::sent;
use crate::known::{below, fresh, nothing, renew};
use crate::lines::{Heard, Known, Renewal, Reported, Rule, SentCommand, Side, Stage, Use};
use crate::marks::{heard_as, is_end, is_foreign, reported_by};
use crate::uses::{forget, is_out_of_turn, known_after, last_under, mark_all, renew_all};
use dme_line::{MarkSlice, Tag, Text, cut_response};
use std::alloc::{AllocError, Global};
use std::marker::Model;
use std::mem::replace;

/// The lines of both ends of a connection, and what is reported of them. Contracts see the lines of the client that are open, what may be known
/// for the next, and what was reported and not taken.
#[derive(Drop)]
pub struct Dialogue {
    alloc: Global,
    ordered: bool,
    lines: u64,
    uses: Vec<Use>,
    events: Vec<u16>,
    crossed: bool,
    known: Known,
    reported: Vec<Reported>,
}

impl Model for Dialogue {
    ghost use Rattle.witness.specs.Dialogues as dialogues;

    ghost Value = { dialogues.Dialogue };

    ghost view = { λ d. record { ordered = d.ordered; lines = d.lines; uses = d.uses.items; events = d.events.items; crossed = d.crossed; known = d.known; reported = d.reported.items } };
}

fn note_event(events: &mut Vec<u16>, tag: Tag)
    requires { vec_len events.old < vec_capacity events.old }
    ensures { events.new.items ≡ spec.with_event tag events.old.items }
{
    if let Tag::Event(number) = tag
        && !events.as_slice().contains(&number)
    {
        events.push_reserved(number);
    }
}

/// Whether a line under a tag may be carried out at once.
pub fn foreign_event(tag: Tag, command: &SentCommand) -> bool
    ensures event { result ≡ spec.foreign_event tag command.now }
    ensures foreign { result ≡ true → is_foreign command.now ≡ true }
{
    matches!(tag, Tag::Event(_)) && is_foreign(command)
}

fn unless(is_lost: bool, known: Known) -> Known
    ensures { result ≡ spec.unless_crossed is_lost known }
{
    if is_lost { nothing() } else { known }
}

fn is_report(events: &[u16], tag: Tag, mark: MarkSlice<'_>) -> bool
    ensures { result ≡ spec.is_report tag (signal_of (the_mark mark.entry)) events.now }
{
    matches!((tag, mark), (Tag::Event(number), MarkSlice::Given(_)) if events.contains(&number))
}

fn add_reserved(reported: &mut Vec<Reported>, report: Option<Reported>)
    requires { vec_len reported.old < vec_capacity reported.old }
    ensures { reported.new.items ≡ reported.old.items ++ spec.listed report }
{
    if let Some(report) = report {
        reported.push_reserved(report);
    }
}

fn remove_ended(uses: &mut Vec<Use>, at: usize, is_end: bool)
    requires { at < length uses.old.items }
    ensures { uses.new.items ≡ spec.left_over uses.old.items at is_end }
{
    if is_end {
        let _ended = uses.remove(at);
    }
}

impl Dialogue {
    /// A connection without a line; `ordered`: the order between the lines of the two ends is known. Does not allocate.
    pub fn new(alloc: Global, ordered: bool) -> Dialogue
        ensures { result ≡ spec.silence ordered }
    {
        Dialogue {
            alloc,
            ordered,
            lines: 0,
            uses: Vec::new(alloc),
            events: Vec::new(alloc),
            crossed: false,
            known: nothing(),
            reported: Vec::new(alloc),
        }
    }

    /// What was reported and not taken, in order.
    pub fn reported(&self) -> &[Reported]
        ensures { result.now ≡ self.now.reported }
    {
        self.reported.as_slice()
    }

    /// The lines of the client without their end, in order.
    pub fn uses(&self) -> &[Use]
        ensures { result.now ≡ self.now.uses }
    {
        self.uses.as_slice()
    }

    /// Takes all that was reported. Does not allocate.
    pub fn clear_reported(&mut self)
        ensures { self.new ≡ record self.old { reported = [] } }
    {
        self.reported.clear();
    }

    // ---- a line of the client

    fn send(&mut self, line: &[u8], tag: Tag, command: SentCommand) -> Result<(), AllocError>
        requires { self.old.lines + 1 < 2 ^ 64 }
        ensures { Leads result self.old self.new (spec.sent_tagged self.old line.now tag command) }
    {
        let (rival, is_lost) = last_under(self.uses.as_slice(), tag);
        let standing = fresh(self.lines, rival, is_lost);
        let below = below(self.alloc, &self.known, standing, &command)?;
        self.uses.reserve(1)?;
        self.events.reserve(1)?;
        let at_once = foreign_event(tag, &command);
        if at_once {
            let other = Text::new(self.alloc, line)?;
            self.reported.push(Reported::Other(Side::Client, other))?;
            forget(self.uses.as_mut_slice());
        }
        let known = replace(&mut self.known, below);
        self.uses.push_reserved(Use {
            tag,
            command,
            line: self.lines,
            stage: Stage::Sent,
            has_failed: false,
            rival,
            known: unless(at_once | is_lost, known),
        });
        note_event(&mut self.events, tag);
        self.crossed |= self.ordered & rival.is_some();
        self.lines += 1;
        Ok(())
    }

    fn send_untagged(&mut self, line: &[u8]) -> Result<(), AllocError>
        requires { self.old.lines + 1 < 2 ^ 64 }
        ensures { Leads result self.old self.new (spec.one_more (spec.at_once self.old line.now)) }
    {
        let other = Text::new(self.alloc, line)?;
        self.reported.push(Reported::Other(Side::Client, other))?;
        forget(self.uses.as_mut_slice());
        self.known = nothing();
        self.lines += 1;
        Ok(())
    }

    /// A line of the client, given without its end. Fails only if out of memory, or after 18,446,744,073,709,551,615 lines; then nothing has
    /// changed.
    pub fn client_line(&mut self, line: &[u8]) -> Result<(), AllocError>
        ensures ok { OnOk result (self.new ≡ spec.after self.old (client_line line.now)) }
        ensures err { OnErr result (self.new ≡ self.old) }
    {
        if self.lines == u64::MAX {
            return Err(AllocError);
        }
        match sent(self.alloc, line)? {
            Some((tag, command)) => self.send(line, tag, command),
            None => self.send_untagged(line),
        }
    }

    // ---- a line of the server

    fn fault(&mut self, report: Reported) -> Result<(), AllocError>
        ensures { Leads result self.old self.new (spec.faulting self.old report) }
    {
        self.reported.push(report)?;
        renew_all(self.uses.as_mut_slice(), &Renewal::Fault);
        renew(&mut self.known, &Renewal::Fault);
        Ok(())
    }

    fn place_of(&self, tag: Tag) -> Option<usize>
        ensures place { result ≡ spec.first_under tag self.now.uses }
        ensures within { IfSome result (λ at. at < length self.now.uses) }
    {
        self.uses.iter().position(|used| used.tag == tag)
    }

    fn hear_unasked(&mut self, line: &[u8], tag: Tag, mark: MarkSlice<'_>) -> Result<(), AllocError>
        ensures { Leads result self.old self.new
            (spec.unasked self.old line.now tag (signal_of (the_mark mark.entry))) }
    {
        if is_report(self.events.as_slice(), tag, mark) {
            return Ok(());
        }
        let line = Text::new(self.alloc, line)?;
        self.fault(Reported::Unasked(line))
    }

    fn hear(&mut self, at: usize, heard: &Heard, is_end: bool) -> Result<(), AllocError>
        requires { at < length self.old.uses }
        ensures { (u : Use) → slice_get self.old.uses at ≡ Some u
            → Leads result self.old self.new (spec.heard_at self.old at u heard.now is_end) }
    {
        let used = &self.uses[at];
        let (line, tag) = (used.line, used.tag);
        let early = is_out_of_turn(self.uses.as_slice(), at, used, heard);
        let known = known_after(self.alloc, used, heard, early)?;
        let report = reported_by(self.alloc, unless(self.crossed, known), used, *heard)?;
        self.reported.reserve(2)?;
        if early {
            self.reported
                .push_reserved(Reported::Broken(Rule::NotInTurn, tag));
            renew_all(self.uses.as_mut_slice(), &Renewal::Fault);
            renew(&mut self.known, &Renewal::Fault);
        }
        add_reserved(&mut self.reported, report);
        mark_all(self.uses.as_mut_slice(), line, heard);
        remove_ended(&mut self.uses, at, is_end);
        renew(&mut self.known, &Renewal::Mark(line, *heard));
        Ok(())
    }

    fn hear_at(&mut self, at: usize, mark: MarkSlice<'_>) -> Result<(), AllocError>
        requires { at < length self.old.uses }
        ensures { Leads result self.old self.new
            (spec.at_use self.old at (signal_of (the_mark mark.entry)) (slice_get self.old.uses at)) }
    {
        let heard = heard_as(&self.uses[at].command, mark);
        self.hear(at, &heard, is_end(mark))
    }

    /// A line of the server, given without its end. Fails only if out of memory, and then nothing has changed.
    #[tactic(auto, using(crate::proofs::Readings::one_response))]
    pub fn server_line(&mut self, line: &[u8]) -> Result<(), AllocError>
        ensures ok { OnOk result (self.new ≡ spec.after self.old (server_line line.now)) }
        ensures err { OnErr result (self.new ≡ self.old) }
    {
        let Ok(response) = cut_response(line) else {
            let line = Text::new(self.alloc, line)?;
            return self.fault(Reported::Other(Side::Server, line));
        };
        match self.place_of(response.tag) {
            Some(at) => self.hear_at(at, response.mark),
            None => self.hear_unasked(line, response.tag, response.mark),
        }
    }
}
