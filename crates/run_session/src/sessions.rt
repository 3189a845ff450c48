// A session: what it asks, and what it does with an answer.

ghost use Rattle.std.specs.Prelude.{◌≡◌, ◌⊎◌, true, false, length, drop, map, is_some, option_map, Some, None, OnOk, IfOk};
ghost use Rattle.std.specs.Option.{option_map_or};
ghost use Rattle.effects.specs.Effects.{the_ask, the_reply};
ghost use Rattle.protocol_model.specs.Ends.{end_connected};
ghost use Rattle.order_parts.specs.Pauses.{pauses_of, place_seen};
ghost use Rattle.record_text.specs.Growths.{begun};
ghost use Rattle.client_core.specs.Clients.{may_connect};
ghost use Rattle.run_session.specs.Ends as ends;
ghost use Rattle.run_session.specs.Evidence.{given_notes};
ghost use Rattle.run_session.specs.Records as spec;
ghost use Rattle.run_session.specs.Statuses as statuses;
ghost use Rattle.client_core.specs.declared.faults.ClientFault.{ClientFault};
ghost use Rattle.link_world.specs.declared.connections.pumps.PumpFault.{PumpFault};

use crate::calling::NOT_DONE;
use crate::errors::Errors;
use crate::evidence::Noting;
use crate::listed::Listed;
use crate::progress::Pacing;
use crate::reported::Reported;
use crate::runs::{Causes, Kept, Said, Written, is_written};
use crate::{Run, Stage};
use client_core::{Client, ClientFault, State};
use contact_ledger::ServerLedger;
use effects::{Answer, Cause, Effect, Growth as File, Peer};
use link_world::PumpFault;
use order_parts::{RunEnding, TextPlace, pauses};
use record_text::Growth;
use session_telling::{Lapse, Lines, Wait};
use std::alloc::{AllocError, Global};
use std::marker::Model;

/// How long it waits before it looks at the stop file and at the time again, in milliseconds.
pub(crate) const LOOK_MS: u64 = 100;

const OUT_OF_MEMORY: &str = "dme: out of memory\n";

/// What a run begins with, besides its client.
#[derive(Drop)]
pub struct Begun {
    alloc: Global,
    run: Run,
    number: u64,
    growth: Growth,
    reported: Reported,
    listed: Listed,
    errors: Errors,
    wait: Wait,
    lines: Lines,
    places: Vec<TextPlace>,
    pauses: Vec<usize>,
}

impl Model for Begun {
    ghost use Rattle.run_session.specs.Records.{Start, files_of, none_written};
    ghost use Rattle.run_session.specs.Evidence.{given_notes};

    ghost Value = { Start };

    ghost use Rattle.std.specs.Prelude.{is_some, false, None, option_map};

    ghost view = { λ b. record {
      growth = b.growth;
      files = files_of b.run;
      pauses = b.pauses.items;
      keeps = is_some b.run.record;
      reports = record {
        named = is_some b.run.contacts;
        number = b.number;
        text = b.reported.text.items;
        told = b.reported.told;
        marks = record {
          filed = b.reported.filed;
          lost = b.reported.has_failed;
          listed = b.listed.settled;
          lists = b.listed.is_kept;
          printed = None;
          written = none_written;
        };
      };
      talk = b.errors;
      key = option_map (λ key. key.items) b.run.key;
      notes = given_notes (is_some b.run.record)
          (option_map (λ notes. notes.items) b.run.notes);
    } };
}

impl Begun {
    /// A run of a client, which comes to the connection of this number; its record has this text, before it these acts were reported, its
    /// server's errors are shown so, and its program has these texts for the operator. Fails only if out of memory.
    pub fn new(
        alloc: Global,
        run: Run,
        client: &mut Client,
        number: u64,
        text: Vec<u8>,
        told: &ServerLedger,
        errors: Errors,
        places: Vec<TextPlace>,
    ) -> Result<Begun, AllocError>
        requires { may_connect number client.old.client ≡ true }
        ensures client { OnOk result (client.new ≡ end_connected number client.old) }
        ensures growth { IfOk result (λ b. b.growth
            ≡ begun number 0 (length client.old.client.table.tally.features) text.items) }
        ensures files { IfOk result (λ b. b.files ≡ spec.files_of run) }
        ensures pauses { IfOk result (λ b. b.pauses
            ≡ pauses_of (map place_seen places.items)) }
        ensures keeps { IfOk result (λ b. b.keeps ≡ is_some run.record) }
        ensures reports { IfOk result (λ b. b.reports
            ≡ spec.first_reports (is_some run.contacts)
            (option_map_or (λ file. file.grows) run.features false) number told.now) }
        ensures talk { IfOk result (λ b. b.talk ≡ errors) }
        ensures key { IfOk result (λ b. b.key ≡ option_map (λ key. key.items) run.key) }
        ensures notes { IfOk result (λ b. b.notes ≡ given_notes (is_some run.record)
            (option_map (λ notes. notes.items) run.notes)) }
    {
        let pauses = pauses(alloc, places.as_slice())?;
        let reported = Reported::new(alloc, told)?;
        let listed = Listed::new(alloc, run.lists());
        let kept = client.features().len();
        let growth = Growth::new(number, kept, text);
        if client.connected(number).is_err() {
            return Err(AllocError);
        }
        let wait = Wait::new(run.timeout);
        let mut lines = Lines::new(alloc, run.trace || run.log.is_some());
        lines.begin(number);
        Ok(Begun {
            alloc,
            run,
            number,
            growth,
            reported,
            listed,
            errors,
            wait,
            lines,
            places,
            pauses,
        })
    }
}

/// The command `run`, from the call of its server on: a client measures its program, and what it counts is kept in files.
#[derive(Drop)]
pub struct Session {
    pub(crate) alloc: Global,
    pub(crate) run: Run,
    pub(crate) client: Client,
    /// The record's text, and how much of it the file has.
    pub(crate) growth: Growth,
    pub(crate) filed: usize,
    /// Whether the record could not be kept.
    pub(crate) is_lost: bool,
    pub(crate) reported: Reported,
    pub(crate) listed: Listed,
    pub(crate) errors: Errors,
    /// What was noted of the run.
    pub(crate) noting: Noting,
    pub(crate) stage: Stage,
    /// The number of its connection.
    pub(crate) number: u64,
    /// How many features it had before, how many it has shown with those, and how many are complete on the record's device.
    pub(crate) kept: usize,
    pub(crate) told: usize,
    pub(crate) settled: usize,
    pub(crate) wait: Wait,
    pub(crate) lines: Lines,
    /// The errors, and the lines that are shown and logged.
    pub(crate) shown: String,
    pub(crate) logged: String,
    pub(crate) is_logged: bool,
    /// When it began to call its server, for how long it may still, and why it was not reached.
    pub(crate) began: u64,
    pub(crate) left: u64,
    pub(crate) missed: Cause,
    /// Whether its client has come to the connection, and is there.
    pub(crate) has_begun: bool,
    pub(crate) is_on: bool,
    /// Whether memory has run out and all that is left is to say so, and whether it has run out.
    pub(crate) is_short: bool,
    pub(crate) is_spent: bool,
    /// Whether the stop file was seen, or the operator has not confirmed a pause; and in which state the client was then.
    pub(crate) is_stopped: bool,
    pub(crate) is_declined: bool,
    pub(crate) seen: Option<State>,
    /// What it knows of time for the line of its progress.
    pub(crate) pacing: Pacing,
    /// The texts for the operator, how many of them were shown, the pauses that are to come, and whether the first of these is asked for.
    pub(crate) places: Vec<TextPlace>,
    pub(crate) passed: usize,
    pub(crate) pauses: Vec<usize>,
    pub(crate) is_asked: bool,
    /// The last line of the server, as far as it is shown, and whether it has ended.
    pub(crate) last: Vec<u8>,
    pub(crate) has_ended: bool,
    /// How often it has looked whether a server that is left leaves, too.
    pub(crate) looks: u32,
    /// Whether the report was printed, and which files were written whole at the end.
    pub(crate) printed: Option<bool>,
    pub(crate) written: Written,
    /// What is added to the log, or printed.
    pub(crate) text: Vec<u8>,
    /// What is said last, and what that names; why files could not be written, and which one at the beginning.
    pub(crate) said: String,
    pub(crate) named: Vec<Said>,
    pub(crate) causes: Causes,
    pub(crate) unopened: Option<(Kept, Cause)>,
    pub(crate) broken: Option<PumpFault<ClientFault>>,
    pub(crate) lapse: Option<Lapse>,
    pub(crate) early: Option<RunEnding>,
}

impl Model for Session {
    ghost use Rattle.run_session.specs.Records.{State as OneState, files_of};
    ghost use Rattle.run_session.specs.Evidence.{server_text};
    ghost use Rattle.std.specs.Prelude.{is_some, option_map, string_bytes};

    ghost Value = { OneState };

    ghost view = { λ s. record {
      stage = s.stage;
      pair = record { end = s.client; recording = s.growth };
      book = record {
        lost = s.is_lost;
        filed = s.filed;
        settled = s.settled;
        pauses = s.pauses.items;
        keeps = is_some s.run.record;
        short = s.is_short;
        spent = s.is_spent;
        key = option_map (λ key. key.items) s.run.key;
        noted = s.noting;
      };
      reports = record {
        named = is_some s.run.contacts;
        number = s.number;
        text = s.reported.text.items;
        told = s.reported.told;
        marks = record {
          filed = s.reported.filed;
          lost = s.reported.has_failed;
          listed = s.listed.settled;
          lists = s.listed.is_kept;
          printed = s.printed;
          written = s.written;
        };
      };
      talk = s.errors;
      course = record {
        server = server_text (string_bytes s.run.host) s.run.port;
        broken = s.broken;
        lapsed = is_some s.lapse;
        stopped = s.is_stopped;
      };
      files = files_of s.run;
      begun = s.has_begun;
      unbegun = is_some s.early;
      text = s.text.items;
      list = s.listed.text.items;
      held = s.listed.held;
      shown = s.told;
      said = s.named.items;
      looks = s.looks;
    } };
}

impl Session {
    /// A session of this client, with what it begins with.
    #[tactic(auto, using(crate::proofs::Paces::unopened))]
    pub fn new(client: Client, begun: Begun) -> Session
        ensures pair { result.pair ≡ record { end = client; recording = begun.growth } }
        ensures book { result.book ≡ record {
          lost = false;
          filed = length begun.growth.text;
          settled = begun.growth.telling.counted.features;
          pauses = begun.pauses;
          keeps = begun.keeps;
          short = false;
          spent = false;
          key = begun.key;
          noted = record {
            given = begun.notes;
            opened = false;
            left = false;
            dated = begun.growth.telling.counted.features;
          };
        } }
        ensures files { result.files ≡ begun.files }
        ensures reports { result.reports ≡ begun.reports }
        ensures talk { result.talk ≡ begun.talk }
        ensures due { spec.IsDue result }
        ensures followed { spec.HasTold result → spec.HasFollowed result }
    {
        let Begun {
            alloc,
            mut run,
            number,
            growth,
            reported,
            listed,
            errors,
            wait,
            lines,
            places,
            pauses,
        } = begun;
        let kept = client.features().len();
        let filed = growth.text().len();
        let settled = growth.features();
        let left = u64::from(run.wait.unwrap_or(0)) * 1000;
        let is_logged = run.log.is_some();
        let noting = Noting::new(run.record.is_some(), run.notes.take(), settled);
        let mut session = Session {
            alloc,
            run,
            client,
            growth,
            filed,
            is_lost: false,
            reported,
            listed,
            errors,
            noting,
            stage: Stage::Logged,
            number,
            kept,
            told: kept,
            settled,
            wait,
            lines,
            shown: String::new(alloc),
            logged: String::new(alloc),
            is_logged,
            began: 0,
            left,
            missed: Cause::Unknown,
            has_begun: false,
            is_on: false,
            is_short: false,
            is_spent: false,
            is_stopped: false,
            is_declined: false,
            seen: None,
            pacing: Pacing::new(),
            places,
            passed: 0,
            pauses,
            is_asked: false,
            last: Vec::new(alloc),
            has_ended: false,
            looks: 0,
            printed: None,
            written: Written::new(),
            text: Vec::new(alloc),
            said: String::new(alloc),
            named: Vec::new(alloc),
            causes: Causes::new(),
            unopened: None,
            broken: None,
            lapse: None,
            early: None,
        };
        if !session.is_logged {
            session.stage = session.after_log();
        }
        session
    }

    /// How long an attempt at a connection may take, in milliseconds.
    fn attempt(&self) -> Option<u64> {
        match (self.run.wait, self.run.timeout) {
            (Some(_), _) => Some(self.left.min(1_000)),
            (None, Some(seconds)) => Some(u64::from(seconds) * 1000),
            (None, None) => None,
        }
    }

    /// What is to be done next before the client is on its connection.
    fn asks_before(&self) -> Effect<'_>
        requires { spec.is_before self.now.stage ≡ true }
        ensures { spec.Asks self.now (the_ask result) }
    {
        match self.stage {
            Stage::Logged => Effect::Extend(self.run.log.as_deref().unwrap_or("")),
            Stage::Connecting => {
                Effect::Connect(self.run.host.as_str(), self.run.port, self.attempt())
            }
            Stage::Pausing => Effect::Sleep(LOOK_MS),
            Stage::Limiting => Effect::Limit(Peer::Server, Some(LOOK_MS), self.run.timeout),
            Stage::MakingFeatures => Effect::Make(
                File::Features,
                self.run.name(Kept::Features),
                self.run.beside(Kept::Features),
                self.listed.text.as_slice(),
            ),
            Stage::BeginningFeatures => Effect::Begin(File::Features),
            Stage::MakingContacts => Effect::Make(
                File::Contacts,
                self.run.name(Kept::Contacts),
                self.run.beside(Kept::Contacts),
                self.reported.text.as_slice(),
            ),
            _ => Effect::Begin(File::Contacts),
        }
    }

    /// What the record's file lacks, if it could be kept so far.
    fn lacking(&self) -> &[u8]
        ensures { result.now ≡ spec.lacking self.now }
    {
        if self.is_lost {
            return &[];
        }
        match self.growth.text().split_at_checked(self.filed) {
            Some((_, lacking)) => lacking,
            None => &[],
        }
    }

    /// What is to be done next on the connection.
    fn asks_while(&self) -> Effect<'_>
        requires { spec.is_while self.now.stage ≡ true }
        ensures { spec.Asks self.now (the_ask result) }
    {
        match self.stage {
            Stage::Receiving => Effect::Receive(Peer::Server),
            Stage::Sending => Effect::Send(Peer::Server, self.client.out()),
            Stage::Awaiting | Stage::Returning => Effect::Byte,
            Stage::Stamping | Stage::Noting => Effect::Stamp,
            Stage::Logging => Effect::Add(self.text.as_slice()),
            Stage::Recording => Effect::Append(File::Record, self.lacking()),
            Stage::Settling => Effect::Keep(File::Record, self.lacking()),
            Stage::Reporting => Effect::Append(File::Contacts, self.reported.lacking()),
            Stage::Listing => Effect::Keep(File::Features, self.listed.text.as_slice()),
            _ => Effect::Say(self.shown.as_str()),
        }
    }

    /// Whether all that was asked for is measured, printed and written.
    fn has_done(&self) -> bool
        ensures is { result ≡ spec.has_done self.now }
        ensures done { result ≡ true → spec.HasDone self.now }
    {
        matches!(self.client.state(), State::Done)
            && is_written(true, self.printed)
            && is_written(self.run.features.is_some(), self.written.features)
            && is_written(self.run.record.is_some(), self.written.kept)
            && is_written(self.run.contacts.is_some(), self.written.contacts)
    }

    /// The exit status: 0 only then.
    fn exit_status(&self) -> u8
        ensures is { result ≡ spec.exit_of self.now }
        ensures done { result ≡ 0 → spec.HasDone self.now }
    {
        let status = self.status();
        if status == 0 && !self.has_done() {
            return NOT_DONE;
        }
        status
    }

    /// The run ends.
    fn exits(&self) -> Effect<'_>
        ensures { spec.IsExit self.now (the_ask result) }
    {
        Effect::Exit(self.exit_status())
    }

    fn asks_at_end(&self) -> Effect<'_>
        requires { spec.is_at_end self.now.stage ≡ true }
        ensures { spec.Asks self.now (the_ask result) }
    {
        match self.stage {
            Stage::ReplacingFeatures => Effect::Replace(
                self.run.name(Kept::Features),
                self.run.beside(Kept::Features),
                self.listed.text.as_slice(),
            ),
            Stage::Printing => Effect::Print(self.text.as_slice()),
            Stage::Parting => Effect::Limit(Peer::Server, Some(LOOK_MS), self.run.timeout),
            Stage::Closing => Effect::Close(Peer::Server),
            Stage::Draining => Effect::Receive(Peer::Server),
            Stage::Leaving => Effect::Leave,
            Stage::DiscardingFeatures => Effect::Discard(File::Features),
            Stage::DiscardingContacts => Effect::Discard(File::Contacts),
            Stage::Standing => Effect::Stands(File::Record, self.growth.text().len()),
            Stage::ReplacingRecord => Effect::Replace(
                self.run.name(Kept::Record),
                self.run.beside(Kept::Record),
                self.growth.text(),
            ),
            Stage::ReplacingContacts => Effect::Replace(
                self.run.name(Kept::Contacts),
                self.run.beside(Kept::Contacts),
                self.reported.text.as_slice(),
            ),
            Stage::Ending => Effect::Say(self.said.as_str()),
            Stage::Telling => Effect::Say(OUT_OF_MEMORY),
            _ => self.exits(),
        }
    }

    /// What is to be done next.
    pub fn asks(&self) -> Effect<'_>
        ensures { spec.Asks self.now (the_ask result) }
    {
        match self.stage {
            Stage::Logged | Stage::Connecting | Stage::Pausing | Stage::Limiting => {
                self.asks_before()
            }
            Stage::MakingFeatures | Stage::BeginningFeatures => self.asks_before(),
            Stage::MakingContacts | Stage::BeginningContacts => self.asks_before(),
            Stage::Beginning | Stage::Elapsing | Stage::Timing => Effect::Now,
            Stage::Peeking | Stage::Checking => Effect::Exists(self.run.stop_name()),
            Stage::Receiving | Stage::Sending => self.asks_while(),
            Stage::Awaiting | Stage::Returning => self.asks_while(),
            Stage::Tracing | Stage::Stamping | Stage::Logging => self.asks_while(),
            Stage::Noting => self.asks_while(),
            Stage::Recording | Stage::Settling | Stage::Reporting => self.asks_while(),
            Stage::Warning | Stage::Listing | Stage::Showing => self.asks_while(),
            Stage::ReplacingFeatures | Stage::Printing | Stage::Parting => self.asks_at_end(),
            Stage::Closing | Stage::Draining | Stage::Leaving | Stage::Standing => {
                self.asks_at_end()
            }
            Stage::DiscardingFeatures | Stage::DiscardingContacts => self.asks_at_end(),
            Stage::ReplacingRecord | Stage::ReplacingContacts => self.asks_at_end(),
            Stage::Ending | Stage::Telling | Stage::Exiting => self.asks_at_end(),
        }
    }

    /// What came of it. If memory runs out meanwhile, the connection is left, and the run ends.
    pub fn take(&mut self, answer: Answer<'_>)
        ensures goes { spec.GoesOn self.old (the_reply answer.entry) self.new }
        ensures pauses { spec.confirms_pause self.old.stage (the_reply answer.entry) ≡ false
            → self.new.book.pauses ≡ self.old.book.pauses }
        ensures short { self.old.book.short ≡ true → self.new.book.short ≡ true }
        ensures lasts { self.new.book.spent ≡ false
            → self.new.book.short ≡ self.old.book.short }
        ensures base { spec.is_at_end self.old.stage ≡ true → self.new.book.spent ≡ false
            → spec.base self.new ≡ spec.base self.old }
        ensures unbegun { spec.is_unbegun self.old.stage (the_reply answer.entry) ≡ true
            → (self.new.unbegun ≡ true) ⊎ (self.new.book.spent ≡ true) }
        ensures breaks { (by : PumpFault ClientFault)
            → statuses.break_by self.old.stage (the_reply answer.entry) ≡ Some by
            → (self.new.course.broken ≡ Some by) ⊎ (self.new.book.spent ≡ true) }
        ensures due { spec.IsDue self.new }
        ensures followed { spec.HasFollowed self.old → spec.HasFollowed self.new }
        ensures ends { spec.IsDue self.old
            → spec.confirms_pause self.old.stage (the_reply answer.entry) ≡ true
            → self.new.book.pauses ≡ drop 1 self.old.book.pauses }
        ensures stops { spec.Stops self.old (the_reply answer.entry) self.new }
        ensures nears { ends.Nears self.old self.new }
    {
        if self.step(answer).is_err() {
            self.run_short();
        }
    }

    fn step(&mut self, answer: Answer<'_>) -> Result<(), AllocError>
        ensures goes { spec.GoesOn self.old (the_reply answer.entry) self.new }
        ensures pauses { spec.confirms_pause self.old.stage (the_reply answer.entry) ≡ false
            → self.new.book.pauses ≡ self.old.book.pauses }
        ensures short { self.new.book.short ≡ self.old.book.short }
        ensures base { spec.is_at_end self.old.stage ≡ true
            → spec.base self.new ≡ spec.base self.old }
        ensures unbegun { OnOk result (spec.is_unbegun self.old.stage
            (the_reply answer.entry) ≡ true → self.new.unbegun ≡ true) }
        ensures due { OnOk result (spec.IsDue self.new) }
        ensures followed { OnOk result (spec.HasFollowed self.old → spec.HasFollowed self.new) }
        ensures ends { spec.IsDue self.old
            → spec.confirms_pause self.old.stage (the_reply answer.entry) ≡ true
            → self.new.book.pauses ≡ drop 1 self.old.book.pauses }
        ensures stops { spec.StopsOn result self.old (the_reply answer.entry) self.new }
        ensures nears { spec.is_at_end self.old.stage ≡ true
            → ends.NearsOn result self.old self.new }
        ensures breaks { (by : PumpFault ClientFault) → statuses.break_by self.old.stage
            (the_reply answer.entry) ≡ Some by → OnOk result (self.new.course.broken ≡ Some by) }
        ensures over { ends.is_following self.old.stage ≡ true → ends.is_closing self.old ≡ true
            → ends.FollowsOn result self.old self.new }
    {
        match self.stage {
            Stage::Logged | Stage::Beginning | Stage::Peeking | Stage::Connecting => {
                self.call(answer)
            }
            Stage::Warning | Stage::Elapsing | Stage::Pausing | Stage::Limiting => {
                self.call(answer)
            }
            Stage::MakingFeatures => self.made_features(answer),
            Stage::BeginningFeatures => self.begun_features(answer),
            Stage::MakingContacts | Stage::BeginningContacts => self.begin(answer),
            Stage::Checking => self.checked(answer),
            Stage::Timing | Stage::Receiving => self.receive(answer),
            Stage::Sending => self.sent(answer),
            Stage::Awaiting => self.typed(true, answer),
            Stage::Returning => self.typed(false, answer),
            Stage::Tracing | Stage::Stamping | Stage::Logging => self.show_on(answer),
            Stage::Noting => self.noted(answer),
            Stage::Recording | Stage::Settling => self.recorded(answer),
            Stage::Reporting => self.has_reported(answer),
            Stage::Listing => self.has_listed(answer),
            Stage::Showing => self.has_shown(),
            Stage::Printing => self.has_printed(answer),
            Stage::Parting | Stage::Closing | Stage::Draining | Stage::Leaving => {
                self.leave_on(answer)
            }
            Stage::DiscardingFeatures | Stage::DiscardingContacts => self.leave_on(answer),
            Stage::Standing => self.has_stood(answer),
            Stage::ReplacingFeatures | Stage::ReplacingRecord | Stage::ReplacingContacts => {
                self.has_replaced(answer)
            }
            Stage::Ending | Stage::Telling | Stage::Exiting => {
                self.stage = Stage::Exiting;
                Ok(())
            }
        }
    }

    /// The last message is to be said, which needs no memory.
    fn tell(&mut self)
        ensures quiet { spec.IsQuiet (spec.shortened self.old) self.new }
        ensures due { spec.IsDue self.new }
        ensures followed { spec.HasFollowed self.new }
        ensures nears { ends.IsWithin 1 self.new }
    {
        self.give_up();
        self.stage = Stage::Telling;
    }

    /// Memory has run out before the connection: files that did not begin are left as they were.
    fn give_up(&mut self)
        ensures quiet { spec.IsQuiet (spec.shortened self.old) self.new }
        ensures due { spec.IsDue self.new }
        ensures followed { spec.HasFollowed self.new }
        ensures nears { ends.IsWithin 7 self.new }
    {
        self.is_short = true;
        self.stage = Stage::Leaving;
    }

    /// Whether it is at its end.
    fn is_ending(&self) -> bool
        ensures { result ≡ spec.is_at_end self.now.stage }
    {
        match self.stage {
            Stage::ReplacingFeatures | Stage::Printing | Stage::Parting => true,
            Stage::Closing | Stage::Draining | Stage::Leaving => true,
            Stage::DiscardingFeatures | Stage::DiscardingContacts | Stage::Standing => true,
            Stage::ReplacingRecord | Stage::ReplacingContacts => true,
            Stage::Ending | Stage::Telling | Stage::Exiting => true,
            _ => false,
        }
    }

    /// Memory has run out: the connection is left, and what was counted on it is kept. At the end that is said at once.
    fn run_short(&mut self)
        ensures ran { spec.Keeps (spec.left self.old) self.new }
        ensures book { spec.of_file self.new.book ≡ spec.of_file self.old.book }
        ensures pauses { self.new.book.pauses ≡ self.old.book.pauses }
        ensures short { self.old.book.short ≡ true → self.new.book.short ≡ true }
        ensures spent { self.new.book.spent ≡ true }
        ensures due { spec.IsDue self.new }
        ensures followed { spec.HasFollowed self.new }
        ensures nears { spec.is_at_end self.old.stage ≡ true → ends.IsWithin 1 self.new }
        ensures over { ends.IsWithin (ends.short_left self.old) self.new }
    {
        let (is_ending, was_spent) = (self.is_ending(), self.is_spent);
        self.is_spent = true;
        self.break_off(PumpFault::Memory);
        if self.is_on && !is_ending && !was_spent {
            self.is_on = false;
            if self.follow().is_err() {
                self.tell();
            }
        } else if self.has_begun || is_ending {
            self.tell();
        } else {
            self.give_up();
        }
    }
}
