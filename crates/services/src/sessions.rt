// A session: what it asks, and what it does with an answer.

ghost use Rattle.std.specs.Prelude.{◌≡◌, true, false, [], OnOk, OnErr, IfOk, string_bytes};
ghost use Rattle.std.specs.Option.{option_map_or};
ghost use Rattle.effects.specs.Effects.{the_ask, the_reply, Reply};
ghost use Rattle.protocol_model.specs.Ends.{serving_left};
ghost use Rattle.services.specs.Ends as ends;
ghost use Rattle.services.specs.Sessions as spec;
ghost use Rattle.services.specs.Serving as serving;

use crate::contacts::Contacts;
use crate::{Service, Stage};
use effects::{Answer, Effect, Growth, Peer};
use link_world::{PumpFault, Simulated};
use server_core::{Server, ServerFault};
use session_telling::{Lapse, Lines, Wait};
use std::alloc::{AllocError, Global};
use std::marker::Model;
use tool_rack::Setup;

/// How long it waits before it looks at the stop file and at the time again, in milliseconds.
pub(crate) const LOOK_MS: u64 = 100;

pub(crate) const OUT_OF_MEMORY: &str = "dme: out of memory\n";

/// Why a connection was broken off.
#[derive(Clone, Copy, Debug)]
pub enum Break {
    /// By the server, or by its connection.
    Fault(PumpFault<ServerFault>),
    /// By the time limit.
    Lapsed(Lapse),
}

/// The command `serve`: a server with a simulated machine takes one connection after another, keeps what it does in its contacts file, and
/// prints its contacts.
#[derive(Drop)]
pub struct Session {
    pub(crate) alloc: Global,
    pub(crate) service: Service,
    pub(crate) server: Server,
    pub(crate) machine: Simulated,
    pub(crate) stage: Stage,
    /// What comes after what is said, shown or logged.
    pub(crate) next: Stage,
    pub(crate) wait: Wait,
    pub(crate) lines: Lines,
    /// The lines that are shown and logged.
    pub(crate) shown: String,
    pub(crate) is_logged: bool,
    pub(crate) contacts: Contacts,
    /// The number of the last connection.
    pub(crate) number: u64,
    /// Whether it was said that a connection cannot be taken.
    pub(crate) is_told: bool,
    /// What is added to the log, printed at the end, and sent.
    pub(crate) text: Vec<u8>,
    pub(crate) rows: Vec<u8>,
    pub(crate) out: Vec<u8>,
    pub(crate) said: String,
    /// What is said at the end of the contacts file.
    pub(crate) unwritten: String,
    pub(crate) last: &'static str,
    pub(crate) broken: Option<Break>,
    pub(crate) status: u8,
}

impl Model for Session {
    ghost use Rattle.std.specs.Prelude.{is_some};
    ghost use Rattle.services.specs.Files.{name_of};
    ghost use Rattle.services.specs.Sessions.{State};

    ghost Value = { State };

    ghost view = { λ s. record {
      stage = s.stage;
      next = s.next;
      core = record {
        named = is_some s.contacts.names;
        name = name_of s.contacts.names;
        grows = s.contacts.grows;
        lost = s.contacts.has_failed;
        text = s.contacts.text.items;
        held = s.contacts.held;
        ledger = s.server.end.server.ledger;
        rows = s.rows.items;
        broken = is_some s.broken;
        status = s.status;
      };
      talk = record {
        end = s.server.end;
        shifts = s.machine;
        number = s.number;
        out = s.out.items;
      };
    } };
}

impl Session {
    /// A session of this service, whose machine has this setup. Fails only if out of memory.
    pub fn new(alloc: Global, service: Service, setup: Setup) -> Result<Session, AllocError>
        ensures ready { IfOk result (λ s. spec.Ready (spec.due s) s.core spec.untouched) }
        ensures served { IfOk result (λ s. serving.IsServing setup false s.talk serving.no_traffic) }
        ensures stands { IfOk result (λ s. spec.Stands s) }
        ensures name { IfOk result (λ s. s.core.name
            ≡ option_map_or string_bytes service.contacts []) }
    {
        let machine = Simulated::new(alloc, &setup)?;
        let contacts = Contacts::new(alloc, service.contacts.as_deref())?;
        let is_shown = service.trace || service.log.is_some();
        let is_logged = service.log.is_some();
        let wait = Wait::new(service.timeout);
        let server = Server::new(alloc, setup)?;
        Ok(Session {
            alloc,
            service,
            server,
            machine,
            stage: Stage::Logged,
            next: Stage::Looking,
            wait,
            lines: Lines::new(alloc, is_shown),
            shown: String::new(alloc),
            is_logged,
            contacts,
            number: 0,
            is_told: false,
            text: Vec::new(alloc),
            rows: Vec::new(alloc),
            out: Vec::new(alloc),
            said: String::new(alloc),
            unwritten: String::new(alloc),
            last: "",
            broken: None,
            status: 1,
        })
    }

    /// Where reads and writes of a connection come back.
    fn limits(&self) -> (Option<u64>, Option<u32>) {
        let is_limited = self.service.timeout.is_some() || self.service.stop.is_some();
        (is_limited.then_some(LOOK_MS), self.service.timeout)
    }

    /// What is to be done next before a connection.
    fn asks_before(&self) -> Effect<'_>
        requires { spec.is_asking_before self.now.stage ≡ true }
        ensures { spec.Asks self.now (the_ask result) }
    {
        match self.stage {
            Stage::Logged => match &self.service.log {
                Some(name) => Effect::Extend(name.as_str()),
                None => Effect::Say(""),
            },
            Stage::Looking => Effect::Look(self.contacts.name()),
            Stage::Making => Effect::Make(
                Growth::Contacts,
                self.contacts.name(),
                self.contacts.beside(),
                self.contacts.text.as_slice(),
            ),
            Stage::Discarding => Effect::Discard(Growth::Contacts),
            Stage::SettingAside => Effect::SetAside(Growth::Contacts, self.contacts.old()),
            Stage::Beginning => Effect::Begin(Growth::Contacts),
            _ => Effect::Listen(
                self.service.address(),
                self.service.port,
                self.service.stop.is_some(),
            ),
        }
    }

    fn asks_while(&self) -> Effect<'_>
        requires { spec.is_asking_while self.now.stage ≡ true }
        ensures { spec.Asks self.now (the_ask result) }
    {
        match self.stage {
            Stage::Peeking | Stage::Checking => Effect::Exists(self.service.stop_name()),
            Stage::Accepting => {
                let (ms, seconds) = self.limits();
                Effect::Accept(ms, seconds)
            }
            Stage::Pausing => Effect::Sleep(LOOK_MS),
            Stage::Timing => Effect::Now,
            Stage::Tracing => Effect::Say(self.shown.as_str()),
            Stage::Stamping => Effect::Stamp,
            Stage::Logging => Effect::Add(self.text.as_slice()),
            Stage::Keeping => Effect::Keep(Growth::Contacts, self.contacts.text.as_slice()),
            Stage::Sending => Effect::Send(Peer::Client, self.out.as_slice()),
            Stage::Leaving => Effect::Leave,
            _ => Effect::Receive(Peer::Client),
        }
    }

    /// What is to be done next.
    pub fn asks(&self) -> Effect<'_>
        ensures { spec.Asks self.now (the_ask result) }
    {
        match self.stage {
            Stage::Logged | Stage::Looking | Stage::Making | Stage::Listening => self.asks_before(),
            Stage::Discarding | Stage::SettingAside | Stage::Beginning => self.asks_before(),
            Stage::Replacing => Effect::Replace(
                self.contacts.name(),
                self.contacts.beside(),
                self.contacts.text.as_slice(),
            ),
            Stage::Printing => Effect::Print(self.rows.as_slice()),
            Stage::Saying => Effect::Say(self.said.as_str()),
            Stage::Telling => Effect::Say(self.last),
            Stage::Exiting => Effect::Exit(self.status),
            _ => self.asks_while(),
        }
    }

    /// What came of it. If memory runs out meanwhile, the connection is left, and the service ends.
    #[tactic(auto, using(crate::proofs::Served::over_stays))]
    pub fn take(&mut self, answer: Answer<'_>)
        ensures goes { spec.GoesOn self.old (the_reply answer.entry) self.new }
        ensures served { spec.Serves self.old (the_reply answer.entry) self.new }
        ensures stays { spec.StaysOn self.old (the_reply answer.entry) self.new }
        ensures breaks { spec.Breaks self.old (the_reply answer.entry) self.new }
        ensures stands { spec.Stands self.old → spec.Stands self.new }
        ensures nears { ends.Nears (ends.ahead self.old) (ends.ahead self.new) }
    {
        if self.step(answer).is_err() {
            self.run_short();
        }
    }

    #[tactic(auto, using(crate::proofs::Breaking::quiet_breaks))]
    fn step(&mut self, answer: Answer<'_>) -> Result<(), AllocError>
        ensures goes { OnOk result (spec.GoesOn self.old (the_reply answer.entry) self.new) }
        ensures served { OnOk result (spec.Serves self.old (the_reply answer.entry) self.new) }
        ensures stays { OnOk result (spec.StaysOn self.old (the_reply answer.entry) self.new) }
        ensures breaks { OnOk result (spec.Breaks self.old (the_reply answer.entry) self.new) }
        ensures lost { OnErr result
            (spec.Brings true self.old (the_reply answer.entry) (spec.left self.new)) }
        ensures stands { OnOk result (spec.Stands self.old → spec.Stands self.new) }
        ensures nears { (ends.ahead self.old).ends ≡ true
            → ends.NearsOn result self.old self.new }
    {
        match self.stage {
            Stage::Logged | Stage::Looking | Stage::Making | Stage::Listening => {
                self.prepare(answer)
            }
            Stage::Discarding | Stage::SettingAside | Stage::Beginning => self.begin(answer),
            Stage::Peeking | Stage::Accepting | Stage::Pausing => self.take_next(answer),
            Stage::Checking | Stage::Timing | Stage::Receiving => self.receive(answer),
            Stage::Tracing | Stage::Stamping | Stage::Logging => self.show_on(answer),
            Stage::Keeping | Stage::Sending | Stage::Leaving => self.answer(answer),
            Stage::Replacing | Stage::Printing => self.close_on(answer),
            Stage::Saying => {
                self.go_to_next();
                Ok(())
            }
            Stage::Telling | Stage::Exiting => {
                self.stage = Stage::Exiting;
                Ok(())
            }
        }
    }

    /// What was to be said was said.
    fn go_to_next(&mut self)
        requires { self.old.stage ≡ Stage.Saying }
        ensures goes { (reply : Reply) → spec.GoesOn self.old reply self.new }
        ensures due { spec.due self.new ≡ spec.due self.old }
        ensures talk { self.new.talk ≡ self.old.talk }
        ensures broken { self.new.core.broken ≡ self.old.core.broken }
        ensures stands { spec.Stands self.old → spec.Stands self.new }
        ensures nears { ends.Nears (ends.ahead self.old) (ends.ahead self.new) }
    {
        self.stage = self.next;
    }

    /// A message is to be said, and then this is next.
    pub(crate) fn say(&mut self, message: String, next: Stage)
        ensures { self.new ≡ record self.old { stage = Stage.Saying; next = next } }
    {
        self.said = message;
        self.stage = Stage::Saying;
        self.next = next;
    }

    /// The last message is to be said, which needs no memory.
    pub(crate) fn tell(&mut self, message: &'static str, status: u8)
        ensures { self.new ≡ record self.old {
          stage = Stage.Telling;
          next = Stage.Exiting;
          core = record (self.old.core) { status = status };
        } }
    {
        self.last = message;
        self.status = status;
        self.stage = Stage::Telling;
        self.next = Stage::Exiting;
    }

    /// Memory has run out before the first connection: the files are left as they were.
    fn give_up(&mut self)
        ensures ends { spec.Ends self.new }
        ensures talk { self.new.talk ≡ self.old.talk }
        ensures broken { self.new.core.broken ≡ self.old.core.broken }
        ensures over { serving.is_over (spec.due self.new) ≡ true }
        ensures stands { spec.Stands self.new }
    {
        self.tell(OUT_OF_MEMORY, 4);
        if self.contacts.grows {
            self.stage = Stage::Discarding;
        }
    }

    /// Memory has run out: the connection is left. At the end of a service that is said at once.
    fn run_short(&mut self)
        ensures ends { spec.Ends self.new }
        ensures talk { self.new.talk
            ≡ record (self.old.talk) { end = serving_left self.old.talk.end } }
        ensures broken { self.new.core.broken ≡ true }
        ensures over { serving.is_over (spec.due self.new) ≡ true }
        ensures stands { spec.Stands self.new }
        ensures nears { spec.is_closing self.old.stage ≡ true
            → ends.IsWithin 1 (ends.ahead self.new) }
    {
        self.server.leave();
        self.broken = Some(Break::Fault(PumpFault::Memory));
        match self.stage {
            Stage::Logged | Stage::Looking | Stage::Making | Stage::Listening => self.give_up(),
            Stage::Discarding | Stage::SettingAside | Stage::Beginning => self.give_up(),
            Stage::Replacing | Stage::Printing => self.tell(OUT_OF_MEMORY, 4),
            _ => {
                if self.close().is_err() {
                    self.tell(OUT_OF_MEMORY, 4);
                }
            }
        }
    }
}
