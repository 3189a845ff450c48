// The relay: what it asks, and what it does with an answer.

ghost use Rattle.std.specs.Prelude.{◌≡◌, ◌⊎◌, [], true, false, IfOk, is_err};
ghost use Rattle.effects.specs.Effects.{the_ask, the_reply, Reply};
ghost use Rattle.watched_ends.specs.Limits.{IsTold, down_of};
ghost use Rattle.services.specs.Ends as ends;
ghost use Rattle.services.specs.Relays as spec;

use crate::contacts::GrowingNames;
use crate::recordings::{Recording, recording_in, slot_after};
use crate::relay_stages::RelayStage as Stage;
use crate::relays::Relay;
use crate::sessions::{LOOK_MS, OUT_OF_MEMORY};
use effects::{Answer, Cause, Effect, Growth, Peer, Slot};
use session_telling::{Lines, Wait};
use std::alloc::{AllocError, Global};
use std::marker::Model;
use watched_ends::{LimitedRelay, ORDER_HEADER};
use witness::HEADER;

/// Why a connection is no longer relayed.
#[derive(Clone, Copy, Debug)]
pub enum Ended {
    /// Both ends have left it.
    Left,
    /// No server was reached.
    Unreached(Cause),
    /// It broke off.
    Broken(Cause),
    /// Nothing came for too long.
    Silent,
    /// Out of memory.
    Memory,
}

/// What of a connection has come to its end.
#[derive(Clone, Copy, Debug)]
pub struct Ends {
    /// Whether the client has ended what it sends.
    pub client: bool,
    /// Whether the server has.
    pub server: bool,
    /// Whether the server was given that end.
    pub up: bool,
    /// Whether the client was.
    pub down: bool,
}

impl Ends {
    pub fn new() -> Ends
        ensures { result.client ≡ false }
    {
        Ends {
            client: false,
            server: false,
            up: false,
            down: false,
        }
    }
}

/// The command `watch`: a relay between clients and a server, which keeps what the server has told.
#[derive(Drop)]
pub struct RelaySession {
    pub(crate) alloc: Global,
    pub(crate) order: Relay,
    pub(crate) names: GrowingNames,
    pub(crate) stage: Stage,
    /// What comes after what is said.
    pub(crate) next: Stage,
    pub(crate) relay: LimitedRelay,
    pub(crate) ends: Ends,
    pub(crate) wait: Wait,
    pub(crate) lines: Lines,
    pub(crate) shown: String,
    pub(crate) is_logged: bool,
    /// Whether there was more in the told file than the first bytes of its first text.
    pub(crate) has_more: bool,
    /// Whether the told file is kept.
    pub(crate) is_told: bool,
    pub(crate) recording: Option<Recording>,
    /// The bytes that are kept, and which end has sent bytes last.
    pub(crate) piece: Vec<u8>,
    pub(crate) from: Peer,
    /// What is added to a file.
    pub(crate) text: Vec<u8>,
    /// The number of the last connection, and how many may still come.
    pub(crate) number: u64,
    pub(crate) left: u32,
    /// Whether anything has moved in this turn.
    pub(crate) has_moved: bool,
    /// Whether both ends are connected, and the client has sent no whole line.
    pub(crate) is_bare: bool,
    /// Whether it was said that a connection cannot be taken.
    pub(crate) is_untaken: bool,
    pub(crate) ended: Ended,
    pub(crate) said: String,
    pub(crate) last: &'static str,
    /// The status of the exit: 0 as long as all that was asked for was done.
    pub(crate) status: u8,
}

impl Model for RelaySession {
    ghost use Rattle.services.specs.Files.{made_of};
    ghost use Rattle.services.specs.Relays.{RelayState};

    ghost Value = { RelayState };

    ghost view = { λ s. record {
      stage = s.stage;
      next = s.next;
      talk = record {
        relay = s.relay;
        number = s.number;
        is_told = s.is_told;
        has_ended = s.ends.client;
      };
      end = record { status = s.status; left = s.left };
      files = made_of s.recording;
    } };
}

impl RelaySession {
    /// A session that carries out this relay. Fails only if out of memory.
    pub fn new(alloc: Global, order: Relay) -> Result<RelaySession, AllocError>
        ensures { IfOk result (λ s. spec.Begins order.connections s) }
    {
        let names = GrowingNames::new(alloc, order.told.as_str())?;
        let recording = recording_in(alloc, order.folder.as_deref(), 1)?;
        let is_shown = order.trace || order.log.is_some();
        let is_logged = order.log.is_some();
        let left = order.connections;
        Ok(RelaySession {
            alloc,
            wait: Wait::new(order.timeout),
            order,
            names,
            stage: Stage::Making,
            next: Stage::Making,
            relay: LimitedRelay::new(alloc, 0),
            ends: Ends::new(),
            lines: Lines::new(alloc, is_shown),
            shown: String::new(alloc),
            is_logged,
            has_more: false,
            is_told: true,
            recording,
            piece: Vec::new(alloc),
            from: Peer::Client,
            text: Vec::new(alloc),
            number: 0,
            left,
            has_moved: false,
            is_bare: false,
            is_untaken: false,
            ended: Ended::Left,
            said: String::new(alloc),
            last: "",
            status: 0,
        })
    }

    fn asks_of_recording(&self) -> Effect<'_>
        requires { spec.is_recording self.now.stage ≡ true }
        ensures { spec.Asks self.now (the_ask result) }
    {
        let Some(recording) = &self.recording else {
            return Effect::Say("");
        };
        let slot = slot_after(recording.made);
        match self.stage {
            Stage::Creating => Effect::Create(slot, recording.name(slot)),
            Stage::Heading => Effect::Save(slot, ORDER_HEADER),
            Stage::Settling => Effect::Settle(slot),
            Stage::Removing => {
                let slot = slot_after(recording.made.fewer());
                Effect::Remove(recording.name(slot))
            }
            Stage::Saving => Effect::Save(slot_of(self.from), self.piece.as_slice()),
            _ => Effect::Save(Slot::Order, self.text.as_slice()),
        }
    }

    fn asks_before(&self) -> Effect<'_>
        requires { spec.is_before self.now.stage ≡ true }
        ensures { spec.Asks self.now (the_ask result) }
    {
        match self.stage {
            Stage::Making => Effect::Make(
                Growth::Told,
                self.names.name.as_str(),
                self.names.beside.as_str(),
                HEADER,
            ),
            Stage::Listening => Effect::Listen("127.0.0.1", self.order.listen, false),
            Stage::Listing => Effect::Names(self.order.folder.as_deref().unwrap_or("")),
            Stage::Discarding => Effect::Discard(Growth::Told),
            Stage::SettingAside => Effect::SetAside(Growth::Told, self.names.old.as_str()),
            Stage::Beginning => Effect::Begin(Growth::Told),
            _ => Effect::Extend(self.order.log.as_deref().unwrap_or("")),
        }
    }

    fn asks_of_ends(&self) -> Effect<'_>
        requires { spec.is_of_ends self.now.stage ≡ true }
        ensures { spec.Asks self.now (the_ask result) }
    {
        match self.stage {
            Stage::Accepting => Effect::Accept(None, None),
            Stage::Connecting => Effect::Connect(
                self.order.host.as_str(),
                self.order.port,
                self.order.timeout.map(|seconds| u64::from(seconds) * 1000),
            ),
            Stage::Joining => Effect::Join,
            Stage::HearingClient => Effect::Receive(Peer::Client),
            Stage::HearingServer => Effect::Receive(Peer::Server),
            Stage::PassingUp => Effect::Pass(Peer::Server, self.relay.to_server()),
            Stage::ClosingUp => Effect::Close(Peer::Server),
            Stage::PassingDown => Effect::Pass(Peer::Client, self.to_client()),
            Stage::ClosingDown => Effect::Close(Peer::Client),
            Stage::Waiting => Effect::Wait(self.limit().map(|_| LOOK_MS)),
            _ => Effect::Leave,
        }
    }

    /// What came from the server and may be sent on: nothing until all that it told was written.
    pub(crate) fn to_client(&self) -> &[u8]
        ensures held { (result.now ≡ []) ⊎ (IsTold self.now.talk.relay
            × (result.now ≡ down_of self.now.talk.relay)) }
        ensures told { IsTold self.now.talk.relay → result.now ≡ down_of self.now.talk.relay }
    {
        if self.relay.is_all_told() {
            self.relay.to_client()
        } else {
            &[]
        }
    }

    /// What is to be done next.
    pub fn asks(&self) -> Effect<'_>
        ensures { spec.Asks self.now (the_ask result) }
    {
        match self.stage {
            Stage::Making | Stage::Listening | Stage::Listing | Stage::Discarding => {
                self.asks_before()
            }
            Stage::SettingAside | Stage::Beginning | Stage::Logged => self.asks_before(),
            Stage::Creating | Stage::Heading | Stage::Removing => self.asks_of_recording(),
            Stage::Saving | Stage::Noting | Stage::Settling => self.asks_of_recording(),
            Stage::Pausing => Effect::Sleep(LOOK_MS),
            Stage::Tracing => Effect::Say(self.shown.as_str()),
            Stage::Stamping => Effect::Stamp,
            Stage::Logging => Effect::Add(self.text.as_slice()),
            Stage::Telling => Effect::Append(Growth::Told, self.relay.due()),
            Stage::Timing => Effect::Now,
            Stage::Forcing => Effect::Keep(Growth::Told, b"".as_slice()),
            Stage::Saying => Effect::Say(self.said.as_str()),
            Stage::Parting => Effect::Say(self.last),
            Stage::Exiting => Effect::Exit(self.status),
            _ => self.asks_of_ends(),
        }
    }

    /// What came of it. If memory runs out meanwhile, the connection is left; outside one, the relay ends. After the exit nothing changes.
    #[tactic(auto, using(crate::proofs::Relayed::short_steps, crate::proofs::Relayed::same_steps))]
    pub fn take(&mut self, answer: Answer<'_>)
        ensures steps { spec.Steps self.old (the_reply answer.entry) self.new }
        ensures last { self.old.stage ≡ Stage.Exiting → self.new ≡ self.old }
        ensures nears { ends.Nears (ends.relay_ahead self.old) (ends.relay_ahead self.new) }
    {
        if let Stage::Exiting = self.stage {
            return;
        }
        if self.step(answer).is_err() {
            self.run_short();
        }
    }

    /// The session after an answer.
    fn step(&mut self, answer: Answer<'_>) -> Result<(), AllocError>
        ensures takes { spec.Takes result self.old (the_reply answer.entry) self.new }
        ensures nears { ends.Nears (ends.relay_ahead self.old) (ends.relay_ahead self.new) }
        ensures done { (ends.relay_ahead self.old).ends ≡ true → is_err result ≡ false }
    {
        match self.stage {
            Stage::Making | Stage::Listening | Stage::Listing => self.prepare(answer),
            Stage::SettingAside | Stage::Beginning | Stage::Logged => self.begin(answer),
            Stage::Creating | Stage::Heading => self.record(answer),
            Stage::Pausing | Stage::Accepting => self.accept(answer),
            Stage::Connecting | Stage::Joining => self.join(answer),
            Stage::HearingClient => self.hear(Peer::Client, answer),
            Stage::HearingServer => self.hear(Peer::Server, answer),
            Stage::Tracing | Stage::Stamping | Stage::Logging => self.show_on(answer),
            Stage::Saving | Stage::Noting => self.save_on(answer),
            Stage::Telling => self.told(answer),
            Stage::PassingUp | Stage::PassingDown => self.pass(answer),
            Stage::ClosingUp | Stage::ClosingDown => self.wait_on(answer),
            Stage::Timing | Stage::Waiting => self.wait_on(answer),
            Stage::Forcing | Stage::Settling | Stage::Leaving => self.end_on(answer),
            _ => {
                self.close_on();
                Ok(())
            }
        }
    }

    /// Likewise at the end, or after what was said.
    #[tactic(auto, using(crate::proofs::Relayed::closing_steps, crate::proofs::Relayed::due_steps, crate::proofs::Relayed::same_due))]
    fn close_on(&mut self)
        requires { spec.is_closing self.old.stage ≡ true }
        ensures steps { (reply : Reply) → spec.Steps self.old reply self.new }
        ensures nears { ends.Nears (ends.relay_ahead self.old) (ends.relay_ahead self.new) }
    {
        match self.stage {
            Stage::Discarding => self.discarded(),
            Stage::Removing => self.removed(),
            Stage::Saying => self.stage = self.next,
            _ => self.stage = Stage::Exiting,
        }
    }

    /// A message is to be said, and then this is next.
    pub(crate) fn say(&mut self, message: String, next: Stage)
        ensures { self.new ≡ spec.saying next self.old }
    {
        self.said = message;
        self.stage = Stage::Saying;
        self.next = next;
    }

    /// Memory has run out outside a connection: the relay ends, and before its first connection all files are as they were.
    #[tactic(auto, using(crate::proofs::Relayed::gives_short))]
    fn give_up(&mut self)
        ensures { spec.IsShort self.old self.new }
    {
        self.last = OUT_OF_MEMORY;
        self.status = 4;
        self.stage = if self.number == 0 {
            Stage::Discarding
        } else {
            Stage::Parting
        };
    }

    /// Memory has run out: a connection is left; outside one, the relay ends.
    #[tactic(auto, using(crate::proofs::Relayed::fails_short))]
    fn run_short(&mut self)
        ensures { spec.IsShort self.old self.new }
    {
        match self.stage {
            Stage::HearingClient
            | Stage::HearingServer
            | Stage::Stamping
            | Stage::Logging
            | Stage::Saving
            | Stage::Noting
            | Stage::Telling => self.fail(Ended::Memory),
            _ => self.give_up(),
        }
    }
}

/// The file of a recording that the bytes of an end are kept in.
fn slot_of(peer: Peer) -> Slot {
    match peer {
        Peer::Client => Slot::Up,
        Peer::Server => Slot::Down,
    }
}
