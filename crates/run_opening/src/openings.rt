// A session that opens a run: what it asks, and what it does with an answer.

ghost use Rattle.std.specs.Prelude.{◌≡◌, ◌↔◌, true, OnOk, IsSome, IfSome};
ghost use Rattle.client_core.specs.Clients.{is_window};
ghost use Rattle.effects.specs.Effects.{the_ask, the_reply, the_place, Reply};
ghost use Rattle.run_opening.specs.Openings as spec;
ghost use Rattle.run_opening.specs.Asking as asking;

use crate::stages::{Stage, Text};
use client_core::Client;
use contact_ledger::FeatureLedger;
use dme_words::Run;
use dmis_program::Program;
use effects::{Answer, Called, Effect, Growth, Place, Slot};
use program_review::{InputFiles, OperatorText, TaskLine};
use record_text::Beginning;
use run_session::{Begun, Session};
use std::alloc::{AllocError, Global};
use std::marker::Model;
use tool_rack::Setup;

const OUT_OF_MEMORY: &str = "dme: out of memory\n";

/// The command `run` up to the call of its server.
#[derive(Drop)]
pub struct Opening {
    pub(crate) alloc: Global,
    pub(crate) order: Run,
    /// Whether standard error is a terminal.
    pub(crate) on_terminal: bool,
    pub(crate) stage: Stage,
    /// The files that were compared.
    pub(crate) called: Vec<Called>,
    /// Whether standard input was read, and how many pieces of a text have come.
    pub(crate) input_is_taken: bool,
    pub(crate) pieces: u32,
    pub(crate) text: Vec<u8>,
    pub(crate) files: InputFiles,
    pub(crate) setup: Option<Setup>,
    pub(crate) features: Option<FeatureLedger>,
    pub(crate) program: Option<Program>,
    pub(crate) key: Option<Vec<u8>>,
    /// How many features the program asks for.
    pub(crate) asked: usize,
    pub(crate) tasks: Vec<TaskLine>,
    pub(crate) texts: Vec<OperatorText>,
    /// Whether the files of features and contacts are locked, and whether the stop file was there.
    pub(crate) has_features: bool,
    pub(crate) has_contacts: bool,
    pub(crate) is_stopped: bool,
    /// What the record gives back, and how many bytes its file has.
    pub(crate) beginning: Option<Beginning>,
    pub(crate) length: usize,
    pub(crate) client: Option<Client>,
    pub(crate) begun: Option<Begun>,
    pub(crate) said: String,
    pub(crate) status: u8,
    /// The last message, if memory has run out.
    pub(crate) message: &'static str,
}

impl Model for Opening {
    ghost use Rattle.run_opening.specs.Openings.{State as OneState};
    ghost use Rattle.client_core.specs.Clients.{is_window};
    ghost use Rattle.effects.specs.Naming.{seen_of};
    ghost use Rattle.std.specs.Prelude.{◌≡◌, true, map, option_map};

    ghost Value = { OneState };

    ghost view = { λ s. record {
      stage = s.stage;
      text = s.text.items;
      status = s.status;
      called = map seen_of s.called.items;
      core = record {
        order = s.order;
        setup = s.setup;
        features = s.features;
        program = s.program;
        key = option_map (λ key. key.items) s.key;
        stopped = s.is_stopped;
        beginning = s.beginning;
        client = s.client;
        begun = s.begun;
      };
    } };

    ghost invariant = { λ s. is_window s.order.window ≡ true };
}

impl Opening {
    /// A run of these values, which shows how far it is on a terminal or not.
    #[tactic(auto, using(crate::proofs::Comparing::begins_comparing))]
    pub fn new(alloc: Global, order: Run, on_terminal: bool) -> Opening
        requires { is_window order.window ≡ true }
        ensures { spec.Holds order result spec.untouched }
    {
        let mut opening = Opening {
            alloc,
            order,
            on_terminal,
            stage: Stage::Placing(0),
            called: Vec::new(alloc),
            input_is_taken: false,
            pieces: 0,
            text: Vec::new(alloc),
            files: InputFiles::unnamed(alloc),
            setup: None,
            features: None,
            program: None,
            key: None,
            asked: 0,
            tasks: Vec::new(alloc),
            texts: Vec::new(alloc),
            has_features: false,
            has_contacts: false,
            is_stopped: false,
            beginning: None,
            length: 0,
            client: None,
            begun: None,
            said: String::new(alloc),
            status: 0,
            message: "",
        };
        opening.compare_next(0);
        opening
    }

    /// Whether the run may begin.
    pub fn is_ready(&self) -> bool
        ensures { result ≡ true ↔ self.now.stage ≡ Stage.Ready }
    {
        matches!(self.stage, Stage::Ready)
    }

    /// The name of a text that is read.
    pub(crate) fn name_of(&self, text: Text) -> &str
        ensures { result.now ≡ asking.name_of text self.now.core.order }
    {
        match text {
            Text::Setup => self.order.setup.as_str(),
            Text::Features => self.order.features.as_deref().unwrap_or(""),
            Text::Program => self.order.program.as_str(),
            Text::Key => self.order.seal_key.as_deref().unwrap_or(""),
            Text::Record => self.order.record.as_deref().unwrap_or(""),
        }
    }

    /// Where a text is: standard input gives one of them, and nothing to another.
    fn place_of(&self, text: Text) -> Place<'_>
        ensures { asking.IsFrom (asking.name_of text self.now.core.order) (the_place result) }
    {
        match (text, self.name_of(text)) {
            (Text::Setup | Text::Program, "-") if self.input_is_taken => Place::Nothing,
            (Text::Setup | Text::Program, "-") => Place::Input,
            (_, name) => Place::Named(name),
        }
    }

    /// The text that the record is to have, and how many bytes of it its file has.
    fn text_of_record(&self) -> (&[u8], usize)
        ensures { asking.IsTextOf self.now.core.beginning result.0.now result.1 }
    {
        match &self.beginning {
            Some(beginning) => (beginning.text.as_slice(), beginning.held),
            None => (&[], 0),
        }
    }

    /// What is to be done next with files that are locked.
    fn asks_of_files(&self) -> Effect<'_>
        requires { asking.is_of_files self.now.stage ≡ true }
        ensures { asking.Asks self.now (the_ask result) }
    {
        let (text, held) = self.text_of_record();
        match self.stage {
            Stage::HoldingRecord => Effect::Hold(Growth::Record, self.name_of(Text::Record)),
            Stage::LookingFeatures => Effect::Look(self.name_of(Text::Features)),
            Stage::HoldingFeatures => Effect::Hold(Growth::Features, self.name_of(Text::Features)),
            Stage::LookingContacts => Effect::Look(self.order.contacts.as_deref().unwrap_or("")),
            Stage::HoldingContacts => Effect::Hold(
                Growth::Contacts,
                self.order.contacts.as_deref().unwrap_or(""),
            ),
            Stage::Filling => Effect::Fill(Growth::Record, text, held, self.length),
            Stage::DiscardingFeatures => Effect::Discard(Growth::Features),
            Stage::DiscardingContacts => Effect::Discard(Growth::Contacts),
            _ => Effect::Discard(Growth::Record),
        }
    }

    /// What is to be done next.
    pub fn asks(&self) -> Effect<'_>
        ensures { asking.Asks self.now (the_ask result) }
    {
        match self.stage {
            Stage::Placing(at) => Effect::Place(self.called_name(at)),
            Stage::Numbering(at) => Effect::Node(self.called_name(at)),
            Stage::Opening(text) => Effect::Open(Slot::Up, self.place_of(text)),
            Stage::Reading(_) => Effect::Read(Slot::Up),
            Stage::Warning | Stage::Telling => Effect::Say(self.said.as_str()),
            Stage::Peeking => Effect::Exists(self.order.stop.as_deref().unwrap_or("")),
            Stage::Confirming | Stage::Returning => Effect::Byte,
            Stage::Ending if self.message.is_empty() => Effect::Say(self.said.as_str()),
            Stage::Ending => Effect::Say(self.message),
            Stage::Ready | Stage::Exiting => Effect::Exit(self.status),
            _ => self.asks_of_files(),
        }
    }

    /// What came of it. If memory runs out meanwhile, nothing is begun.
    pub fn take(&mut self, answer: Answer<'_>)
        ensures { spec.GoesOn self.old (the_reply answer.entry) self.new }
    {
        if self.step(answer).is_err() {
            self.message = OUT_OF_MEMORY;
            self.status = 4;
            self.stage = Stage::DiscardingFeatures;
        }
    }

    fn step(&mut self, answer: Answer<'_>) -> Result<(), AllocError>
        ensures { OnOk result (spec.GoesOn self.old (the_reply answer.entry) self.new) }
    {
        match self.stage {
            Stage::Placing(at) => self.placed(at, answer),
            Stage::Numbering(at) => self.numbered(at, answer),
            Stage::HoldingRecord | Stage::LookingFeatures | Stage::HoldingFeatures => {
                self.held(answer)
            }
            Stage::LookingContacts | Stage::HoldingContacts => self.held(answer),
            Stage::Opening(text) => self.opened(text, answer),
            Stage::Reading(text) => self.read(text, answer),
            Stage::Warning => {
                self.said.clear();
                self.peek()
            }
            Stage::Peeking => self.peeked(answer),
            Stage::Filling => self.filled(answer),
            Stage::Telling => {
                self.told();
                Ok(())
            }
            Stage::Ready => Ok(()),
            Stage::Confirming | Stage::Returning => self.confirmed(answer),
            _ => {
                self.end_on();
                Ok(())
            }
        }
    }

    /// The next step of an end.
    fn end_on(&mut self)
        requires { spec.is_ending self.old.stage ≡ true }
        ensures { (reply : Reply) → spec.GoesOn self.old reply self.new }
    {
        self.stage = match self.stage {
            Stage::DiscardingFeatures => Stage::DiscardingContacts,
            Stage::DiscardingContacts => Stage::DiscardingRecord,
            Stage::DiscardingRecord => Stage::Ending,
            _ => Stage::Exiting,
        };
    }

    /// The run itself, if it may begin.
    pub fn session(&mut self) -> Option<Session>
        ensures ready { IsSome result → self.old.stage ≡ Stage.Ready }
        ensures session { IfSome result (λ session.
            asking.IsSessionOf self.old.core.client self.old.core.begun session.pair) }
    {
        if !self.is_ready() {
            return None;
        }
        let client = self.client.take()?;
        let begun = self.begun.take()?;
        Some(Session::new(client, begun))
    }
}
