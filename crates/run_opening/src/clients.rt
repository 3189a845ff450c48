// The client of a run, and what is said before its server is called.

ghost use Rattle.std.specs.Prelude.{◌≡◌, ◌≤◌, true, length, OnOk, IfOk};
ghost use Rattle.run_opening.specs.Names.{begun, connection_most, end_connected, may_connect};
ghost use Rattle.run_opening.specs.Openings as spec;

use crate::openings::Opening;
use crate::sayings::{kept_lines, next_lines, text_lines};
use crate::stages::Stage;
use client_core::Client;
use contact_ledger::{CONNECTION_MAX, FeatureLedger, ServerLedger};
use effects::Answer;
use order_parts::{OrderFault, TextPlace, kept_client};
use program_review::{Waits, command_lines, text_places};
use record_text::Beginning;
use run_session::{Begun, Errors, Output, Run, touches_of};
use std::alloc::{AllocError, Global};

const ASKED: &str = "dme: an empty line begins the run, anything else ends it\n";

/// A file of a run, if it is named.
fn output(alloc: Global, name: Option<String>, grows: bool) -> Result<Option<Output>, AllocError> {
    let Some(name) = name else { return Ok(None) };
    let beside = format!(in alloc; "{name}.new")?;
    Ok(Some(Output {
        name,
        beside,
        grows,
    }))
}

/// What a run begins with, besides its client: the number of its connection, what servers reported before it, and its record's text.
#[derive(Drop)]
struct Before {
    number: u64,
    told: ServerLedger,
    text: Vec<u8>,
}

impl Opening {
    /// The run continues from these features of a file, without a record.
    pub(crate) fn take_kept(&mut self, features: FeatureLedger) -> Result<(), AllocError>
        ensures { OnOk result (spec.Keeps features self.old self.new) }
    {
        let before = Before {
            number: 1,
            told: ServerLedger::new(self.alloc),
            text: Vec::new(self.alloc),
        };
        self.take_client(features, before)
    }

    /// The run continues from its record, which has its text.
    pub(crate) fn take_beginning(&mut self) -> Result<(), AllocError>
        ensures { OnOk result (spec.Leads spec.IsFilled self.old self.new) }
    {
        let Some(beginning) = self.beginning.take() else {
            return Err(AllocError);
        };
        let Beginning {
            features,
            told,
            connection,
            text,
            ..
        } = beginning;
        if connection < 1 || connection > CONNECTION_MAX {
            let name = self.order.record.take();
            return self.refuse_file(name, Answer::Done);
        }
        let before = Before {
            number: connection,
            told,
            text,
        };
        self.take_client(features, before)
    }

    /// The client of the program, which has these features.
    fn take_client(&mut self, features: FeatureLedger, before: Before) -> Result<(), AllocError>
        requires first { 1 ≤ before.number }
        requires most { before.number ≤ connection_most }
        ensures { OnOk result (spec.TakesClient features before.number before.text.items self.old
            self.new) }
    {
        let Some(program) = self.program.take() else {
            return Err(AllocError);
        };
        match kept_client(self.alloc, program, features, self.order.window) {
            Ok(client) => self.prepare(client, before),
            Err(_) => self.refuse_order(OrderFault::NotOurs),
        }
    }

    /// What comes first is to be said.
    fn say_first(&mut self, client: &Client, places: &[TextPlace]) -> Result<(), AllocError>
        ensures { self.new ≡ self.old }
    {
        self.say_kept(client)?;
        if client.features().len() > 0 || self.order.confirm {
            self.say_next(client, places)?;
        }
        Ok(())
    }

    /// What the run begins with, of this client, which comes to its connection.
    fn begun_of(
        &mut self,
        client: &mut Client,
        before: Before,
        places: Vec<TextPlace>,
    ) -> Result<Begun, AllocError>
        requires { may_connect before.number client.old.client ≡ true }
        ensures given { spec.HasGiven self.old self.new }
        ensures client { OnOk result (client.new ≡ end_connected before.number client.old) }
        ensures growth { IfOk result (λ b. b.growth ≡ begun before.number 0
            (length client.old.client.table.tally.features) before.text.items) }
    {
        let Before { number, told, text } = before;
        let run = self.run()?;
        let errors = self.errors(client)?;
        Begun::new(self.alloc, run, client, number, text, &told, errors, places)
    }

    /// The run has its client.
    fn hold_client(&mut self, client: Client, begun: Begun)
        ensures { spec.HasClient client begun self.old self.new }
    {
        self.client = Some(client);
        self.begun = Some(begun);
    }

    /// What is to be said is said next.
    fn tell(&mut self)
        ensures { spec.Leads spec.IsOpened self.old self.new }
    {
        if self.said.is_empty() {
            self.told();
        } else {
            self.stage = Stage::Telling;
        }
    }

    /// What comes first is to be said, and what the run begins with is made.
    #[tactic(auto, using(crate::proofs::Beginnings::opened_starts))]
    fn prepare(&mut self, client: Client, before: Before) -> Result<(), AllocError>
        requires { may_connect before.number client.client ≡ true }
        ensures { OnOk result (spec.StartsClient client before.number before.text.items self.old
            self.new) }
    {
        let mut client = client;
        let places = self.places(&client)?;
        self.say_first(&client, places.as_slice())?;
        let begun = self.begun_of(&mut client, before, places)?;
        self.hold_client(client, begun);
        self.tell();
        Ok(())
    }

    /// It was said: the answer is awaited, or the run begins.
    pub(crate) fn told(&mut self)
        ensures { spec.Leads spec.IsOpened self.old self.new }
    {
        if self.order.confirm {
            self.stage = Stage::Confirming;
        } else {
            self.stage = Stage::Ready;
        }
    }

    /// The name of the file that gives features back: the record, or else the features file.
    fn kept_name(&self) -> Option<&str> {
        match &self.order.record {
            Some(name) => Some(name.as_str()),
            None => self.order.features.as_deref(),
        }
    }

    /// How many features are given back by the record, or by the features file.
    fn say_kept(&mut self, client: &Client) -> Result<(), AllocError>
        ensures { self.new ≡ self.old }
    {
        let Some(name) = self.kept_name() else {
            return Ok(());
        };
        let (kept, wanted) = (client.features(), client.program().features());
        self.said = kept_lines(self.alloc, name, kept, wanted)?;
        Ok(())
    }

    /// What comes next, and what is asked.
    fn say_next(&mut self, client: &Client, places: &[TextPlace]) -> Result<(), AllocError>
        ensures { self.new ≡ self.old }
    {
        let next = next_lines(self.alloc, client, self.tasks.as_slice())?;
        self.said.push_str(next.as_str())?;
        if self.order.confirm {
            let texts = text_lines(self.alloc, places)?;
            self.said.push_str(texts.as_str())?;
            self.said.push_str(ASKED)?;
        }
        Ok(())
    }

    /// What the run holds back at each text for the operator.
    fn places(&self, client: &Client) -> Result<Vec<TextPlace>, AllocError> {
        let waits = Waits {
            at_texts: self.order.pause,
            at_begin: self.order.confirm,
        };
        let touches = kept_touches(client);
        let tasks = self.tasks.as_slice();
        text_places(self.alloc, waits, touches, tasks, self.texts.as_slice())
    }

    /// What is known of the commands, to show the server's errors by.
    fn errors(&self, client: &Client) -> Result<Errors, AllocError> {
        let lines = command_lines(self.alloc, self.tasks.as_slice(), kept_touches(client))?;
        Ok(Errors::new(self.alloc, client.features().len(), lines))
    }

    /// The values of the run on its connection.
    fn run(&mut self) -> Result<Run, AllocError>
        ensures { spec.HasGiven self.old self.new }
    {
        let alloc = self.alloc;
        let features = output(alloc, self.order.features.take(), self.has_features)?;
        let contacts = output(alloc, self.order.contacts.take(), self.has_contacts)?;
        let record = output(alloc, self.order.record.take(), true)?;
        let notes = self.notes()?;
        let key = self.key.take();
        Ok(Run {
            host: std::mem::replace(&mut self.order.host, String::new(alloc)),
            port: self.order.port,
            wait: self.order.wait,
            timeout: self.order.timeout,
            stop: self.order.stop.take(),
            trace: self.order.trace,
            log: self.order.log.take(),
            progress: self.order.progress,
            on_terminal: self.on_terminal,
            features,
            contacts,
            record,
            notes,
            key,
        })
    }
}

/// How many touches the features that are kept have.
fn kept_touches(client: &Client) -> usize {
    let all = client.program().features();
    let (kept, _) = all.split_at(client.features().len().min(all.len()));
    touches_of(kept)
}
