// The sessions that are played.

ghost use Rattle.std.specs.Prelude.{◌≡◌, true, IfOk};
ghost use Rattle.client_core.specs.Clients.{is_window};

use crate::Stop;
use dme_words::Run;
use effects::{Answer, Effect};
use run_opening::Opening;
use services::{Relay, RelaySession, Service, Session};
use std::alloc::{AllocError, Global};
use tool_rack::Setup;

/// A run: its opening, and then itself.
#[derive(Drop)]
pub(crate) struct Running {
    opening: Opening,
    session: Option<run_session::Session>,
}

/// What asks for one effect after another; nobody if there is no relay.
#[derive(Drop)]
pub(crate) enum Plays {
    Nobody,
    Run(Running),
    Service(Session),
    Relay(RelaySession),
}

impl Running {
    fn asks(&self) -> Effect<'_> {
        match &self.session {
            Some(session) => session.asks(),
            None => self.opening.asks(),
        }
    }

    fn take(&mut self, answer: Answer<'_>) {
        if let Some(session) = &mut self.session {
            return session.take(answer);
        }
        self.opening.take(answer);
        if self.opening.is_ready() {
            self.session = self.opening.session();
        }
    }
}

impl Plays {
    pub(crate) fn asks(&self) -> Option<Effect<'_>> {
        match self {
            Plays::Nobody => None,
            Plays::Run(run) => Some(run.asks()),
            Plays::Service(service) => Some(service.asks()),
            Plays::Relay(relay) => Some(relay.asks()),
        }
    }

    pub(crate) fn take(&mut self, answer: Answer<'_>) {
        match self {
            Plays::Nobody => {}
            Plays::Run(run) => run.take(answer),
            Plays::Service(service) => service.take(answer),
            Plays::Relay(relay) => relay.take(answer),
        }
    }
}

fn text(alloc: Global, text: &str) -> Result<String, AllocError> {
    String::from_str(alloc, text)
}

fn order(alloc: Global) -> Result<Run, AllocError>
    ensures { IfOk result (λ order. is_window order.window ≡ true) }
{
    Ok(Run {
        setup: text(alloc, "machine.setup")?,
        host: text(alloc, "server")?,
        port: 1,
        window: 4,
        features: Some(text(alloc, "part.features")?),
        record: Some(text(alloc, "part.record")?),
        part: Some(text(alloc, "0042/7")?),
        operator: None,
        seal_key: None,
        contacts: Some(text(alloc, "part.contacts")?),
        progress: true,
        trace: false,
        log: Some(text(alloc, "part.log")?),
        timeout: Some(5),
        wait: None,
        stop: Some(text(alloc, "stop")?),
        confirm: false,
        pause: false,
        explain: false,
        program: text(alloc, "part.dmis")?,
    })
}

/// A run.
pub(crate) fn new_run(alloc: Global) -> Result<Plays, Stop> {
    Ok(Plays::Run(Running {
        opening: Opening::new(alloc, order(alloc)?, false),
        session: None,
    }))
}

/// A service of this setup for one connection.
pub(crate) fn new_service(alloc: Global, setup: &str) -> Result<Plays, Stop> {
    let service = Service {
        listen: None,
        port: 1,
        connections: 1,
        contacts: Some(text(alloc, "server.contacts")?),
        progress: false,
        trace: false,
        log: None,
        timeout: None,
        stop: None,
    };
    let setup = Setup::read(alloc, setup.as_bytes()).ok().ok_or(Stop::Row)?;
    Ok(Plays::Service(Session::new(alloc, service, setup)?))
}

/// A relay of one connection, which keeps its bytes in this folder.
pub(crate) fn new_relay(alloc: Global, folder: &str) -> Result<Plays, Stop> {
    let relay = Relay {
        listen: 2,
        host: text(alloc, "server")?,
        port: 1,
        told: text(alloc, "told")?,
        folder: Some(text(alloc, folder)?),
        connections: 1,
        trace: false,
        log: None,
        timeout: None,
    };
    Ok(Plays::Relay(RelaySession::new(alloc, relay)?))
}
