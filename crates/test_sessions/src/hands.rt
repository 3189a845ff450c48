// What an end has open, and how each of its effects is carried out in memory.

use crate::files::Files;
use crate::wires::{Pipe, Wire};
use crate::{Kind, Who};
use effects::{Cause, Effect, Growth, Peer, Place, Slot};
use std::alloc::{AllocError, Global};

/// How far a file that grows is: it is locked, perhaps made for that; its next text is next to it; it grows.
#[derive(Clone, Copy)]
enum Growing {
    Nothing,
    Held(usize, bool),
    Next(usize, bool, usize),
    Grows(usize),
}

/// How an end has ended.
#[derive(Clone, Copy, PartialEq, Eq)]
pub(crate) enum Ended {
    No,
    Exit(u8),
    Killed,
}

/// What one end has open, and has said and printed.
#[derive(Drop)]
pub(crate) struct Hand {
    pub(crate) who: Who,
    pub(crate) ended: Ended,
    /// How many effects were carried out.
    pub(crate) count: u64,
    pub(crate) said: Vec<u8>,
    pub(crate) printed: Vec<u8>,
    /// Whether it does not wait any longer for what it has asked for.
    pub(crate) is_woken: bool,
    is_joined: bool,
    /// The file that is read, with the place, and those that are written.
    read: (Option<usize>, usize),
    up: Option<usize>,
    down: Option<usize>,
    order: Option<usize>,
    log: Option<usize>,
    contacts: Growing,
    told: Growing,
    record: Growing,
    features: Growing,
}

impl Hand {
    pub(crate) fn new(alloc: Global, who: Who) -> Hand {
        Hand {
            who,
            ended: Ended::No,
            count: 0,
            said: Vec::new(alloc),
            printed: Vec::new(alloc),
            is_woken: false,
            is_joined: false,
            read: (None, 0),
            up: None,
            down: None,
            order: None,
            log: None,
            contacts: Growing::Nothing,
            told: Growing::Nothing,
            record: Growing::Nothing,
            features: Growing::Nothing,
        }
    }

    fn growing(&mut self, growth: Growth) -> &mut Growing {
        match growth {
            Growth::Contacts => &mut self.contacts,
            Growth::Told => &mut self.told,
            Growth::Record => &mut self.record,
            Growth::Features => &mut self.features,
        }
    }

    /// The file that is written.
    fn written(&mut self, slot: Slot) -> &mut Option<usize> {
        match slot {
            Slot::Up => &mut self.up,
            Slot::Down => &mut self.down,
            Slot::Order => &mut self.order,
        }
    }
}

/// The files, both connections and the time.
#[derive(Drop)]
pub(crate) struct Outside {
    pub(crate) files: Files,
    /// Whether a relay stands between both ends: then a run calls it, and it calls the server.
    pub(crate) is_through: bool,
    pub(crate) first: Wire,
    pub(crate) last: Wire,
    pub(crate) clock: u64,
    /// The bytes of the last answer.
    pub(crate) came: Vec<u8>,
}

impl Outside {
    pub(crate) fn new(alloc: Global, is_through: bool) -> Outside {
        Outside {
            files: Files::new(alloc),
            is_through,
            first: Wire::new(alloc),
            last: Wire::new(alloc),
            clock: 0,
            came: Vec::new(alloc),
        }
    }

    /// The connection of an end with this peer.
    fn wire(&mut self, who: Who, peer: Peer) -> &mut Wire {
        let is_first = match who {
            Who::Run => self.is_through,
            Who::Serve => false,
            Who::Watch => peer == Peer::Client,
        };
        if is_first {
            &mut self.first
        } else {
            &mut self.last
        }
    }

    /// What comes from a peer, and what goes there.
    fn from(&mut self, who: Who, peer: Peer) -> &mut Pipe {
        let wire = self.wire(who, peer);
        match peer {
            Peer::Client => &mut wire.up,
            Peer::Server => &mut wire.down,
        }
    }

    fn to(&mut self, who: Who, peer: Peer) -> &mut Pipe {
        let wire = self.wire(who, peer);
        match peer {
            Peer::Client => &mut wire.down,
            Peer::Server => &mut wire.up,
        }
    }

    /// An end goes, and perhaps loses what it has not forced.
    pub(crate) fn part(&mut self, hand: &mut Hand, ended: Ended, left: Option<usize>) {
        hand.ended = ended;
        self.files.release(hand.who, left);
        self.leave(hand.who);
    }

    /// An end leaves its connections.
    fn leave(&mut self, who: Who) {
        match who {
            Who::Run => self.wire(who, Peer::Server).leave_client(),
            Who::Serve => self.last.leave_server(),
            Who::Watch => {
                self.first.leave_server();
                self.last.leave_client();
            }
        }
    }

    // ---- files that grow

    fn hold(&mut self, hand: &mut Hand, growth: Growth, name: &str) -> Result<Kind, AllocError> {
        let (at, is_first) = self.files.open(hand.who, name)?;
        if !self.files.lock(at, hand.who) {
            return Ok(Kind::Failed(Cause::Locked));
        }
        *hand.growing(growth) = Growing::Held(at, is_first);
        Ok(Kind::Done)
    }

    fn fill(
        &mut self,
        hand: &mut Hand,
        growth: Growth,
        text: &[u8],
        (held, length): (usize, usize),
    ) -> Result<Kind, AllocError> {
        if let Growing::Held(at, _) = *hand.growing(growth)
            && let Some(file) = self.files.items.get_mut(at)
        {
            if held < length {
                file.cut(held);
            }
            file.bytes
                .extend_from_slice(text.get(held..).unwrap_or(&[]))?;
            file.force();
            *hand.growing(growth) = Growing::Grows(at);
        }
        Ok(Kind::Done)
    }

    fn make(
        &mut self,
        hand: &mut Hand,
        growth: Growth,
        (name, beside): (&str, &str),
        text: &[u8],
    ) -> Result<Kind, AllocError> {
        let (at, is_first) = match *hand.growing(growth) {
            Growing::Held(at, is_first) => (at, is_first),
            _ => self.files.open(hand.who, name)?,
        };
        if !self.files.lock(at, hand.who) {
            return Ok(Kind::Failed(Cause::Locked));
        }
        let new = self.files.make(hand.who, beside, text)?;
        *hand.growing(growth) = Growing::Next(at, is_first, new);
        match self.files.get(at) {
            Some(file) if !text.starts_with(file.bytes.as_slice()) => Ok(Kind::Found),
            _ => Ok(Kind::Done),
        }
    }

    /// What was begun of a file that grows goes.
    fn discard(&mut self, hand: &mut Hand, growth: Growth) -> Kind {
        let growing = *hand.growing(growth);
        if let Growing::Held(at, true) | Growing::Next(at, true, _) = growing {
            self.files.unname(at);
        }
        if let Growing::Next(_, _, new) = growing {
            self.files.unname(new);
        }
        *hand.growing(growth) = Growing::Nothing;
        Kind::Done
    }

    fn set_aside(&mut self, growing: Growing, name: &str) -> Result<Kind, AllocError> {
        if let Growing::Next(at, _, _) = growing {
            self.files.rename(at, name)?;
        }
        Ok(Kind::Done)
    }

    /// The new file gets its name: that without its end, `.new`.
    fn begin(&mut self, hand: &mut Hand, growth: Growth) -> Result<Kind, AllocError> {
        if let Growing::Next(_, _, new) = *hand.growing(growth) {
            let mut name = String::new(*self.came.allocator());
            if let Some(file) = self.files.get(new)
                && let Some(text) = file.name.as_str().strip_suffix(".new")
            {
                name.push_str(text)?;
            }
            self.files.rename(new, name.as_str())?;
            self.files.lock(new, hand.who);
            *hand.growing(growth) = Growing::Grows(new);
        }
        Ok(Kind::Done)
    }

    /// A text is added to a file that grows, and perhaps forced; whether it then stands.
    fn grow(&mut self, it: Growing, text: &[u8], is_forced: bool) -> Result<Kind, AllocError> {
        let Growing::Grows(at) = it else {
            return Ok(Kind::Done);
        };
        let Some(file) = self.files.items.get_mut(at) else {
            return Ok(Kind::Done);
        };
        file.bytes.extend_from_slice(text)?;
        if is_forced {
            file.force();
        }
        Ok(Kind::stands(file.is_there))
    }

    fn stands(&self, growing: Growing, length: usize) -> Kind {
        match growing {
            Growing::Grows(at) => Kind::stands(matches!(
                self.files.get(at),
                Some(file) if file.is_there && file.bytes.len() == length
            )),
            _ => Kind::Done,
        }
    }

    /// Carries an effect out, or finds that it has to wait.
    pub(crate) fn carry_out(
        &mut self,
        hand: &mut Hand,
        effect: Effect<'_>,
    ) -> Result<Kind, AllocError> {
        match effect {
            Effect::Hold(growth, name) => self.hold(hand, growth, name),
            Effect::Fill(growth, text, held, length) => {
                self.fill(hand, growth, text, (held, length))
            }
            Effect::Make(growth, name, beside, text) => {
                self.make(hand, growth, (name, beside), text)
            }
            Effect::Discard(growth) => Ok(self.discard(hand, growth)),
            Effect::SetAside(growth, old) => self.set_aside(*hand.growing(growth), old),
            Effect::Begin(growth) => self.begin(hand, growth),
            Effect::Append(growth, text) => self.grow(*hand.growing(growth), text, false),
            Effect::Keep(growth, text) => self.grow(*hand.growing(growth), text, true),
            Effect::Stands(growth, length) => Ok(self.stands(*hand.growing(growth), length)),
            _ => self.on_files(hand, effect),
        }
    }

    // ---- other files

    /// These bytes are the answer.
    fn text(&mut self, bytes: &[u8]) -> Result<Kind, AllocError> {
        self.came.clear();
        self.came.extend_from_slice(bytes)?;
        Ok(Kind::Bytes)
    }

    /// So is what has come, if it is not empty.
    fn came(&self) -> Kind {
        if self.came.is_empty() {
            Kind::End
        } else {
            Kind::Bytes
        }
    }

    fn open(&self, hand: &mut Hand, place: Place<'_>) -> Kind {
        hand.read = (None, 0);
        let Place::Named(name) = place else {
            return Kind::Done;
        };
        hand.read = (self.files.find(name), 0);
        match hand.read {
            (Some(_), _) => Kind::Done,
            (None, _) => Kind::Missing,
        }
    }

    fn read(&mut self, hand: &mut Hand) -> Result<Kind, AllocError> {
        self.came.clear();
        let (Some(at), place) = hand.read else {
            return Ok(Kind::End);
        };
        let Some(file) = self.files.get(at) else {
            return Ok(Kind::End);
        };
        self.came
            .extend_from_slice(file.bytes.as_slice().get(place..).unwrap_or(&[]))?;
        hand.read = (Some(at), file.bytes.len());
        Ok(self.came())
    }

    fn create(&mut self, hand: &mut Hand, slot: Slot, name: &str) -> Result<Kind, AllocError> {
        if self.files.find(name).is_some() {
            return Ok(Kind::Failed(Cause::Taken));
        }
        let at = self.files.make(hand.who, name, b"".as_slice())?;
        *hand.written(slot) = Some(at);
        Ok(Kind::Done)
    }

    /// Bytes are added to a file, or it is forced.
    fn add(&mut self, at: Option<usize>, bytes: Option<&[u8]>) -> Result<Kind, AllocError> {
        if let Some(at) = at
            && let Some(file) = self.files.items.get_mut(at)
        {
            match bytes {
                Some(bytes) => file.bytes.extend_from_slice(bytes)?,
                None => file.force(),
            }
        }
        Ok(Kind::Done)
    }

    fn names(&mut self, folder: &str) -> Result<Kind, AllocError> {
        self.came.clear();
        self.files.push_names(&mut self.came, folder)?;
        Ok(self.came())
    }

    fn on_files(&mut self, hand: &mut Hand, effect: Effect<'_>) -> Result<Kind, AllocError> {
        match effect {
            Effect::Open(_, place) => return Ok(self.open(hand, place)),
            Effect::Read(_) => return self.read(hand),
            Effect::Exists(name) if self.files.find(name).is_some() => return Ok(Kind::Found),
            Effect::Place(name) => return self.text(name.as_bytes()),
            Effect::Node(name) => match self.files.find(name) {
                Some(at) => return self.text(&at.to_be_bytes()),
                None => return Ok(Kind::Missing),
            },
            Effect::Replace(name, _, text) => {
                self.files.make(hand.who, name, text)?;
            }
            Effect::Names(folder) => return self.names(folder),
            Effect::Create(slot, name) => return self.create(hand, slot, name),
            Effect::Save(slot, bytes) => return self.add(*hand.written(slot), Some(bytes)),
            Effect::Settle(slot) => return self.add(*hand.written(slot), None),
            Effect::Remove(name) if !self.files.remove(name) => return Ok(Kind::Missing),
            Effect::Extend(name) => {
                let (at, _) = self.files.open(hand.who, name)?;
                hand.log = Some(at);
            }
            Effect::Add(text) => return self.add(hand.log, Some(text)),
            _ => return self.on_connections(hand, effect),
        }
        Ok(Kind::Done)
    }

    // ---- connections

    fn accept(&mut self, hand: &Hand) -> Kind {
        let wire = self.wire(hand.who, Peer::Client);
        if !wire.is_called || wire.is_taken {
            return Kind::waits(hand.is_woken);
        }
        wire.is_taken = true;
        Kind::Done
    }

    fn connect(&mut self, who: Who) -> Kind {
        let wire = self.wire(who, Peer::Server);
        if !wire.is_listened || wire.is_called {
            return Kind::Failed(Cause::Refused);
        }
        wire.is_called = true;
        Kind::Done
    }

    fn receive(&mut self, hand: &Hand, peer: Peer) -> Kind {
        let mut bytes = Vec::new(*self.came.allocator());
        let pipe = self.from(hand.who, peer);
        std::mem::swap(&mut pipe.bytes, &mut bytes);
        let is_ended = pipe.is_ended;
        pipe.is_told = pipe.is_told || is_ended && bytes.is_empty();
        self.came = bytes;
        match self.came() {
            Kind::End if !is_ended => Kind::waits(hand.is_joined || hand.is_woken),
            came => came,
        }
    }

    fn send(&mut self, who: Who, peer: Peer, bytes: &[u8]) -> Result<Kind, AllocError> {
        let pipe = self.to(who, peer);
        if pipe.is_deaf && !bytes.is_empty() {
            return Ok(Kind::Failed(Cause::Reset));
        }
        pipe.bytes.extend_from_slice(bytes)?;
        Ok(Kind::Done)
    }

    fn pass(&mut self, who: Who, peer: Peer, bytes: &[u8]) -> Result<Kind, AllocError> {
        match self.send(who, peer, bytes)? {
            Kind::Done => Ok(Kind::Took(bytes.len())),
            failed => Ok(failed),
        }
    }

    fn wait(&mut self, hand: &Hand) -> Kind {
        let is_due = self.from(hand.who, Peer::Client).is_due()
            || self.from(hand.who, Peer::Server).is_due();
        if is_due {
            Kind::Done
        } else {
            Kind::waits(hand.is_woken)
        }
    }

    fn on_connections(&mut self, hand: &mut Hand, effect: Effect<'_>) -> Result<Kind, AllocError> {
        let who = hand.who;
        match effect {
            Effect::Accept(..) => return Ok(self.accept(hand)),
            Effect::Connect(..) => return Ok(self.connect(who)),
            Effect::Receive(peer) => return Ok(self.receive(hand, peer)),
            Effect::Send(peer, bytes) => return self.send(who, peer, bytes),
            Effect::Pass(peer, bytes) => return self.pass(who, peer, bytes),
            Effect::Wait(_) => return Ok(self.wait(hand)),
            Effect::Listen(..) => self.wire(who, Peer::Client).is_listened = true,
            Effect::Close(peer) => self.to(who, peer).is_ended = true,
            Effect::Leave => self.leave(who),
            Effect::Join => hand.is_joined = true,
            _ => return self.on_others(hand, effect),
        }
        Ok(Kind::Done)
    }

    fn on_others(&mut self, hand: &mut Hand, effect: Effect<'_>) -> Result<Kind, AllocError> {
        match effect {
            Effect::Byte => return self.text(b"\n".as_slice()),
            Effect::Stamp => return self.text(b"2026-11-29T00:00:00.000Z".as_slice()),
            Effect::Now => {
                self.clock = self.clock.saturating_add(1);
                return Ok(Kind::At(self.clock));
            }
            Effect::Sleep(ms) => self.clock = self.clock.saturating_add(ms),
            Effect::Print(bytes) => hand.printed.extend_from_slice(bytes)?,
            Effect::Say(text) => hand.said.extend_from_slice(text.as_bytes())?,
            _ => {}
        }
        Ok(Kind::Done)
    }

    /// What an effect that fails has done nevertheless: of a text some bytes are added, and what was begun of a file goes.
    pub(crate) fn fail(
        &mut self,
        hand: &mut Hand,
        effect: Effect<'_>,
        left: usize,
    ) -> Result<(), AllocError> {
        match effect {
            Effect::Append(growth, text) | Effect::Keep(growth, text) => {
                let part = text.get(..left).unwrap_or(text);
                self.grow(*hand.growing(growth), part, false)?;
            }
            Effect::Make(growth, ..) | Effect::Begin(growth) => {
                self.discard(hand, growth);
            }
            _ => {}
        }
        Ok(())
    }
}
