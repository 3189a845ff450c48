// What carries effects out.

use crate::connections::Connections;
use crate::growing::Growing;
use crate::names::{names_in, place_of};
use crate::slots::Open;
use crate::text_files::{is_plain, replace_file, settle_name};
use effects::{Answer, Came, Effect, Growth, Hands, Slot};
use jiff::Timestamp;
use std::fs::{self, File, OpenOptions};
use std::io::{self, ErrorKind, Read, Write};
use std::os::unix::fs::MetadataExt;
use std::thread;
use std::time::{Duration, Instant};

/// What carries out the effects of one command. It does not report what it did.
#[derive(Drop)]
pub struct RealHands {
    rt: HostRuntime,
    up: Open,
    down: Open,
    order: Open,
    contacts: Growing,
    told: Growing,
    record: Growing,
    features: Growing,
    log: Open,
    connections: Connections,
    began: Option<Instant>,
    came: Came,
    /// Whether memory ran out for the last effect.
    is_short: bool,
}

impl RealHands {
    /// Hands that have done nothing.
    pub fn new(rt: HostRuntime) -> Self {
        RealHands {
            rt,
            up: Open::Nothing,
            down: Open::Nothing,
            order: Open::Nothing,
            contacts: Growing::None,
            told: Growing::None,
            record: Growing::None,
            features: Growing::None,
            log: Open::Nothing,
            connections: Connections::new(),
            began: None,
            came: Came::new(rt.alloc()),
            is_short: false,
        }
    }

    /// The file of a slot.
    fn file(&mut self, slot: Slot) -> &mut Open {
        match slot {
            Slot::Up => &mut self.up,
            Slot::Down => &mut self.down,
            Slot::Order => &mut self.order,
        }
    }

    /// A file that grows.
    fn growing(&mut self, growth: Growth) -> &mut Growing {
        match growth {
            Growth::Contacts => &mut self.contacts,
            Growth::Told => &mut self.told,
            Growth::Record => &mut self.record,
            Growth::Features => &mut self.features,
        }
    }

    fn read(&mut self, slot: Slot) {
        let mut room = [0u8; 16384];
        let count = self.file(slot).read(&mut room);
        self.came.read(&room, count);
    }

    /// The next byte of standard input.
    fn byte(&mut self) {
        let mut room = [0u8; 1];
        let count = self.rt.reader().read(&mut room);
        self.came.read(&room, count);
    }

    fn names(&mut self, folder: &str) {
        match names_in(&self.rt, folder) {
            Ok(names) => self.came.text(names.as_slice()),
            Err(error) => self.came.ended(Err(error)),
        }
    }

    fn place(&mut self, name: &str) {
        match place_of(&self.rt, name) {
            Ok(Some(place)) => self.came.text(place.as_str().as_bytes()),
            Ok(None) => self.came.looked(Ok(true)),
            Err(_) => self.is_short = true,
        }
    }

    fn node(&mut self, name: &str) {
        match fs::metadata(&self.rt, name) {
            Ok(found) => {
                let node = (u128::from(found.dev()) << 64) | u128::from(found.ino());
                self.came.text(&node.to_be_bytes());
            }
            Err(error) => self.came.ended(Err(error)),
        }
    }

    fn stamp(&mut self) {
        let Ok(now) = Timestamp::now(&self.rt) else {
            return self.came.timed(None);
        };
        match format!(in self.rt.alloc(); "{now:.3}") {
            Ok(text) => self.came.text(text.as_bytes()),
            Err(_) => self.came.timed(None),
        }
    }

    fn now(&mut self) {
        let Ok(now) = Instant::now(&self.rt) else {
            return self.came.timed(None);
        };
        let began = *self.began.get_or_insert(now);
        let ms = now.saturating_duration_since(began).as_millis();
        self.came.timed(Some(u64::try_from(ms).unwrap_or(u64::MAX)));
    }

    fn make(&mut self, growth: Growth, name: &str, beside: &str, text: &[u8]) {
        let rt = self.rt;
        match self.growing(growth).make(&rt, name, beside, text) {
            Err(error) if error.kind() == ErrorKind::OutOfMemory => self.is_short = true,
            made => self.came.looked(made),
        }
    }

    /// Effects on connections.
    fn on_connections(&mut self, effect: Effect<'_>) {
        let RealHands {
            rt,
            connections,
            came,
            ..
        } = self;
        match effect {
            Effect::Listen(address, port, is_polled) => {
                came.ended(connections.listen(rt, address, port, is_polled));
            }
            Effect::Accept(ms, seconds) => came.waited(connections.accept(ms, seconds)),
            Effect::Connect(host, port, ms) => connections.connect(rt, host, port, ms, came),
            Effect::Join => came.ended(connections.join(rt)),
            Effect::Wait(ms) => came.ended(connections.wait(ms)),
            Effect::Receive(peer) => connections.receive(peer, came),
            Effect::Send(peer, bytes) => came.waited(connections.send(peer, bytes)),
            Effect::Pass(_, []) => came.took(Ok(0)),
            Effect::Pass(peer, bytes) => came.took(connections.pass(peer, bytes)),
            Effect::Close(peer) => came.ended(connections.close(peer)),
            Effect::Limit(peer, ms, seconds) => came.ended(connections.limit(peer, ms, seconds)),
            _ => {
                connections.leave();
                came.ended(Ok(()));
            }
        }
    }

    /// Effects on files that grow, and then on others, whose answer is only whether they were carried out.
    fn on_files(&mut self, effect: Effect<'_>) -> io::Result<()> {
        let rt = self.rt;
        match effect {
            Effect::Hold(growth, name) => self.growing(growth).hold(&rt, name),
            Effect::Fill(growth, text, held, length) => {
                self.growing(growth).fill(&rt, text, held, length)
            }
            Effect::Discard(growth) => self.growing(growth).discard(&rt),
            Effect::SetAside(growth, old) => self.growing(growth).set_aside(&rt, old),
            Effect::Begin(growth) => self.growing(growth).begin(&rt),
            Effect::Append(Growth::Record, text) => self.record.append(text),
            Effect::Append(growth, text) => self.growing(growth).append_named(&rt, text),
            Effect::Keep(growth, text) => self.growing(growth).keep(&rt, text),
            Effect::Stands(growth, length) => self.growing(growth).stands(&rt, length),
            _ => self.on_others(effect),
        }
    }

    fn on_others(&mut self, effect: Effect<'_>) -> io::Result<()> {
        let rt = self.rt;
        match effect {
            Effect::Open(slot, place) => *self.file(slot) = Open::read_from(&rt, place)?,
            Effect::Look(name) => drop(is_plain(&rt, name)?),
            Effect::Replace(name, beside, text) => replace_file(&rt, text, beside, name)?,
            Effect::Create(slot, name) => {
                *self.file(slot) = Open::File(File::create_new(&rt, name)?);
                settle_name(&rt, name)?;
            }
            Effect::Save(slot, bytes) => self.file(slot).save(bytes)?,
            Effect::Settle(slot) => self.file(slot).settle()?,
            Effect::Remove(name) => fs::remove_file(&rt, name)?,
            Effect::Extend(name) => {
                let mut how = OpenOptions::new();
                how.append(true).create(true);
                self.log = Open::File(how.open(&rt, name)?);
            }
            Effect::Add(text) => self.log.save(text)?,
            Effect::Sleep(ms) => thread::sleep(&rt, Duration::from_millis(ms)),
            Effect::Print(bytes) => io::writer(&rt).write_all(bytes)?,
            Effect::Say(text) => eprint!(&rt; "{text}")?,
            _ => {}
        }
        Ok(())
    }
}

impl Hands for RealHands {
    ghost use Rattle.std.specs.Prelude.{None, if◌then◌else◌};
    ghost use Rattle.effects.specs.Effects.{Short};

    ghost told = { λ _. None };

    ghost came = { λ h. if h.is_short then Short else h.came };

    fn carry_out(&mut self, effect: Effect<'_>) {
        self.is_short = false;
        match effect {
            Effect::Read(slot) => self.read(slot),
            Effect::Byte => self.byte(),
            Effect::Names(folder) => self.names(folder),
            Effect::Exists(name) => self.came.looked(fs::exists(&self.rt, name)),
            Effect::Make(growth, name, beside, text) => self.make(growth, name, beside, text),
            Effect::Place(name) => self.place(name),
            Effect::Node(name) => self.node(name),
            Effect::Stamp => self.stamp(),
            Effect::Now => self.now(),
            Effect::Listen(..) | Effect::Accept(..) | Effect::Connect(..) | Effect::Join => {
                self.on_connections(effect);
            }
            Effect::Wait(..) | Effect::Receive(..) | Effect::Send(..) | Effect::Pass(..) => {
                self.on_connections(effect);
            }
            Effect::Close(..) | Effect::Limit(..) | Effect::Leave => self.on_connections(effect),
            _ => {
                let done = self.on_files(effect);
                self.came.ended(done);
            }
        }
    }

    fn answer(&self) -> Answer<'_> {
        if self.is_short {
            Answer::Short
        } else {
            self.came.answer()
        }
    }
}
