// Calls of the values that both ends are made of, each on a value of its own.
//
// A row is the name of a call. It shows the value that the call makes or leaves. A row of `quiets` has the deviations of a machine, as shifts,
// and shows what an undisturbed run leaves there.

ghost use Rattle.std.specs.Prelude.{◌≡◌, IfOk, None};

use crate::fresh::{Made, read_program, read_setup};
use crate::hostile;
use crate::shown::{lined, push_features, push_points};
use crate::stop::{Pushed, Stop};
use crate::tried::{Called, push_tried};
use command_queue::{Queue, Waiting};
use contact_ledger::{
    Act, Feature, FeatureLedger, Points, ServerLedger, read_contacts, read_features,
};
use dme_line::{Command, Kind, Tag};
use dme_tags::{Open, TagFault};
use fixed_um::{Frame, Name, Point};
use ledger_audit::{Verdict, audit};
use link_world::{Machine, NewFault, Outcome, Simulated, quiet_run};
use resume_plan::{Start, plan};
use server_core::{Job, Server};
use std::alloc::{AllocError, Global};
use std::io::Write;
use tool_rack::Setup;

// ---- open tags, and commands that wait

/// One more tag is drawn.
impl Called<(), TagFault> for Open {
    fn push_all(&self, out: &mut Vec<u8>) -> Pushed {
        let next = (self.next_tag(Kind::Home), self.next_tag(Kind::AbortE));
        let marks = (self.is_asking(), self.event_open(), self.has_failed());
        let (kind, count) = (self.kind_of(Tag::Std(5)), self.count());
        Ok(write!(out, "{kind:?} {next:?} {marks:?} {count}")?)
    }

    fn make(&mut self, _call: &()) -> Result<bool, TagFault> {
        self.draw(Kind::IsHomed)?;
        Ok(true)
    }
}

/// A fifth tag is drawn after four.
fn push_drawn(out: &mut Vec<u8>) -> Pushed {
    let mut open = Open::new(*out.allocator());
    for _ in 0..4u32 {
        open.draw(Kind::GoTo).ok().ok_or(Stop::Memory)?;
    }
    let tag = open.next_tag(Kind::IsHomed).ok();
    push_tried(out, &mut open, TagFault::Memory, &())?;
    Ok(write!(out, "{tag:?} of {}", open.count())?)
}

/// Commands that wait, and those that were taken.
#[derive(Drop)]
struct Drained {
    queue: Queue,
    taken: Vec<Waiting>,
}

impl Called<(), AllocError> for Drained {
    fn push_all(&self, out: &mut Vec<u8>) -> Pushed {
        let queue = &self.queue;
        let held = (queue.holds(Tag::Std(1)), queue.holds(Tag::Std(2)));
        let count = (queue.len(), queue.is_empty());
        Ok(write!(out, "{:?} {held:?} {count:?}", queue.first())?)
    }

    fn make(&mut self, _call: &()) -> Result<bool, AllocError> {
        self.taken = self.queue.drain_all()?;
        Ok(true)
    }
}

fn put(queue: &mut Queue, number: u32) -> Pushed {
    let waiting = Waiting {
        tag: Tag::Std(number),
        reading: Ok(Command::Home),
    };
    queue.put(waiting).ok().ok_or(Stop::Row)
}

/// A new queue, and what is taken of two commands that wait in it.
fn push_queue(out: &mut Vec<u8>) -> Pushed {
    let alloc = *out.allocator();
    let mut queue = Queue::new(alloc).ok().ok_or(Stop::Refused)?;
    put(&mut queue, 1)?;
    put(&mut queue, 2)?;
    let taken = Vec::new(alloc);
    let mut drained = Drained { queue, taken };
    push_tried(out, &mut drained, AllocError, &())?;
    for waiting in drained.taken.as_slice() {
        write!(out, "{:?};", waiting.tag)?;
    }
    Ok(write!(out, "{}", drained.queue.len())?)
}

// ---- points, features and acts

/// One more point is added.
impl Called<(), AllocError> for Points {
    fn push_all(&self, out: &mut Vec<u8>) -> Pushed {
        push_points(out, self.as_slice())
    }

    fn make(&mut self, _call: &()) -> Result<bool, AllocError> {
        self.push(Point::zero())?;
        Ok(true)
    }
}

/// A fifth point after four.
fn push_fifth(out: &mut Vec<u8>) -> Pushed {
    let alloc = *out.allocator();
    let mut points = Points::new(alloc);
    for _ in 0..4u32 {
        points.push(Point::zero())?;
    }
    push_tried(out, &mut points, AllocError, &())?;
    Ok(write!(out, "{}", points.len())?)
}

/// A feature of one point, and its contact.
const FEATURES: &[u8] = b"DME-FEATURES 2\nFEATURE A 1 1 M\n1.000 2.000 3.000\nEND\n";

const CONTACTS: &[u8] = b"DME-CONTACTS 1\n\
1 CONTACT 1.000 2.000 3.000 D 0.000000 0.000000 1.000000 P1 M 1.000 2.000 3.000\n";

/// A copy of that feature.
fn push_feature_copy(out: &mut Vec<u8>) -> Pushed {
    let alloc = *out.allocator();
    let ledger = read_features(alloc, FEATURES)?;
    let feature = ledger.list().first().ok_or(Stop::Row)?;
    let copy = feature.copy(alloc).ok().ok_or(Stop::Refused)?;
    write!(out, "{} ", copy.label)?;
    push_points(out, copy.points.as_slice())
}

/// A feature of this label with no point, whose origin is not known.
fn feature(alloc: Global, label: &[u8]) -> Result<Feature, Stop>
    ensures { IfOk result (λ f. f.origin ≡ None) }
{
    Ok(Feature {
        label: Name::new(alloc, label)?.ok_or(Stop::Row)?,
        points: Points::new(alloc),
        origin: None,
    })
}

/// One more feature is added.
impl Called<Global, Stop> for FeatureLedger {
    fn push_all(&self, out: &mut Vec<u8>) -> Pushed {
        push_features(out, self.list())
    }

    fn make(&mut self, alloc: &Global) -> Result<bool, Stop> {
        self.push(feature(*alloc, b"b")?)?;
        Ok(true)
    }
}

/// A fifth feature after four.
fn push_kept(out: &mut Vec<u8>) -> Pushed {
    let alloc = *out.allocator();
    let mut ledger = FeatureLedger::new(alloc);
    for _ in 0..4u32 {
        ledger.push(feature(alloc, b"a")?)?;
    }
    push_tried(out, &mut ledger, Stop::Memory, &alloc)?;
    push_features(out, ledger.list())
}

/// A contact at the zero point is added.
impl Called<Global, Stop> for ServerLedger {
    fn push_all(&self, out: &mut Vec<u8>) -> Pushed {
        Ok(write!(out, "{:?} {}", self.acts(), self.contacts())?)
    }

    fn make(&mut self, alloc: &Global) -> Result<bool, Stop> {
        let contact = Act::Contact {
            target: Point::zero(),
            dir: None,
            tool: Name::new(*alloc, b"p1")?.ok_or(Stop::Row)?,
            frame: Frame::Machine,
            point: Point::zero(),
        };
        self.push(2, contact)?;
        Ok(true)
    }
}

/// A contact after four acts.
fn push_done(out: &mut Vec<u8>) -> Pushed {
    let alloc = *out.allocator();
    let mut ledger = ServerLedger::new(alloc);
    for _ in 0..4u32 {
        ledger.push(1, Act::Homed)?;
    }
    push_tried(out, &mut ledger, Stop::Memory, &alloc)?;
    let counts = (ledger.acts().len(), ledger.contacts());
    Ok(write!(out, "{counts:?}")?)
}

// ---- plans, audits, machines and servers

/// The kinds of the commands of a program's plan.
fn push_plan(out: &mut Vec<u8>, given: Made<'_>) -> Pushed {
    let alloc = *out.allocator();
    let program = read_program(alloc, given)?;
    let planned = plan(alloc, &program, 0, Start::NewConnection)
        .ok()
        .ok_or(Stop::Refused)?;
    for one in planned.as_slice() {
        write!(out, "{:?};", one.command.kind())?;
    }
    Ok(())
}

/// Where an audit finds that feature among the acts of that ledger.
fn push_audit(out: &mut Vec<u8>, given: Made<'_>) -> Pushed {
    let alloc = *out.allocator();
    let program = read_program(alloc, given)?;
    let features = read_features(alloc, FEATURES)?;
    let acts = read_contacts(alloc, CONTACTS)?;
    match audit(alloc, &program, features.list(), &acts) {
        Ok(Verdict::Starts(starts)) => Ok(write!(out, "{:?}", starts.as_slice())?),
        Ok(Verdict::NoRun(_)) => Err(Stop::Row),
        Err(AllocError) => Err(Stop::Refused),
    }
}

/// Where a machine meets a surface next to the zero point.
fn push_machine(out: &mut Vec<u8>, given: Made<'_>) -> Pushed {
    let alloc = *out.allocator();
    let setup = read_setup(alloc, given)?;
    let mut machine = Simulated::new(alloc, &setup).ok().ok_or(Stop::Refused)?;
    match machine.answer(&Job::Touch(Point::zero(), None), 0) {
        Outcome::Touched(at) => Ok(write!(out, "{at}")?),
        _ => Err(Stop::Row),
    }
}

fn push_server(out: &mut Vec<u8>, given: Made<'_>) -> Pushed {
    let alloc = *out.allocator();
    match Server::new(alloc, read_setup(alloc, given)?) {
        Ok(server) => hostile::push_server(out, &server),
        Err(AllocError) => Err(Stop::Refused),
    }
}

/// The state, the turns and the features of an undisturbed run, on a machine whose deviations are these shifts.
fn push_quiet(out: &mut Vec<u8>, given: Made<'_>, shifts: &str) -> Pushed {
    let alloc = *out.allocator();
    let setup = Setup::read(alloc, lined(alloc, shifts)?.as_slice())?;
    let mut machine = Simulated::new(alloc, &setup)?;
    let program = read_program(alloc, given)?;
    let setup = read_setup(alloc, given)?;
    let quiet = match quiet_run(alloc, program, setup, given.window, &mut machine) {
        Ok(quiet) => quiet,
        Err(NewFault::Memory) => return Err(Stop::Refused),
        Err(NewFault::BadWindow(_, _)) => return Err(Stop::Row),
    };
    write!(out, "{:?} {} turns;", quiet.state, quiet.turns)?;
    push_features(out, quiet.features.list())
}

/// What a row of a value shows.
pub(crate) fn push_row(out: &mut Vec<u8>, given: Made<'_>, (word, row): (&str, &str)) -> Pushed {
    match row {
        "Open::draw" => push_drawn(out),
        "Queue::new, Queue::drain_all" => push_queue(out),
        "Points::push" => push_fifth(out),
        "Feature::copy" => push_feature_copy(out),
        "FeatureLedger::push" => push_kept(out),
        "ServerLedger::push" => push_done(out),
        "plan" => push_plan(out, given),
        "audit" => push_audit(out, given),
        "Simulated::new" => push_machine(out, given),
        "Server::new" => push_server(out, given),
        _ if word == "quiets" => push_quiet(out, given, row),
        _ => Err(Stop::Row),
    }
}
