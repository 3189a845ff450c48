// The files of a call are looked for and compared, one after another, before any is opened.

ghost use Rattle.std.specs.Prelude.{◌≡◌, ◌↔◌, true, get_or, [], OnOk, IfOk, option_map, IsOk};
ghost use Rattle.effects.specs.Effects.{the_ask, the_reply};
ghost use Rattle.effects.specs.Naming.{seen_of};
ghost use Rattle.effects.specs.Comparing as spec;

use crate::called::{Called, is_beside, met, refusal};
use crate::files::NamedFiles;
use crate::hands::Hands;
use crate::vocabulary::{Answer, Effect};
use std::alloc::{AllocError, Global};
use std::marker::Model;

const OUT_OF_MEMORY: &str = "dme: out of memory\n";

/// The status of a session that has not ended.
const ENDLESS: u8 = 70;

/// What a comparison asks for next.
#[derive(Clone, Copy, Debug, PartialEq, Eq)]
pub enum Stage {
    /// The place of a file, and its number on its device.
    Placing,
    Numbering,
    /// Nothing: no file that is written is another.
    Apart,
    /// That two files are one is said.
    Refused,
    Exiting,
}

/// The files of a call, which are compared.
#[derive(Drop)]
pub struct Comparison {
    alloc: Global,
    files: NamedFiles,
    stage: Stage,
    at: usize,
    place: Vec<u8>,
    called: Vec<Called>,
    said: String,
    /// The last message, if memory has run out.
    last: &'static str,
    status: u8,
}

impl Model for Comparison {
    ghost use Rattle.std.specs.Prelude.{map};
    ghost use Rattle.effects.specs.Naming.{seen_of};
    ghost use Rattle.effects.specs.Comparing.{State};

    ghost Value = { State };

    ghost view = { λ c. record {
      stage = c.stage;
      at = c.at;
      files = c.files;
      place = c.place.items;
      called = map seen_of c.called.items;
      status = c.status;
    } };
}

/// The bytes of an answer.
pub fn bytes_of<'a>(answer: Answer<'a>) -> Option<&'a [u8]>
    ensures { option_map (λ bytes. bytes.now) result ≡ spec.bytes_of (the_reply answer.entry) }
{
    match answer {
        Answer::Bytes(bytes) => Some(bytes),
        Answer::Done | Answer::Missing | Answer::Found | Answer::Nothing | Answer::End => None,
        Answer::At(_) | Answer::Took(_) | Answer::Failed(_) | Answer::Short => None,
    }
}

/// They are kept. Fails only if out of memory.
pub fn kept(alloc: Global, bytes: Option<&[u8]>) -> Result<Option<Vec<u8>>, AllocError>
    ensures { IfOk result (λ kept. option_map (λ kept. kept.items) kept
        ≡ option_map (λ bytes. bytes.now) bytes.entry) }
{
    match bytes {
        Some(bytes) => Ok(Some(Vec::from_slice(alloc, bytes)?)),
        None => Ok(None),
    }
}

impl Comparison {
    /// A comparison of these files, in this order.
    pub fn new(alloc: Global, files: NamedFiles) -> Comparison
        ensures known { spec.Known result spec.unasked }
        ensures files { result.files ≡ files }
    {
        let mut comparison = Comparison {
            alloc,
            files,
            stage: Stage::Apart,
            at: 0,
            place: Vec::new(alloc),
            called: Vec::new(alloc),
            said: String::new(alloc),
            last: "",
            status: 0,
        };
        comparison.compare_next();
        comparison
    }

    /// Whether none of the files disturbs another.
    pub fn is_apart(&self) -> bool
        ensures { result ≡ true ↔ self.now.stage ≡ Stage.Apart }
    {
        matches!(self.stage, Stage::Apart)
    }

    /// The name of the file that is looked for.
    fn name(&self) -> &str
        ensures { result.now ≡ get_or self.now.files.names self.now.at [] }
    {
        self.files.name(self.at)
    }

    /// What is to be done next.
    pub fn asks(&self) -> Effect<'_>
        ensures { spec.Asks self.now (the_ask result) }
    {
        match self.stage {
            Stage::Placing => Effect::Place(self.name()),
            Stage::Numbering => Effect::Node(self.name()),
            Stage::Refused if self.last.is_empty() => Effect::Say(self.said.as_str()),
            Stage::Refused => Effect::Say(self.last),
            Stage::Apart | Stage::Exiting => Effect::Exit(self.status),
        }
    }

    /// What came of it. If memory runs out meanwhile, nothing of the call is done.
    pub fn take(&mut self, answer: Answer<'_>)
        ensures goes { spec.GoesOn self.old (the_reply answer.entry) self.new }
        ensures files { self.new.files ≡ self.old.files }
    {
        if self.step(answer).is_err() {
            self.last = OUT_OF_MEMORY;
            self.status = 4;
            self.stage = Stage::Refused;
        }
    }

    fn step(&mut self, answer: Answer<'_>) -> Result<(), AllocError>
        ensures goes { OnOk result (spec.GoesOn self.old (the_reply answer.entry) self.new) }
        ensures files { self.new.files ≡ self.old.files }
    {
        match self.stage {
            Stage::Placing => self.placed(answer),
            Stage::Numbering => self.numbered(answer),
            Stage::Apart => Ok(()),
            Stage::Refused | Stage::Exiting => {
                self.stage = Stage::Exiting;
                Ok(())
            }
        }
    }

    /// The next file is to be compared with those before it.
    fn compare_next(&mut self)
        ensures goes { spec.Compares self.old self.new }
        ensures files { self.new.files ≡ self.old.files }
    {
        if self.at < self.files.count() {
            self.stage = Stage::Placing;
            return;
        }
        self.stage = Stage::Apart;
    }

    /// Its place, or that nothing is put there.
    fn placed(&mut self, answer: Answer<'_>) -> Result<(), AllocError>
        requires { self.old.stage ≡ Stage.Placing }
        ensures goes { OnOk result (spec.GoesOn self.old (the_reply answer.entry) self.new) }
        ensures files { self.new.files ≡ self.old.files }
    {
        if let Answer::Short = answer {
            return Err(AllocError);
        }
        match bytes_of(answer) {
            Some(place) => {
                self.place.clear();
                self.place.extend_from_slice(place)?;
                self.stage = Stage::Numbering;
            }
            None => {
                self.at = self.at.saturating_add(1);
                self.compare_next();
            }
        }
        Ok(())
    }

    /// Its number, if it exists.
    fn numbered(&mut self, answer: Answer<'_>) -> Result<(), AllocError>
        requires { self.old.stage ≡ Stage.Numbering }
        ensures goes { OnOk result (spec.GoesOn self.old (the_reply answer.entry) self.new) }
        ensures files { self.new.files ≡ self.old.files }
    {
        if let Answer::Short = answer {
            return Err(AllocError);
        }
        let node = kept(self.alloc, bytes_of(answer))?;
        let place = std::mem::replace(&mut self.place, Vec::new(self.alloc));
        let at = self.at;
        self.add(Called { at, place, node })
    }

    /// The file joins those before it, unless it meets one of them.
    fn add(&mut self, called: Called) -> Result<(), AllocError>
        ensures goes { OnOk result (spec.Joins (seen_of called) self.old self.new) }
        ensures files { self.new.files ≡ self.old.files }
    {
        let earlier = met(true, self.files.written(), self.called.as_slice(), &called);
        if let Some(earlier) = earlier {
            let earlier = &self.called[earlier];
            let is_first = is_beside(true, called.place.as_slice(), earlier.place.as_slice());
            let (first, second) = (earlier.at, called.at);
            return self.refuse(first, second, if is_first { first } else { second });
        }
        self.called.push(called)?;
        self.at = self.at.saturating_add(1);
        self.compare_next();
        Ok(())
    }

    /// Two files are one: that is a bad command line.
    fn refuse(&mut self, first: usize, second: usize, named: usize) -> Result<(), AllocError>
        ensures ends { OnOk result (spec.Ends self.old self.new) }
        ensures files { self.new.files ≡ self.old.files }
    {
        let (first, second) = (self.files.option(first), self.files.option(second));
        self.said = refusal(self.alloc, first, second, self.files.name(named))?;
        self.status = 2;
        self.stage = Stage::Refused;
        Ok(())
    }
}

/// Compares the files of a call by hands that carry the effects out. If any that is written is another, that is said, and this is the exit
/// status.
pub fn run<H: Hands>(comparison: &mut Comparison, hands: &mut H) -> Result<(), u8>
    ensures { IsOk result → comparison.new.stage ≡ Stage.Apart }
{
    for _turn in 0..u64::MAX {
        if comparison.is_apart() {
            return Ok(());
        }
        let effect = comparison.asks();
        if let Effect::Exit(status) = effect {
            return Err(status);
        }
        hands.carry_out(effect);
        comparison.take(hands.answer());
    }
    Err(ENDLESS)
}
