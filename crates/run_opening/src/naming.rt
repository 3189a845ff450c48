// The files that a run names: none that is written may be another, or take the place of another's next text.

ghost use Rattle.std.specs.Prelude.{◌≡◌, ◌<◌, OnOk, IsNone, IfSome, option_map};
ghost use Rattle.effects.specs.Naming.{seen_of};
ghost use Rattle.run_opening.specs.Names.{the_reply, AreNone, name_at, given, or_nothing, written};
ghost use Rattle.run_opening.specs.Openings as spec;

use crate::openings::Opening;
use crate::stages::Stage;
use dme_words::Run;
use effects::{Answer, Called, bytes_of, is_beside, kept, met, refusal};
use std::alloc::AllocError;

/// How many files a run may name.
const COUNT: usize = 8;

/// The option of a file, in the order in which they are compared.
fn option_of(at: usize) -> &'static str {
    match at {
        0 => "--setup",
        1 => "[PROGRAM]",
        2 => "--features",
        3 => "--record",
        4 => "--contacts",
        5 => "--log",
        6 => "--stop",
        _ => "--seal-key",
    }
}

/// Those of features, record and contacts, and the log, are written.
fn written() -> [bool; COUNT]
    ensures { result ≡ written }
{
    [false, false, true, true, true, true, false, false]
}

/// A name that is not that of standard input.
fn given(name: &str) -> Option<&str>
    ensures { option_map (λ name. name.now) result ≡ given name.now }
{
    if name == "-" { None } else { Some(name) }
}

/// The name, if one is named that is not standard input.
fn name_of(order: &Run, at: usize) -> Option<&str>
    ensures { option_map (λ name. name.now) result ≡ name_at at order.now }
{
    match at {
        0 => given(order.setup.as_str()),
        1 => given(order.program.as_str()),
        2 => order.features.as_deref(),
        3 => order.record.as_deref(),
        4 => order.contacts.as_deref(),
        5 => order.log.as_deref(),
        6 => order.stop.as_deref(),
        7 => order.seal_key.as_deref(),
        _ => None,
    }
}

/// The number of the next file that is named, from this one on.
fn next_named(order: &Run, from: usize) -> Option<usize>
    ensures some { IfSome result (λ at. AreNone from at order.now) }
    ensures none { IsNone result → AreNone from COUNT order.now }
{
    for at in from..COUNT {
        if name_of(order, at).is_some() {
            return Some(at);
        }
    }
    None
}

impl Opening {
    /// The name of a file.
    pub(crate) fn called_name(&self, at: usize) -> &str
        ensures { result.now ≡ or_nothing (name_at at self.now.core.order) }
    {
        name_of(&self.order, at).unwrap_or("")
    }

    /// The next file that is named, from this one on, is to be compared with those before it.
    pub(crate) fn compare_next(&mut self, from: usize)
        ensures { spec.Compares from self.old self.new }
    {
        match next_named(&self.order, from) {
            Some(at) => self.stage = Stage::Placing(at),
            None => self.hold_record(),
        }
    }

    /// Its place, or that nothing is put there.
    #[tactic(auto, using(crate::proofs::Comparing::unplaced))]
    pub(crate) fn placed(&mut self, at: usize, answer: Answer<'_>) -> Result<(), AllocError>
        requires { self.old.stage ≡ Stage.Placing at }
        ensures { OnOk result (spec.GoesOn self.old (the_reply answer.entry) self.new) }
    {
        if let Answer::Short = answer {
            return Err(AllocError);
        }
        match bytes_of(answer) {
            Some(place) => {
                self.text.clear();
                self.text.extend_from_slice(place)?;
                self.stage = Stage::Numbering(at);
            }
            None => self.compare_next(at.saturating_add(1)),
        }
        Ok(())
    }

    /// Its number, if it exists.
    #[tactic(auto, using(crate::proofs::Comparing::numbered_on))]
    pub(crate) fn numbered(&mut self, at: usize, answer: Answer<'_>) -> Result<(), AllocError>
        requires { self.old.stage ≡ Stage.Numbering at }
        ensures { OnOk result (spec.GoesOn self.old (the_reply answer.entry) self.new) }
    {
        if let Answer::Short = answer {
            return Err(AllocError);
        }
        let node = kept(self.alloc, bytes_of(answer))?;
        let place = std::mem::replace(&mut self.text, Vec::new(self.alloc));
        self.add(Called { at, place, node })
    }

    /// The file joins those before it, unless it meets one of them.
    fn add(&mut self, called: Called) -> Result<(), AllocError>
        ensures { OnOk result (spec.Joins (seen_of called) self.old self.new) }
    {
        let earlier = met(false, written().as_slice(), self.called.as_slice(), &called);
        if let Some(earlier) = earlier {
            let earlier = &self.called[earlier];
            let is_before = is_beside(false, called.place.as_slice(), earlier.place.as_slice());
            let (first, second) = (earlier.at, called.at);
            return self.refuse_meeting(first, second, if is_before { first } else { second });
        }
        let next = called.at.saturating_add(1);
        self.called.push(called)?;
        self.compare_next(next);
        Ok(())
    }

    /// Two files are one: that is a bad command line.
    fn refuse_meeting(
        &mut self,
        first: usize,
        second: usize,
        named: usize,
    ) -> Result<(), AllocError>
        ensures { OnOk result (spec.Ends self.new) }
    {
        let (first, second) = (option_of(first), option_of(second));
        let name = name_of(&self.order, named).unwrap_or("");
        let said = refusal(self.alloc, first, second, name)?;
        self.refuse(said, 2);
        Ok(())
    }
}
