// The texts that a run reads, one after another, each understood before the next is opened.

ghost use Rattle.std.specs.Prelude.{◌≡◌, ℕ, List, Option, Some, OnOk, IfOk};
ghost use Rattle.effects.specs.Effects.{the_reply};
ghost use Rattle.run_opening.specs.Openings as spec;

use crate::openings::Opening;
use crate::sayings::lacking_lines;
use crate::stages::{Stage, Text};
use contact_ledger::{FeatureLedger, TextFault, read_features};
use dmis_program::{Frames, Program, ProgramFault};
use effects::Answer;
use order_parts::{FilesFault, OrderFault, Role, RunEnding, last_line};
use program_review::{InputFile, operator_texts, read, task_lines};
use std::alloc::AllocError;
use tool_rack::{Setup, SetupFault};

/// How many pieces a text may have.
const MOST: u32 = 1_000_000;

/// What a text is to an order.
fn role_of(text: Text) -> Role {
    match text {
        Text::Setup => Role::Setup,
        Text::Features => Role::Features,
        Text::Program => Role::Program,
        Text::Key => Role::Key,
        Text::Record => Role::Record,
    }
}

/// Whether a file is there.
fn is_there(answer: Answer<'_>) -> bool
    ensures { result ≡ spec.is_there (the_reply answer.entry) }
{
    match answer {
        Answer::Found => true,
        Answer::Done | Answer::Missing | Answer::Nothing | Answer::End | Answer::Short => false,
        Answer::Bytes(_) | Answer::At(_) | Answer::Took(_) | Answer::Failed(_) => false,
    }
}

impl Opening {
    /// A text cannot be read.
    fn refuse_unread(&mut self, text: Text) -> Result<(), AllocError>
        ensures { OnOk result (spec.Ends self.new) }
    {
        let name = String::from_str(self.alloc, self.name_of(text))?;
        *self.name_in(text) = name;
        self.refuse_text(FilesFault::Unread(role_of(text)))
    }

    /// The name of a file, as it is blamed.
    fn name_in(&mut self, text: Text) -> &mut String {
        match text {
            Text::Setup => &mut self.files.setup.name,
            Text::Features => &mut self.files.features.name,
            Text::Program => &mut self.files.program.name,
            Text::Key => &mut self.files.key.name,
            Text::Record => &mut self.files.record.name,
        }
    }

    /// A text is open, or is not there: features and a record may be lacking.
    pub(crate) fn opened(&mut self, text: Text, answer: Answer<'_>) -> Result<(), AllocError>
        requires { self.old.stage ≡ Stage.Opening text }
        ensures { OnOk result (spec.GoesOn self.old (the_reply answer.entry) self.new) }
    {
        self.text.clear();
        self.pieces = 0;
        match (text, answer) {
            (_, Answer::Done) => {
                self.stage = Stage::Reading(text);
                Ok(())
            }
            (_, Answer::Short) => Err(AllocError),
            (Text::Features, Answer::Missing) => self.understand(Text::Features),
            (Text::Record, Answer::Missing) => self.understand(Text::Record),
            _ => self.refuse_unread(text),
        }
    }

    /// The next bytes of a text, or its end.
    pub(crate) fn read(&mut self, text: Text, answer: Answer<'_>) -> Result<(), AllocError>
        requires { self.old.stage ≡ Stage.Reading text }
        ensures { OnOk result (spec.GoesOn self.old (the_reply answer.entry) self.new) }
    {
        match answer {
            Answer::Bytes(piece) if self.pieces < MOST => {
                self.pieces += 1;
                self.text.extend_from_slice(piece)
            }
            Answer::End => self.understand(text),
            Answer::Short => Err(AllocError),
            _ => self.refuse_unread(text),
        }
    }

    /// A whole text is understood.
    fn understand(&mut self, text: Text) -> Result<(), AllocError>
        ensures { OnOk result (spec.Takes text self.old.text self.old self.new) }
    {
        let bytes = std::mem::replace(&mut self.text, Vec::new(self.alloc));
        match text {
            Text::Setup => self.take_setup(bytes),
            Text::Features => self.take_features(bytes),
            Text::Program => self.take_program(bytes),
            Text::Key => self.take_key(bytes),
            Text::Record => self.take_record(bytes),
        }
    }

    /// A file that was read, with its name, as it is blamed.
    fn file(&self, name: &str, text: Vec<u8>) -> Result<InputFile, AllocError>
        ensures { IfOk result (λ file. file.text ≡ text) }
    {
        Ok(InputFile {
            name: String::from_str(self.alloc, name)?,
            text,
            is_short: false,
        })
    }

    fn take_setup(&mut self, bytes: Vec<u8>) -> Result<(), AllocError>
        ensures { OnOk result (spec.Takes Text.Setup bytes.items self.old self.new) }
    {
        self.input_is_taken = self.order.setup.as_str() == "-";
        self.files.setup = self.file(self.order.setup.as_str(), bytes)?;
        match Setup::read(self.alloc, self.files.setup.text.as_slice()) {
            Ok(setup) => {
                self.setup = Some(setup);
                if self.order.features.is_some() {
                    self.stage = Stage::Opening(Text::Features);
                } else {
                    self.stage = Stage::Opening(Text::Program);
                }
                Ok(())
            }
            Err(SetupFault::Memory) => Err(AllocError),
            Err(cause) => self.refuse_text(FilesFault::Setup(cause)),
        }
    }

    fn take_features(&mut self, bytes: Vec<u8>) -> Result<(), AllocError>
        ensures { OnOk result (spec.Takes Text.Features bytes.items self.old self.new) }
    {
        let name = self.order.features.as_deref().unwrap_or("");
        self.files.features = self.file(name, bytes)?;
        match read_features(self.alloc, self.files.features.text.as_slice()) {
            Ok(features) => {
                self.features = Some(features);
                self.stage = Stage::Opening(Text::Program);
                Ok(())
            }
            Err(TextFault::Memory) => Err(AllocError),
            Err(cause) => self.refuse_text(FilesFault::Features(cause)),
        }
    }

    /// The program that these bytes are under the frames of the setup.
    fn program_of(&self, bytes: &[u8]) -> Result<Program, ProgramFault>
        ensures { IfOk result (λ p. (stored : Option (List ℕ))
            → spec.IsSetupRead self.now.core.setup stored
            → spec.IsProgramRead self.now.core.setup (Some p) (Some bytes.now)) }
    {
        match &self.setup {
            Some(setup) => Program::read(self.alloc, bytes, setup.frames()),
            None => Program::read(self.alloc, bytes, &Frames::new(self.alloc)),
        }
    }

    fn take_program(&mut self, bytes: Vec<u8>) -> Result<(), AllocError>
        ensures { OnOk result (spec.Takes Text.Program bytes.items self.old self.new) }
    {
        self.files.program = self.file(self.order.program.as_str(), bytes)?;
        match self.program_of(self.files.program.text.as_slice()) {
            Ok(program) => self.accept(program),
            Err(ProgramFault::Memory) => Err(AllocError),
            Err(cause) => self.refuse_text(FilesFault::Program(cause)),
        }
    }

    /// The program is accepted: what the setup lacks for it is to be said.
    fn accept(&mut self, program: Program) -> Result<(), AllocError>
        ensures { OnOk result (spec.Accepts program self.old self.new) }
    {
        let reading = read(self.alloc, self.files.program.text.as_slice())?;
        let statements = reading.statements.as_slice();
        self.asked = program.features().len();
        self.tasks = task_lines(self.alloc, statements)?;
        self.texts = operator_texts(self.alloc, statements)?;
        if let Some(setup) = &self.setup {
            self.said = lacking_lines(self.alloc, &reading, setup, self.order.setup.as_str())?;
        }
        drop(reading);
        self.program = Some(program);
        if self.said.is_empty() {
            return self.peek();
        }
        self.stage = Stage::Warning;
        Ok(())
    }

    /// The stop file is looked for, if one is named.
    pub(crate) fn peek(&mut self) -> Result<(), AllocError>
        ensures { OnOk result (spec.Leads spec.IsUnderstood self.old self.new) }
    {
        if self.order.stop.is_some() {
            self.stage = Stage::Peeking;
            Ok(())
        } else {
            self.continue_record()
        }
    }

    /// The stop file is there, or not.
    pub(crate) fn peeked(&mut self, answer: Answer<'_>) -> Result<(), AllocError>
        requires { self.old.stage ≡ Stage.Peeking }
        ensures { OnOk result (spec.GoesOn self.old (the_reply answer.entry) self.new) }
    {
        if let Answer::Short = answer {
            return Err(AllocError);
        }
        self.is_stopped = is_there(answer);
        self.continue_record()
    }

    /// The key of the record's seals, which is read next.
    fn take_key(&mut self, bytes: Vec<u8>) -> Result<(), AllocError>
        ensures { OnOk result (spec.Takes Text.Key bytes.items self.old self.new) }
    {
        if bytes.is_empty() {
            return self.refuse_order(OrderFault::EmptyKey);
        }
        self.key = Some(bytes);
        self.stage = Stage::Opening(Text::Record);
        Ok(())
    }

    /// The record is read, if one is named, and its key before it.
    fn continue_record(&mut self) -> Result<(), AllocError>
        ensures { OnOk result (spec.Leads spec.IsLookedAt self.old self.new) }
    {
        if self.order.record.is_some() {
            self.stage = if self.order.seal_key.is_some() {
                Stage::Opening(Text::Key)
            } else {
                Stage::Opening(Text::Record)
            };
            return Ok(());
        }
        if self.is_stopped {
            return self.stop_alone();
        }
        let none = FeatureLedger::new(self.alloc);
        let features = self.features.take().unwrap_or(none);
        self.take_kept(features)
    }

    /// The stop file is there, and no record is named.
    fn stop_alone(&mut self) -> Result<(), AllocError>
        ensures { OnOk result (spec.Ends self.new) }
    {
        let kept = match &self.features {
            Some(features) => features.list().len(),
            None => 0,
        };
        self.stop(Some(kept))
    }

    /// The stop file is there: nothing is begun.
    pub(crate) fn stop(&mut self, kept: Option<usize>) -> Result<(), AllocError>
        ensures { OnOk result (spec.Ends self.new) }
    {
        let name = self.order.stop.as_deref().unwrap_or("");
        let said = format!(in self.alloc; "dme: {name} exists: nothing was begun\n")?;
        let last = match kept {
            Some(kept) => last_line(RunEnding::NotBegun, self.counts(kept)),
            None => None,
        };
        self.refuse_last(said.as_str(), last, 3)
    }
}
