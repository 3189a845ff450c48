// Writing the entries of a run.

ghost use Rattle.std.specs.Prelude.{◌≡◌, ◌++◌, ◌∷◌, [], map, OnOk, OnErr};
ghost use Rattle.record_text.specs.Names.{AllByRecursion, Writes, text_of, is_contact, IsWrittenAct, entry_line, completed_line, Counts, entries_of, told_on};

use contact_ledger::fields::add_name;
use contact_ledger::{Act, add_entry};
use dmis_program::{Program, Wanted};
use fixed_um::Name;
use itoa::Buffer;
use std::alloc::AllocError;
use std::marker::Model;

/// The room that is made for each act, in bytes: most lines are shorter.
const USUAL_LINE: usize = 128;

/// What a client counts on a connection while it adds to a record: how many of the wanted features are complete, and how many points of
/// the next one were reported. Contracts see the connection and these two.
#[derive(Clone, Copy, Debug)]
pub struct Telling {
    connection: u64,
    features: usize,
    points: usize,
}

impl Model for Telling {
    ghost use Rattle.record_text.specs.Tellings.{Telling};

    ghost Value = { Telling };

    ghost view = { λ t. record {
      connection = t.connection;
      counted = record { features = t.features; points = t.points };
    } };

    ghost inverse = { λ t. record {
      connection = t.connection;
      features = t.counted.features;
      points = t.counted.points;
    } };
}

pub(crate) fn is_contact(act: &Act) -> bool
    ensures { result ≡ is_contact act.now }
{
    matches!(act, Act::Contact { .. })
}

fn add_completed(text: &mut Vec<u8>, connection: u64, label: &Name) -> Result<(), AllocError>
    ensures { OnOk result (text.new.items ≡ text.old.items
        ++ text_of (completed_line connection label.now ∷ [])) }
{
    let mut buffer = Buffer::new();
    text.extend_from_slice(buffer.format(connection).as_bytes())?;
    text.extend_from_slice(b" COMPLETED")?;
    add_name(text, label)?;
    text.push(b'\n')?;
    Ok(())
}

impl Telling {
    /// The beginning of a connection, with this many features complete and no point reported.
    pub fn new(connection: u64, features: usize) -> Telling
        ensures { result ≡ record {
          connection = connection;
          counted = record { features = features; points = 0 };
        } }
    {
        Telling {
            connection,
            features,
            points: 0,
        }
    }

    /// The number of the connection.
    pub fn connection(&self) -> u64
        ensures { result ≡ self.now.connection }
    {
        self.connection
    }

    /// How many of the wanted features are complete.
    pub fn features(&self) -> usize
        ensures { result ≡ self.now.counted.features }
    {
        self.features
    }

    /// Adds the line of the feature that an act completes, if it completes one.
    fn count(&mut self, text: &mut Vec<u8>, wanted: &[Wanted], act: &Act) -> Result<(), AllocError>
        ensures { OnOk result (Counts wanted.now self.old act.now self.new text.old.items
            text.new.items) }
    {
        if !is_contact(act) {
            return Ok(());
        }
        let Some(next) = wanted.get(self.features) else {
            return Ok(());
        };
        let count = next.touches.as_slice().len();
        if self.points < count && count - self.points > 1 {
            self.points += 1;
            return Ok(());
        }
        add_completed(text, self.connection, &next.label)?;
        self.features += 1;
        self.points = 0;
        Ok(())
    }

    /// Adds the lines of acts, and of the features that they complete. An `Err` discards the text.
    fn add(&mut self, text: &mut Vec<u8>, wanted: &[Wanted], acts: &[Act]) -> Result<(), AllocError>
        ensures text { OnOk result (text.new.items ≡ text.old.items ++ text_of (map entry_line
            (entries_of wanted.now self.old.connection self.old.counted acts.now))) }
        ensures counts { OnOk result (self.new ≡ told_on wanted.now self.old acts.now) }
        ensures acts { OnOk result (AllByRecursion IsWrittenAct acts.now) }
    {
        for act in acts {
            add_entry(text, self.connection, act)?;
            self.count(text, wanted, act)?;
        }
        Ok(())
    }

    /// Appends the lines of acts that were counted on the connection, in order. After the last contact of the next wanted feature comes the
    /// line that says that the feature is complete.
    ///
    /// Fails only if out of memory, and then nothing is appended or counted.
    pub fn tell(
        &mut self,
        out: &mut Vec<u8>,
        program: &Program,
        acts: &[Act],
    ) -> Result<(), AllocError>
        ensures writes { Writes result out.old out.new (text_of (map entry_line
            (entries_of program.now.features self.old.connection self.old.counted acts.now))) }
        ensures counts { OnOk result (self.new
            ≡ told_on program.now.features self.old acts.now) }
        ensures acts { OnOk result (AllByRecursion IsWrittenAct acts.now) }
        ensures err { OnErr result (self.new ≡ self.old) }
    {
        let room = acts.len().saturating_mul(USUAL_LINE);
        let mut text = Vec::with_capacity(*out.allocator(), room)?;
        let mut telling = *self;
        telling.add(&mut text, program.features(), acts)?;
        out.extend_from_slice(text.as_slice())?;
        *self = telling;
        Ok(())
    }
}
