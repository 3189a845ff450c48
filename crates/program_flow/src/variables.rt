// The variables that a program has declared.

ghost use Rattle.std.specs.Prelude.{◌≡◌, ◌<◌, ◌++◌, IfSome, Ok, OnOk, OnErr, IfErr, List, [], length, bytes_eq};
ghost use Rattle.std.specs.Option.{option_map};
ghost use Rattle.program_flow.specs.Carried.{CarriesOut, Makes, put_all, put_value, table_after, table_assigned, table_declared};
ghost use Rattle.program_flow.specs.Held.{Finds};
ghost use Rattle.program_flow.specs.LookBack.{Holds, expression_value, limited, value_for};
ghost use Rattle.program_flow.specs.Numbers.{and_then};
ghost use Rattle.program_flow.specs.Pieces.{letters_of, letters_value};
ghost use Rattle.program_flow.specs.Texts.{Appends, inserted};
ghost use Rattle.program_flow.specs.Values.{number_of, written};
ghost use Rattle.program_flow.specs.Values as values;
ghost use Rattle.program_flow.specs.Variables as spec;
ghost use Rattle.program_flow.specs.declared.faults.ValueFault.TheVariants.{Memory};
ghost use Rattle.dmis_text.specs.declared.elements.Statement.{Statement};

use crate::faults::ValueFault;
use crate::kinds::{Kind, kind_in, names_in};
use crate::numbers::Number;
use crate::pieces::{push_letters, push_literal};
use crate::texts::push_whole;
use crate::values::{is_text, value_of};
use dmis_text::{Statement, Text};
use std::alloc::{AllocError, Global};
use std::marker::Model;

/// A number, or letters.
#[derive(Debug, Drop)]
pub enum Held {
    Number(Number),
    Letters(Vec<u8>),
}

/// What was assigned to a variable.
#[derive(Debug, Drop)]
pub struct Stored {
    held: Held,
}

impl Model for Stored {
    ghost use Rattle.program_flow.specs.Held.{held_value};
    ghost use Rattle.program_flow.specs.Values as values;

    ghost Value = { values.Value };

    ghost view = { λ s. held_value s.held };
}

/// A variable with what was assigned to it.
#[derive(Debug, Drop)]
pub struct Variable {
    name: Vec<u8>,
    kind: Kind,
    value: Option<Stored>,
}

impl Model for Variable {
    ghost use Rattle.program_flow.specs.Variables.{Entry};

    ghost Value = { Entry };

    ghost view = { λ v. record { name = v.name.items; kind = v.kind; value = v.value } };
}

/// The variables that a program has declared, with what was assigned to them.
#[derive(Debug, Drop)]
pub struct Variables {
    entries: Vec<Variable>,
    alloc: Global,
}

impl Model for Variables {
    ghost use Rattle.std.specs.Prelude.{List};
    ghost use Rattle.program_flow.specs.Variables.{Entry};

    ghost Value = { List Entry };

    ghost view = { λ v. v.entries.items };
}

impl Stored {
    fn number(number: Number) -> Stored
        ensures { result ≡ values.Value.Number number }
    {
        Stored {
            held: Held::Number(number),
        }
    }

    fn get_number(&self) -> Result<Number, ValueFault>
        ensures { result ≡ number_of self.now }
    {
        match &self.held {
            Held::Number(number) => Ok(*number),
            Held::Letters(_) => Err(ValueFault::NotNumber),
        }
    }

    fn get_letters(&self) -> Result<&[u8], ValueFault>
        ensures { and_then result (λ text. Ok text.now) ≡ letters_of self.now }
    {
        match &self.held {
            Held::Number(_) => Err(ValueFault::NotLetters),
            Held::Letters(text) => Ok(text.as_slice()),
        }
    }

    /// Appends it as it is put into a text.
    fn push_inserted(&self, out: &mut Vec<u8>) -> Result<(), ValueFault>
        ensures { Appends result out.old.items out.new.items (inserted self.now) }
    {
        match &self.held {
            Held::Number(number) => push_whole(out, *number),
            Held::Letters(text) => Ok(out.extend_from_slice(text)?),
        }
    }

    /// Appends it as a numeral or as a literal.
    fn push(&self, out: &mut Vec<u8>) -> Result<(), AllocError>
        ensures { OnOk result (out.new.items ≡ out.old.items ++ written self.now) }
    {
        match &self.held {
            Held::Number(number) => number.write(out),
            Held::Letters(text) => push_literal(out, text),
        }
    }
}

impl Variable {
    fn has_name(&self, name: &[u8]) -> bool
        ensures { result ≡ bytes_eq self.now.name name.now }
    {
        self.name.as_slice() == name
    }
}

/// The variable of a name.
fn find<'a>(entries: &'a [Variable], name: &[u8]) -> Option<&'a Variable>
    ensures { option_map (λ v. v.now) result ≡ spec.find entries.now name.now }
{
    entries.iter().find(|variable| variable.has_name(name))
}

/// Where the variable of a name is.
fn place_of(entries: &[Variable], name: &[u8]) -> Option<usize>
    ensures place { result ≡ spec.place_of entries.now name.now }
    ensures within { IfSome result (λ i. i < length entries.now) }
{
    match entries {
        [] => None,
        [first, _rest @ ..] if first.has_name(name) => Some(0),
        [_, rest @ ..] => match place_of(rest, name) {
            Some(index) => Some(index + 1),
            None => None,
        },
    }
}

impl Variables {
    /// No variable is declared.
    pub fn new(alloc: Global) -> Variables
        ensures { Holds [] result }
    {
        Variables {
            entries: Vec::new(alloc),
            alloc,
        }
    }

    /// Puts a variable in place of the one of its name, or after the others.
    fn put(&mut self, variable: Variable) -> Result<(), AllocError>
        ensures ok { OnOk result (self.new ≡ spec.put variable self.old) }
        ensures err { OnErr result (self.new ≡ self.old) }
    {
        match place_of(&self.entries, &variable.name) {
            Some(index) => {
                self.entries[index] = variable;
                Ok(())
            }
            None => Ok(self.entries.push(variable)?),
        }
    }

    /// What was assigned to a variable, `UnknownName` or `NotAssigned`.
    fn stored(&self, name: &[u8]) -> Result<&Stored, ValueFault>
        ensures { and_then result (λ v. Ok v.now) ≡ spec.entry_value self.now name.now }
    {
        match find(&self.entries, name) {
            Some(variable) => match &variable.value {
                Some(value) => Ok(value),
                None => Err(ValueFault::NotAssigned),
            },
            None => Err(ValueFault::UnknownName),
        }
    }

    /// The number that a variable has: `UnknownName`, `NotAssigned` or `NotNumber`.
    pub(crate) fn number(&self, name: &[u8]) -> Result<Number, ValueFault>
        ensures { result ≡ and_then (spec.entry_value self.now name.now) number_of }
    {
        match self.stored(name) {
            Ok(value) => value.get_number(),
            Err(fault) => Err(fault),
        }
    }

    /// The letters that a variable has: `UnknownName`, `NotAssigned` or `NotLetters`.
    pub(crate) fn letters(&self, name: &[u8]) -> Result<&[u8], ValueFault>
        ensures { and_then result (λ text. Ok text.now)
            ≡ and_then (spec.entry_value self.now name.now) letters_of }
    {
        match self.stored(name) {
            Ok(value) => value.get_letters(),
            Err(fault) => Err(fault),
        }
    }

    /// Appends the value of a variable as it is put into a text: `UnknownName`, `NotAssigned` or `NotWhole`.
    pub(crate) fn push_inserted(&self, out: &mut Vec<u8>, name: &[u8]) -> Result<(), ValueFault>
        ensures { Appends result out.old.items out.new.items
            (and_then (spec.entry_value self.now name.now) inserted) }
    {
        match self.stored(name) {
            Ok(value) => value.push_inserted(out),
            Err(fault) => Err(fault),
        }
    }

    /// Appends the value of a variable, a numeral or a literal in apostrophes: `UnknownName` or `NotAssigned`. After a fault a part may be
    /// there.
    pub fn push_value(&self, out: &mut Vec<u8>, name: &[u8]) -> Result<(), ValueFault>
        ensures { Appends result out.old.items out.new.items
            (and_then (spec.entry_value self.now name.now) (λ v. Ok (written v))) }
    {
        match self.stored(name) {
            Ok(value) => Ok(value.push(out)?),
            Err(fault) => Err(fault),
        }
    }

    /// What a variable takes; `None` if it is not declared.
    fn kind(&self, name: &[u8]) -> Option<Kind>
        ensures { result ≡ spec.entry_kind self.now name.now }
    {
        match find(&self.entries, name) {
            Some(variable) => Some(variable.kind),
            None => None,
        }
    }

    /// Declares names of a kind.
    fn declare_all(&mut self, kind: Kind, names: &[Text]) -> Result<(), ValueFault>
        ensures ok { OnOk result (self.new ≡ put_all kind names.now self.old) }
        ensures err { IfErr result (λ fault. fault ≡ Memory) }
    {
        match names {
            [] => Ok(()),
            [first, rest @ ..] => {
                let name = Vec::from_slice(self.alloc, first)?;
                self.put(Variable {
                    name,
                    kind,
                    value: None,
                })?;
                self.declare_all(kind, rest)
            }
        }
    }

    fn declare(&mut self, params: &[Text]) -> Result<(), ValueFault>
        ensures ok { OnOk result (self.new ≡ table_declared params.now self.old) }
        ensures err { IfErr result (λ fault. fault ≡ Memory) }
    {
        match kind_in(params) {
            Some(kind) => self.declare_all(kind, names_in(params)),
            None => Ok(()),
        }
    }

    fn put_value(&mut self, name: &[u8], kind: Kind, value: Stored) -> Result<(), ValueFault>
        ensures ok { OnOk result (self.new ≡ put_value name.now kind self.old value) }
        ensures err { IfErr result (λ fault. fault ≡ Memory) }
    {
        let name = Vec::from_slice(self.alloc, name)?;
        self.put(Variable {
            name,
            kind,
            value: Some(value),
        })?;
        Ok(())
    }

    fn expression_value(&self, params: &[Text]) -> Result<Number, ValueFault>
        ensures { result ≡ expression_value (spec.entry_value self.now) params.now }
    {
        match params {
            [only] => value_of(only, self),
            _ => Err(ValueFault::NotExpression),
        }
    }

    /// The letters of parameters, if they are no more than that many.
    fn letters_for(&self, params: &[Text], most: u64) -> Result<Stored, ValueFault>
        ensures { Finds result
            (and_then (letters_value (spec.entry_value self.now) params.now) (limited most)) }
    {
        let mut text = Vec::new(self.alloc);
        push_letters(&mut text, params, self)?;
        if text.len() as u64 > most {
            return Err(ValueFault::PastBound);
        }
        Ok(Stored {
            held: Held::Letters(text),
        })
    }

    /// The value of parameters for a kind.
    fn value_for(&self, params: &[Text], kind: Kind) -> Result<Stored, ValueFault>
        ensures { Finds result (value_for (spec.entry_value self.now) params.now kind) }
    {
        match kind {
            Kind::Whole => Ok(Stored::number(self.expression_value(params)?.whole_part())),
            Kind::Real => Ok(Stored::number(self.expression_value(params)?)),
            Kind::Characters(most) => self.letters_for(params, most),
        }
    }

    fn assign(&mut self, name: &[u8], params: &[Text]) -> Result<(), ValueFault>
        ensures { Makes result self.old self.new (table_assigned name.now params.now self.old) }
    {
        let Some(kind) = self.kind(name) else {
            return Err(ValueFault::UnknownName);
        };
        let value = self.value_for(params, kind)?;
        self.put_value(name, kind, value)
    }

    fn step(&mut self, statement: &Statement) -> Result<(), ValueFault>
        ensures { Makes result self.old self.new (table_after statement.now self.old) }
    {
        if is_text(&statement.word, "ASSIGN") {
            return match &statement.label {
                Some(name) => self.assign(name, &statement.params),
                None => Ok(()),
            };
        }
        if is_text(&statement.word, "DECL") && statement.label.is_none() {
            self.declare(&statement.params)
        } else {
            Ok(())
        }
    }

    /// Carries a statement out after others: `DECL` of numbers or of letters, or `ASSIGN`; any other changes nothing. If it has a fault,
    /// nothing changes.
    pub fn carry_out(&mut self, statement: &Statement) -> Result<(), ValueFault>
        ensures { (above : List Statement) → Holds above self.old
            → CarriesOut above statement.now result self.new }
    {
        self.step(statement)
    }
}
