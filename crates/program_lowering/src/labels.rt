// The names that labels with values were composed of.

ghost use Rattle.std.specs.Prelude.{◌≡◌, ◌++◌, ◌==◌, ℕ, List, OnOk, IfOk, None, Some, flat_map};
ghost use Rattle.std.specs.List.{list_any};
ghost use Rattle.std.specs.Option.{option_map, option_or};
ghost use Rattle.std.specs.Result.{result_ok};
ghost use Rattle.program_flow.specs.Texts.{expanded};
ghost use Rattle.program_flow.specs.Values.{is_name_byte};
ghost use Rattle.program_flow.specs.Variables.{entry_value};
ghost use Rattle.program_lowering.specs.Carried as code;
ghost use Rattle.program_lowering.specs.Labels as spec;

use dmis_text::Statement;
use program_flow::{ValueFault, Variables, expanded, is_text};
use std::alloc::{AllocError, Global};
use std::collections::BTreeMap;

/// A name, and the parts of which a label composes it.
#[derive(Drop)]
struct Composed {
    name: Vec<u8>,
    parts: Vec<u8>,
}

/// The parts by which each name was first composed.
#[derive(Drop)]
pub(crate) struct Labels {
    pub(crate) parts: BTreeMap<Vec<u8>, Vec<u8>>,
}

/// A text with the value of each `@NAME`, if each has one.
pub(crate) fn with_values(
    alloc: Global,
    text: &[u8],
    variables: &Variables,
) -> Result<Option<Vec<u8>>, AllocError>
    ensures { IfOk result (λ made. option_map (λ v. v.items) made
        ≡ result_ok (expanded (entry_value variables.now) text.now)) }
{
    let mut made = Vec::new(alloc);
    match expanded(&mut made, text, variables) {
        Ok(()) => Ok(Some(made)),
        Err(ValueFault::Memory) => Err(AllocError),
        Err(_) => Ok(None),
    }
}

/// Whether a byte may be in a name.
fn is_of_name(byte: u8) -> bool
    ensures { result ≡ is_name_byte byte }
{
    byte.is_ascii_alphanumeric() || byte == b'_'
}

/// Appends a label with the marks between its parts.
fn push_apart(out: &mut Vec<u8>, label: &[u8]) -> Result<(), AllocError>
    ensures { OnOk result (out.new.items ≡ out.old.items ++ flat_map spec.apart label.now) }
{
    for byte in label {
        if !is_of_name(*byte) {
            out.push(if *byte == b'@' { 0 } else { 1 })?;
        }
        out.push(*byte)?;
    }
    Ok(())
}

fn has_mark(label: &[u8]) -> bool
    ensures { result ≡ list_any (λ b. b == 64) label.now }
{
    label.iter().any(|byte| *byte == b'@')
}

/// What a label composes, if it has an `@` and values for its names.
fn composed_of(
    alloc: Global,
    label: &[u8],
    variables: &Variables,
) -> Result<Option<Composed>, AllocError>
    ensures { IfOk result (λ made. option_map (λ c. (c.name.items, c.parts.items)) made
        ≡ spec.composed_of (entry_value variables.now) label.now) }
{
    if !has_mark(label) {
        return Ok(None);
    }
    let Some(name) = with_values(alloc, label, variables)? else {
        return Ok(None);
    };
    let mut marked = Vec::new(alloc);
    push_apart(&mut marked, label)?;
    match with_values(alloc, &marked, variables)? {
        Some(parts) => Ok(Some(Composed { name, parts })),
        None => Ok(None),
    }
}

/// What the label of a statement composes.
fn made_of(
    alloc: Global,
    statement: &Statement,
    variables: &Variables,
) -> Result<Option<Composed>, AllocError>
    ensures { IfOk result (λ made. option_map (λ c. (c.name.items, c.parts.items)) made
        ≡ spec.composed (entry_value variables.now) statement.now) }
{
    if is_text(&statement.word, "FEAT") {
        return match &statement.label {
            Some(label) => composed_of(alloc, label, variables),
            None => Ok(None),
        };
    }
    if !is_text(&statement.word, "MEAS") {
        return Ok(None);
    }
    match &*statement.params {
        [_, label, ..] => composed_of(alloc, label, variables),
        _ => Ok(None),
    }
}

impl Labels {
    /// Before any statement.
    pub(crate) fn new(alloc: Global) -> Labels
        ensures { (name : List ℕ) → code.parts_in result name ≡ None }
    {
        Labels {
            parts: BTreeMap::new(alloc),
        }
    }

    /// Whether a name was first composed of other parts.
    fn is_other(&self, label: &Composed) -> bool
        ensures { result ≡ spec.differs label.now.parts.items
            (code.parts_in self.now label.now.name.items) }
    {
        match self.parts.get(label.name.as_slice()) {
            Some(parts) => label.parts.as_slice() != parts.as_slice(),
            None => false,
        }
    }

    /// Notes the parts of a name that has none.
    fn note(&mut self, label: Composed) -> Result<(), AllocError>
        ensures { OnOk result ((name : List ℕ) → code.parts_in self.new name
            ≡ option_or (code.parts_in self.old name)
            (spec.parts_if name (Some (label.name.items, label.parts.items)))) }
    {
        let Composed { name, parts } = label;
        if self.parts.get(name.as_slice()).is_none() {
            self.parts.insert(name, parts)?;
        }
        Ok(())
    }

    /// At a statement: whether its label has the name of another feature.
    pub(crate) fn enter(
        &mut self,
        alloc: Global,
        statement: &Statement,
        variables: &Variables,
    ) -> Result<bool, AllocError>
        ensures other { IfOk result (λ other. other ≡ spec.is_other (code.parts_in self.old)
            (spec.composed (entry_value variables.now) statement.now)) }
        ensures noted { OnOk result ((name : List ℕ) → code.parts_in self.new name
            ≡ option_or (code.parts_in self.old name)
            (spec.parts_if name (spec.composed (entry_value variables.now) statement.now))) }
    {
        let Some(label) = made_of(alloc, statement, variables)? else {
            return Ok(false);
        };
        let other = self.is_other(&label);
        self.note(label)?;
        Ok(other)
    }
}
