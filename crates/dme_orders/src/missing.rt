// Which features of a program were not measured.

ghost use Rattle.std.specs.Prelude.{◌≡◌, ◌++◌, drop, length, string_bytes, IfOk, OnOk};
ghost use Rattle.dme_orders.specs.Missing.{
  labels_of,
  more_labels,
  missing_verb,
  missing_text,
  IsMissing,
  missing_status,
};

use contact_ledger::Feature;
use dmis_program::{Program, Wanted};
use fixed_um::Name;
use order_parts::feature_noun;
use std::alloc::{AllocError, Global};

/// Which features of a program are missing. If there are none, the part is complete.
#[derive(Debug, Drop)]
pub struct Missing {
    /// How many features were measured.
    pub measured: usize,
    /// How many the program asks for.
    pub asked: usize,
    /// The labels of those that are missing, in the order of the program.
    pub labels: Vec<Name>,
    /// The line that says so, as `dme: 1 of 2 features: BORE is missing`; empty if the part is complete.
    pub sentence: String,
}

/// The features that a program asks for after its first ones.
#[tactic(auto, using(std::proofs::lemmas::List::drop_all))]
fn behind<'a>(wanted: &'a [Wanted], count: usize) -> &'a [Wanted]
    ensures { result.now ≡ drop count wanted.now }
{
    if count > wanted.len() {
        return &[];
    }
    let (_, rest) = wanted.split_at(count);
    rest
}

fn labels_of(alloc: Global, wanted: &[Wanted]) -> Result<Vec<Name>, AllocError>
    ensures { IfOk result (λ labels. labels.items ≡ labels_of wanted.now) }
{
    let mut labels = Vec::new(alloc);
    let mut left = wanted;
    while let [first, others @ ..] = left {
        labels.push(first.label.copy(alloc)?)?;
        left = others;
    }
    Ok(labels)
}

/// Appends labels, each after a comma. Fails only if out of memory.
fn push_more(text: &mut String, labels: &[Name]) -> Result<(), AllocError>
    ensures { OnOk result (string_bytes text.new
        ≡ string_bytes text.old ++ more_labels labels.now) }
{
    for label in labels {
        write!(text, ", {label}")?;
    }
    Ok(())
}

/// The end of that line, by the labels after its first one.
fn missing_verb(labels: &[Name]) -> &'static str
    ensures { result.now ≡ missing_verb labels.now }
{
    match labels {
        [] => " is missing\n",
        [_, ..] => " are missing\n",
    }
}

/// The line that names missing features. Fails only if out of memory.
fn sentence(
    alloc: Global,
    measured: usize,
    asked: usize,
    labels: &[Name],
) -> Result<String, AllocError>
    ensures { IfOk result (λ text. string_bytes text ≡ missing_text measured asked labels.now) }
{
    let mut text = String::new(alloc);
    if let [first, others @ ..] = labels {
        let noun = feature_noun(asked);
        write!(text, "dme: {measured} of {asked} {noun}: {first}")?;
        push_more(&mut text, others)?;
        text.push_str(missing_verb(others))?;
    }
    Ok(text)
}

/// Which features of a program are missing, if these are its first ones. Fails only if out of memory.
pub(crate) fn missing_of(
    alloc: Global,
    program: &Program,
    features: &[Feature],
) -> Result<Missing, AllocError>
    ensures { IfOk result (IsMissing program.now.features features.now) }
{
    let measured = features.len();
    let asked = program.features().len();
    let labels = labels_of(alloc, behind(program.features(), measured))?;
    let sentence = sentence(alloc, measured, asked, labels.as_slice())?;
    Ok(Missing {
        measured,
        asked,
        labels,
        sentence,
    })
}

impl Missing {
    /// The exit status of an export: 3 if a feature is missing, else 0.
    pub fn status(&self) -> u8
        ensures { result ≡ missing_status self.now.labels.items }
    {
        match self.labels.as_slice() {
            [] => 0,
            [_, ..] => 3,
        }
    }
}
