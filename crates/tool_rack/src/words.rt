// The words of a command line with those that a machine gives.

ghost use Rattle.std.specs.Prelude.{◌≡◌, ◌++◌, not, ◌==◌, ◌≤◌, length, map, IfOk};
ghost use Rattle.std.specs.List.{prefix_len};
ghost use Rattle.std.specs.Option.{option_map};
ghost use Rattle.tool_rack.specs.Words as spec;

use crate::machine_entries::Entry;
use crate::machines::Machine;
use std::alloc::{AllocError, Global};

/// How many bytes precede the first `=`.
fn name_len(bytes: &[u8]) -> usize
    ensures { (result ≡ prefix_len (λ b. not (b == 61)) bytes.now) × (result ≤ length bytes.now) }
{
    bytes.iter().take_while(|byte| **byte != b'=').count()
}

/// Whether a word gives this option, with its value or before it.
fn is_given(option: &[u8], word: &[u8]) -> bool
    ensures { result ≡ spec.is_given option.now word.now }
{
    match word {
        [b'-', b'-', rest @ ..] => {
            let (name, _) = rest.split_at(name_len(rest));
            name == option
        }
        _ => false,
    }
}

/// Whether words, up to the one that ends the options, give this option. Does not allocate.
pub fn names_option(option: &str, words: &[&str]) -> bool
    ensures { result ≡ spec.names_option option.now (map (λ word. word.now) words.now) }
{
    for word in words {
        if *word == "--" {
            return false;
        }
        if is_given(option.as_bytes(), word.as_bytes()) {
            return true;
        }
    }
    false
}

/// The value of `--machine`: after its `=`, or the next word.
fn value_with<'a>(word: &'a str, words: &[&'a str]) -> Option<&'a str>
    ensures { option_map (λ value. value.now) result
        ≡ spec.value_with word.now (map (λ word. word.now) words.now) }
{
    match word.strip_prefix("--machine=") {
        Some(value) => Some(value),
        None => words.first().copied(),
    }
}

fn machine_in<'a>(words: &[&'a str]) -> Option<&'a str>
    ensures { option_map (λ value. value.now) result
        ≡ spec.machine_in (map (λ word. word.now) words.now) }
{
    let mut left = words;
    while let [word, rest @ ..] = left {
        if *word == "--" {
            return None;
        }
        if is_given(b"machine", word.as_bytes()) {
            return value_with(word, rest);
        }
        left = rest;
    }
    None
}

/// The machine's file that the words of a command line name by `--machine`, if their command is `run`. The first word names the program, the
/// second the command. Does not allocate.
pub fn named_machine<'a>(words: &[&'a str]) -> Option<&'a str>
    ensures { option_map (λ file. file.now) result
        ≡ spec.named_machine (map (λ word. word.now) words.now) }
{
    match words {
        [_, command, rest @ ..] if *command == "run" => machine_in(rest),
        _ => None,
    }
}

/// Adds the words of entries whose options the words of the command line do not name.
fn with_entries<'a>(
    all: Vec<&'a str>,
    entries: &'a [Entry],
    words: &[&'a str],
) -> Result<Vec<&'a str>, AllocError>
    ensures { IfOk result (λ more. map (λ word. word.now) more.items
        ≡ map (λ word. word.now) all.entry.items
        ++ spec.added entries.now (map (λ word. word.now) words.now)) }
{
    let mut all = all;
    for entry in entries {
        if !names_option(entry.option, words) {
            all.push(entry.word.as_str())?;
        }
    }
    Ok(all)
}

/// Adds words.
fn with_words<'a>(all: Vec<&'a str>, words: &[&'a str]) -> Result<Vec<&'a str>, AllocError>
    ensures { IfOk result (λ more. map (λ word. word.now) more.items
        ≡ map (λ word. word.now) all.entry.items ++ map (λ word. word.now) words.now) }
{
    let mut all = all;
    for word in words {
        all.push(*word)?;
    }
    Ok(all)
}

/// The words of a command line, and after its command those that the machine gives for options that are not among them. Fails only if out of
/// memory.
pub fn with_machine<'a>(
    alloc: Global,
    words: &[&'a str],
    machine: &'a Machine,
) -> Result<Vec<&'a str>, AllocError>
    ensures { IfOk result (λ all. map (λ word. word.now) all.items
        ≡ spec.with_machine machine.now (map (λ word. word.now) words.now)) }
{
    let [program, command, rest @ ..] = words else {
        return with_words(Vec::new(alloc), words);
    };
    let all = with_words(Vec::new(alloc), &[*program, *command])?;
    let all = with_entries(all, machine.entries(), rest)?;
    with_words(all, rest)
}
