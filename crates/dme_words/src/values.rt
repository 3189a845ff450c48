// The values of a command's arguments, as `clap` has found them.

ghost use Rattle.std.specs.Prelude.{◌≡◌, ◌≤◌, ◌<◌, ◌==◌, IfSome, length, [], IfOk, OnOk, Ok, IfErr, MatchOption, map, true, codes, string_bytes, unwrap_or};
ghost use Rattle.std.specs.List.{position};
ghost use Rattle.std.specs.Option.{option_map};
ghost use Rattle.clap.specs.Words.{all_of, first_of};
ghost use Rattle.client_core.specs.Clients.{is_window};
ghost use Rattle.dme_words.specs.Answers.{AddsAnswers, HasNoAnswer, answer_in, answers_in, named_answers};
ghost use Rattle.dme_words.specs.Ordered.{HasFlag, HasNoName, HasNoSeconds, HasNumber, HasValue, IsConnectionsOf, IsFlagOf, IsGivenOf, IsMaybeOf, IsNoSeconds, IsNumber, IsNumberOf, IsSecondsOf, IsValueOf, IsValueOrInput, IsWindowOf, is_lacking, rows_in};

use crate::words::{Wanted, WordsFault};
use clap::ArgMatches;
use program_lowering::Answer;
use record_text::is_part;
use std::alloc::{AllocError, Global};

pub(crate) fn value_of<'a>(values: &ArgMatches<'a>, id: &str) -> Option<&'a str>
    ensures { option_map (λ text. text.now) result ≡ first_of id.now (rows_in values.now) }
{
    values.get_str(id)
}

pub(crate) fn is_lacking(values: &ArgMatches, id: &str) -> bool
    ensures { result ≡ is_lacking id.now (rows_in values.now) }
{
    value_of(values, id).is_none()
}

pub(crate) fn needed(alloc: Global, values: &ArgMatches, id: &str) -> Result<String, AllocError>
    requires { HasValue id.now (rows_in values.now) }
    ensures { IfOk result (λ copy. IsValueOf id.now (rows_in values.now) (string_bytes copy)) }
{
    match value_of(values, id) {
        Some(text) => String::from_str(alloc, text),
        None => unreachable!(),
    }
}

/// The value, or standard input's name.
pub(crate) fn or_input(alloc: Global, values: &ArgMatches, id: &str) -> Result<String, AllocError>
    ensures { IfOk result (λ copy. IsValueOrInput id.now (rows_in values.now) (string_bytes copy)) }
{
    String::from_str(alloc, value_of(values, id).unwrap_or("-"))
}

pub(crate) fn maybe(
    alloc: Global,
    values: &ArgMatches,
    id: &str,
) -> Result<Option<String>, AllocError>
    ensures { IfOk result (λ copy. IsMaybeOf id.now (rows_in values.now)
        (option_map string_bytes copy)) }
{
    match value_of(values, id) {
        Some(text) => Ok(Some(String::from_str(alloc, text)?)),
        None => Ok(None),
    }
}

pub(crate) fn flag_of(values: &ArgMatches, id: &str) -> bool
    requires { HasFlag id.now (rows_in values.now) }
    ensures { IsFlagOf id.now (rows_in values.now) result }
{
    values.get_flag(id)
}

/// A number, which `clap` has found in its range.
pub(crate) fn number_of(values: &ArgMatches, id: &str, most: u32) -> u32
    requires number { HasNumber id.now most (rows_in values.now) }
    requires most { most ≤ 4000000000 }
    ensures named { IsNumberOf id.now most (rows_in values.now) result }
    ensures ready { (1 ≤ result) × (result ≤ most) }
{
    match values.get_one::<u32>(id) {
        Some(number) => number,
        None => unreachable!(),
    }
}

pub(crate) fn window_of(values: &ArgMatches) -> u8
    requires { HasNumber (codes "window") 16 (rows_in values.now) }
    ensures named { IsWindowOf (rows_in values.now) result }
    ensures ready { is_window result ≡ true }
{
    number_of(values, "window", 16) as u8
}

pub(crate) fn port_of(values: &ArgMatches, id: &str) -> u16
    requires { HasNumber id.now 65535 (rows_in values.now) }
    ensures named { IsNumberOf id.now 65535 (rows_in values.now) result }
    ensures ready { 1 ≤ result }
{
    number_of(values, id, 65_535) as u16
}

/// How many connections are taken: with `--endless` as many as can be numbered.
pub(crate) fn connections_of(values: &ArgMatches) -> u32
    requires count { HasNumber (codes "connections") 4000000000 (rows_in values.now) }
    requires endless { HasFlag (codes "endless") (rows_in values.now) }
    ensures named { IsConnectionsOf (rows_in values.now) result }
    ensures ready { (1 ≤ result) × (result ≤ 4000000000) }
{
    if flag_of(values, "endless") {
        4_000_000_000
    } else {
        number_of(values, "connections", 4_000_000_000)
    }
}

/// The number of seconds that a text writes, from 1 to 86,400, which is a day.
fn seconds_in(text: &str) -> Option<u32>
    ensures { MatchOption result (IsNoSeconds text.now)
        (λ seconds. IsNumber 86400 seconds text.now) }
{
    match text.parse::<i64>() {
        Ok(seconds) => {
            if 1 <= seconds && seconds <= 86_400 {
                Some(seconds as u32)
            } else {
                None
            }
        }
        Err(_) => None,
    }
}

/// The number of seconds that an option is given, if it is.
pub(crate) fn seconds_of(
    alloc: Global,
    values: &ArgMatches,
    id: &'static str,
) -> Result<Option<u32>, WordsFault>
    ensures named { IfOk result (IsSecondsOf id.now (rows_in values.now)) }
    ensures none { IfErr result (HasNoSeconds id.now (rows_in values.now)) }
{
    let Some(text) = value_of(values, id) else {
        return Ok(None);
    };
    match seconds_in(text) {
        Some(seconds) => Ok(Some(seconds)),
        None => Err(WordsFault::NoValue(Wanted::Seconds(id), String::from_str(alloc, text)?)),
    }
}

/// The name of a part or of an operator that an option is given, if it is.
pub(crate) fn name_of(
    alloc: Global,
    values: &ArgMatches,
    id: &'static str,
) -> Result<Option<String>, WordsFault>
    ensures named { IfOk result (λ text. IsGivenOf id.now (rows_in values.now)
        (option_map string_bytes text)) }
    ensures none { IfErr result (HasNoName id.now (rows_in values.now)) }
{
    match maybe(alloc, values, id)? {
        Some(text) => {
            if is_part(text.as_bytes()) {
                Ok(Some(text))
            } else {
                Err(WordsFault::NoValue(Wanted::Name(id), text))
            }
        }
        None => Ok(None),
    }
}

fn copied_texts(alloc: Global, texts: &[&str]) -> Result<Vec<String>, AllocError>
    ensures { IfOk result (λ copies. map string_bytes copies.items
        ≡ map (λ text. text.now) texts.now) }
{
    let mut copies = Vec::new(alloc);
    let mut left = texts;
    while let [text, others @ ..] = left {
        copies.push(String::from_str(alloc, text)?)?;
        left = others;
    }
    Ok(copies)
}

fn values_of<'a, 'b>(values: &'b ArgMatches<'a>, id: &str) -> Option<&'b [&'a str]>
    ensures { option_map (λ texts. map (λ text. text.now) texts.now) result
        ≡ all_of id.now (rows_in values.now) }
{
    values.get_strs(id)
}

/// The values of an argument that may have several.
pub(crate) fn all_values(
    alloc: Global,
    values: &ArgMatches,
    id: &str,
) -> Result<Vec<String>, AllocError>
    ensures { IfOk result (λ copies. map string_bytes copies.items
        ≡ unwrap_or (all_of id.now (rows_in values.now)) []) }
{
    match values_of(values, id) {
        Some(texts) => copied_texts(alloc, texts),
        None => Ok(Vec::new(alloc)),
    }
}

/// Where the first `=` of a word is.
fn first_equals(word: &[u8]) -> Option<usize>
    ensures value { result ≡ position (λ b. b == 61) word.now }
    ensures within { IfSome result (λ i. i < length word.now) }
{
    word.iter().position(|byte| *byte == b'=')
}

/// The answer that a word gives, cut at its first `=`; none, if nothing is before it.
fn answer_in(alloc: Global, word: &[u8]) -> Result<Option<Answer>, AllocError>
    ensures { IfOk result (λ answer. answer ≡ answer_in word.now) }
{
    let Some(at) = first_equals(word) else {
        return Ok(None);
    };
    if at == 0 {
        return Ok(None);
    }
    let (name, _) = word.split_at(at);
    let (_, text) = word.split_at(at + 1);
    Ok(Some(Answer::new(alloc, name, text)?))
}

/// Appends the answers that words give.
#[tactic(auto, using(crate::proofs::AnswerLemmas::added))]
fn push_answers(alloc: Global, answers: &mut Vec<Answer>, words: &[&str]) -> Result<(), WordsFault>
    ensures named { OnOk result (AddsAnswers answers.old.items answers.new.items
        (answers_in (map (λ word. word.now) words.now))) }
    ensures none { IfErr result (HasNoAnswer (answers_in (map (λ word. word.now) words.now))) }
{
    let [word, others @ ..] = words else {
        return Ok(());
    };
    let Some(answer) = answer_in(alloc, word.as_bytes())? else {
        return Err(WordsFault::NoValue(Wanted::Answer, String::from_str(alloc, word)?));
    };
    if answers.push(answer).is_err() {
        return Err(WordsFault::Memory);
    }
    push_answers(alloc, answers, others)
}

/// The answers that are given.
#[tactic(auto, using(crate::proofs::AnswerLemmas::all_added))]
pub(crate) fn answers_of(alloc: Global, values: &ArgMatches) -> Result<Vec<Answer>, WordsFault>
    ensures named { IfOk result (λ answers. named_answers (rows_in values.now) ≡ Ok answers.items) }
    ensures none { IfErr result (HasNoAnswer (named_answers (rows_in values.now))) }
{
    let mut answers = Vec::new(alloc);
    if let Some(words) = values_of(values, "value") {
        push_answers(alloc, &mut answers, words)?;
    }
    Ok(answers)
}
