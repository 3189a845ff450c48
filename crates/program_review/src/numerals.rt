// Which numeral does not read, and why.

ghost use Rattle.std.specs.Prelude.{◌≡◌, ◌<◌, length, IfSome};
ghost use Rattle.std.specs.List.{position};
ghost use Rattle.program_review.specs.Lengths.{length_fault, is_no_length};
ghost use Rattle.program_review.specs.Numerals as spec;
ghost use Rattle.program_review.specs.Spots.{site_of};
ghost use Rattle.program_review.specs.Words.{given};

use crate::arguments::count_before;
use crate::causes::Cause;
use crate::statements::Found;
use crate::words::{Fault, Word};
use dmis_text::Text;
use fixed_um::{NumeralFault, Um, read_dir, read_um};

/// What a numeral is to be: a length in millimetres, or a component of a direction.
#[derive(Clone, Copy)]
pub(crate) enum Measure {
    Length,
    Component,
}

fn length_fault(text: &[u8]) -> Option<NumeralFault>
    ensures { result ≡ length_fault text.now }
{
    match read_um(text, Um::volume_limit()) {
        Ok(_) => None,
        Err(fault) => Some(fault),
    }
}

/// Whether a text is not read as a length within the machine's volume. Does not allocate.
pub fn is_no_length(text: &[u8]) -> bool
    ensures { result ≡ is_no_length text.now }
{
    length_fault(text).is_some()
}

fn component_fault(text: &[u8]) -> Option<NumeralFault>
    ensures { result ≡ spec.component_fault text.now }
{
    match read_dir(text, b"0", b"0") {
        Ok(_) => None,
        Err(fault) => Some(fault),
    }
}

fn measure_fault(text: &[u8], measure: Measure) -> Option<NumeralFault>
    ensures { result ≡ spec.measure_fault measure text.now }
{
    match measure {
        Measure::Length => length_fault(text),
        Measure::Component => component_fault(text),
    }
}

fn is_no(text: &[u8], measure: Measure) -> bool
    ensures { result ≡ spec.is_no measure text.now }
{
    measure_fault(text, measure).is_some()
}

fn leftmost_of(params: &[Text], measure: Measure) -> Option<usize>
    ensures leftmost { result ≡ position (spec.is_no measure) params.now }
    ensures within { IfSome result (λ index. index < length params.now) }
{
    params.iter().position(|p| is_no(p, measure))
}

fn is_exponent(byte: u8) -> bool
    ensures { result ≡ spec.is_exponent byte }
{
    byte == b'E' || byte == b'e'
}

fn count_digits(numeral: &[u8]) -> usize
    ensures { result ≡ spec.digits_before numeral.now }
{
    numeral
        .iter()
        .take_while(|b| !is_exponent(**b))
        .filter(|b| b.is_ascii_digit())
        .count()
}

fn numeral_cause(numeral: &[u8], fault: NumeralFault, measure: Measure) -> Cause
    ensures { result ≡ spec.numeral_cause fault measure numeral.now }
{
    match fault {
        NumeralFault::NotNumeral => Cause::NotNumeral,
        NumeralFault::TooManyDigits => Cause::ManyDigits(count_digits(numeral)),
        NumeralFault::TooLarge => Cause::BeyondLimit(measure),
    }
}

fn leftmost(numerals: &[Text]) -> Option<(usize, Measure)>
    ensures { result ≡ spec.leftmost numerals.now }
{
    let (lengths, components) = numerals.split_at(numerals.len().min(3));
    if let Some(index) = leftmost_of(lengths, Measure::Length) {
        return Some((index, Measure::Length));
    }
    let index = leftmost_of(components, Measure::Component)?;
    Some((index + 3, Measure::Component))
}

fn fault_at<'s>(
    found: Found<'s, '_>,
    index: usize,
    measure: Measure,
    numeral: &'s [u8],
) -> Option<Fault<'s>>
    ensures { given result ≡ spec.parameter_cause (site_of found.entry) index measure numeral.now }
{
    let fault = measure_fault(numeral, measure)?;
    let word = found.in_param(index, numeral);
    let cause = if word.bytes.is_empty() {
        Cause::NoNumeral(index.saturating_add(1))
    } else {
        numeral_cause(word.bytes, fault, measure)
    };
    Some(Fault { cause, word })
}

/// Which numeral of a statement does not read; none if all do.
pub(crate) fn bad_numeral<'s>(found: Found<'s, '_>) -> Option<Fault<'s>>
    ensures { given result ≡ spec.bad_numeral (site_of found.entry) }
{
    let params: &[Text] = &found.statement.params;
    let before = count_before(params);
    let (_, numerals) = params.split_at(before);
    let (index, measure) = leftmost(numerals)?;
    let numeral = numerals.get(index)?;
    fault_at(found, before + index, measure, numeral)
}

/// Why a field is not read as a length; none if it is.
pub(crate) fn length_fault_of(field: Word<'_>) -> Option<Fault<'_>> {
    let fault = length_fault(field.bytes)?;
    let cause = numeral_cause(field.bytes, fault, Measure::Length);
    Some(Fault { cause, word: field })
}
