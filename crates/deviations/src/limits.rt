ghost use Rattle.std.specs.Prelude.{◌≡◌, is_some, OnOk, IfErr, Ok};
ghost use Rattle.deviations.specs.Names.{entry_on, is_named, own_range, common_range, range_under, range_for, judged, limits_of, GivesLimits, IsDue};

use crate::entries::{Limit, entry_on};
use crate::limit_faults::LimitsFault;
use crate::ranges::Range;
use dmis_text::cut_line;
use fixed_um::Name;
use std::alloc::Global;
use std::marker::Model;

/// Limits for the deviations of a part's points along their normals (this profile). Contracts see the lines of a text in their order.
#[derive(Debug, Drop)]
pub struct Limits {
    limits: Vec<Limit>,
}

impl Model for Limits {
    ghost use Rattle.std.specs.Prelude.{List};
    ghost use Rattle.deviations.specs.declared.entries.Limit.{Limit};

    ghost Value = { List Limit };

    ghost view = { λ l. l.limits.items };
}

fn is_named(limit: &Limit, label: &Name) -> bool
    ensures { result ≡ is_named limit.now.label label.now }
{
    match &limit.label {
        Some(own) => own.as_bytes() == label.as_bytes(),
        None => false,
    }
}

/// The range of the line that names this label.
fn own_range(limits: &[Limit], label: &Name) -> Option<Range>
    ensures { result ≡ own_range limits.now label.now }
{
    let mut left = limits;
    while let [limit, others @ ..] = left {
        if is_named(limit, label) {
            return Some(limit.range);
        }
        left = others;
    }
    None
}

/// The range of the line for all labels.
fn common_range(limits: &[Limit]) -> Option<Range>
    ensures { result ≡ common_range limits.now }
{
    let mut left = limits;
    while let [limit, others @ ..] = left {
        if limit.label.is_none() {
            return Some(limit.range);
        }
        left = others;
    }
    None
}

/// The range of the line with this label.
fn range_under(limits: &[Limit], label: &Option<Name>) -> Option<Range>
    ensures { result ≡ range_under limits.now label.now }
{
    match label {
        Some(label) => own_range(limits, label),
        None => common_range(limits),
    }
}

impl Limits {
    /// Adds what the line of this number says below those above it.
    fn add_line(&mut self, alloc: Global, number: u64, line: &[u8]) -> Result<(), LimitsFault>
        ensures ok { OnOk result (judged number self.old (entry_on number line.now) ≡ Ok self.new) }
        ensures refused { IfErr result (IsDue (judged number self.old (entry_on number line.now))) }
    {
        let Some(limit) = entry_on(alloc, number, line)? else {
            return Ok(());
        };
        if range_under(self.limits.as_slice(), &limit.label).is_some() {
            return Err(LimitsFault::Twice(number));
        }
        self.limits.push(limit)?;
        Ok(())
    }

    /// Reads the text of limits. Its lines end with LF or CR LF, the last may lack its end. Empty lines and lines that begin with `#`
    /// say nothing; each other is `LIMIT label lower upper`, its fields separated by one or more spaces, its word in any case, its
    /// label a name or `*`, its numerals in millimetres with at most three decimals and without an exponent.
    ///
    /// The first line that is refused is answered with its number. Of one line its form is examined first, then whether its lower limit
    /// is the greater, then whether a line above has its label.
    #[tactic(auto, unfolding(crate::specs::Limits::limits_of))]
    pub fn read(alloc: Global, bytes: &[u8]) -> Result<Limits, LimitsFault>
        ensures value { GivesLimits result (limits_of bytes.now) }
    {
        let mut limits = Limits {
            limits: Vec::new(alloc),
        };
        let mut number = 0;
        let mut rest = bytes;
        while let Some((line, after)) = cut_line(rest) {
            number += 1;
            limits.add_line(alloc, number, line)?;
            rest = after;
        }
        Ok(limits)
    }

    /// The range for the points of a feature: that of its own line, or else that of `*`; none if neither is there. Does not allocate.
    pub fn range_for(&self, label: &Name) -> Option<Range>
        ensures { result ≡ range_for self.now label.now }
    {
        match own_range(self.limits.as_slice(), label) {
            Some(range) => Some(range),
            None => common_range(self.limits.as_slice()),
        }
    }
}
