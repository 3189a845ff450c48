ghost use Rattle.std.specs.Prelude.{◌≡◌, ◌↔◌, ◌≤ℤ◌};
ghost use Rattle.deviations.specs.Names.{range_between, verdict_in, Inside};

use fixed_um::Um;

/// The deviations along a normal that are within a limit, in micrometres: those from the lower one to the upper one.
#[derive(Clone, Copy, Debug, PartialEq, Eq)]
pub struct Range {
    /// The least one.
    pub lower: Um,
    /// The greatest one.
    pub upper: Um,
}

/// Whether a deviation is within a limit.
#[derive(Clone, Copy, Debug, PartialEq, Eq)]
pub enum Verdict {
    /// It is neither below the lower limit nor above the upper one.
    Inside,
    /// It is below the lower limit or above the upper one.
    Outside,
}

impl Range {
    /// The range between two lengths; none if the lower one is the greater. Does not allocate.
    pub fn new(lower: Um, upper: Um) -> Option<Range>
        ensures { result ≡ range_between lower upper }
    {
        if lower.get() <= upper.get() {
            Some(Range { lower, upper })
        } else {
            None
        }
    }

    /// Whether a deviation in micrometres is in this range, whose ends belong to it. Does not allocate.
    pub fn verdict(self, along: i128) -> Verdict
        ensures value { result ≡ verdict_in self along }
        ensures inside { (result ≡ Inside) ↔ ((self.lower ≤ℤ along) × (along ≤ℤ self.upper)) }
    {
        if i128::from(self.lower.get()) <= along && along <= i128::from(self.upper.get()) {
            Verdict::Inside
        } else {
            Verdict::Outside
        }
    }
}
