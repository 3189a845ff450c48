// The drawn length of deviations.

ghost use Rattle.std.specs.Prelude.{◌≡◌, ◌≤◌, min, unsigned_abs};
ghost use Rattle.drawings.specs.Scales.{on_paper, length_limit};
ghost use Rattle.drawings.specs.Sheet.{margin};

use crate::scales::Scale;

/// How deviations are drawn: the longest in any view, in micrometres, and the scale at which it fits.
#[derive(Clone, Copy)]
pub(crate) struct Whiskers {
    pub scale: Scale,
    pub longest: u64,
    ghost short: { longest ≤ length_limit },
    ghost fits: { on_paper scale longest ≤ margin },
}

impl Whiskers {
    /// The length of a part of a deviation on paper.
    #[tactic(auto, using(crate::proofs::Paper::shorter))]
    pub fn length(&self, part: i64) -> u64
        ensures value { unsigned_abs part ≤ self.now.longest
            → result ≡ on_paper self.now.scale (unsigned_abs part) }
        ensures cut { result ≡ on_paper self.now.scale (min (unsigned_abs part) self.now.longest) }
        ensures within { result ≤ margin }
    {
        self.scale.on_paper(part.unsigned_abs().min(self.longest))
    }
}
