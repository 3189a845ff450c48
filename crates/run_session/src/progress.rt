// How far a run is, as one line on a terminal, which is written anew.

ghost use Rattle.std.specs.Prelude.{◌≡◌, ◌++◌, OnOk, IfOk, map, string_bytes};
ghost use Rattle.run_session.specs.Progress as spec;

use dmis_program::Wanted;
use std::alloc::{AllocError, Global};

/// How far a run is: features and touches, those of all runs of its record, and of them the touches that were made before this run; and for
/// how long it is on its connection, in milliseconds.
#[derive(Clone, Copy)]
pub(crate) struct Pace {
    pub measured: usize,
    pub asked: usize,
    pub before: usize,
    pub touches: usize,
    pub all: usize,
    pub gone: u64,
}

/// What is known of time, and whether the last line that was shown says how far the run is.
#[derive(Clone, Copy)]
pub(crate) struct Pacing {
    began: Option<u64>,
    now: u64,
    pub is_last: bool,
}

impl Pacing {
    pub(crate) fn new() -> Pacing {
        Pacing {
            began: None,
            now: 0,
            is_last: false,
        }
    }

    /// It is this moment.
    pub(crate) fn look(&mut self, now: u64) {
        if self.began.is_none() {
            self.began = Some(now);
        }
        self.now = now;
    }

    /// For how long the run is on its connection.
    pub(crate) fn gone(&self) -> u64 {
        match self.began {
            Some(began) => self.now.saturating_sub(began),
            None => 0,
        }
    }

    /// Lines were shown: that of the pace, and others after it.
    pub(crate) fn show(&mut self, is_paced: bool, is_followed: bool) {
        self.is_last = (is_paced || self.is_last) && !is_followed;
    }
}

/// How many touches these features have. Does not allocate.
pub fn touches_of(wanted: &[Wanted]) -> usize {
    let mut count: usize = 0;
    for feature in wanted {
        count = count.saturating_add(feature.touches.as_slice().len());
    }
    count
}

/// The cells of a bar.
fn cells() -> &'static [u8]
    ensures { result.now ≡ spec.cells }
{
    &[
        0, 1, 2, 3, 4, 5, 6, 7, 8, 9, 10, 11, 12, 13, 14, 15, 16, 17, 18, 19,
    ]
}

/// How many of the twenty cells of the bar are full.
fn full_cells(pace: Pace) -> u128
    ensures { result ≡ spec.full_cells pace }
{
    let done = (pace.touches as u128).saturating_mul(20);
    done / (pace.all as u128).max(1)
}

fn push_cells(text: &mut String, full: u128, cells: &[u8]) -> Result<(), AllocError>
    ensures { OnOk result (string_bytes text.new
        ≡ string_bytes text.old ++ map (spec.cell full) cells.now) }
{
    let mut left = cells;
    while let [at, others @ ..] = left {
        text.push_str(if u128::from(*at) < full { "#" } else { "-" })?;
        left = others;
    }
    Ok(())
}

fn bar(alloc: Global, pace: Pace) -> Result<String, AllocError>
    ensures { IfOk result (λ bar. string_bytes bar ≡ spec.bar pace) }
{
    let mut bar = String::new(alloc);
    push_cells(&mut bar, full_cells(pace), cells())?;
    Ok(bar)
}

/// Minutes and seconds.
#[tactic(auto, unfolding(crate::specs::Progress::clock))]
fn push_clock(text: &mut String, seconds: u128) -> Result<(), AllocError>
    ensures { OnOk result (string_bytes text.new ≡ string_bytes text.old ++ spec.clock seconds) }
{
    let minutes = seconds / 60;
    let tens = seconds % 60 / 10;
    let ones = seconds % 60 % 10;
    write!(text, "{minutes}:{tens}{ones}")
}

/// How many seconds are left if each touch takes as long as those of this run did on average; none before the first.
fn left(pace: Pace) -> Option<u128>
    ensures { result ≡ spec.left pace }
{
    let made = pace.touches.saturating_sub(pace.before) as u128;
    if made == 0 {
        return None;
    }
    let open = pace.all.saturating_sub(pace.touches) as u128;
    Some(u128::from(pace.gone).saturating_mul(open) / made / 1000)
}

fn push_left(text: &mut String, pace: Pace) -> Result<(), AllocError>
    ensures { OnOk result (string_bytes text.new
        ≡ string_bytes text.old ++ spec.left_words (spec.left pace)) }
{
    let Some(seconds) = left(pace) else {
        return Ok(());
    };
    text.push_str(", ")?;
    push_clock(text, seconds)?;
    text.push_str(" left")
}

#[tactic(auto, unfolding(crate::specs::Progress::counts))]
fn push_counts(text: &mut String, bar: &str, pace: Pace) -> Result<(), AllocError>
    ensures { OnOk result (string_bytes text.new
        ≡ string_bytes text.old ++ spec.counts bar.now pace) }
{
    let (measured, asked) = (pace.measured, pace.asked);
    let (touches, all) = (pace.touches, pace.all);
    write!(
        text,
        "[{bar}] {measured} of {asked} features, {touches} of {all} touches, "
    )
}

#[tactic(auto, unfolding(crate::specs::Progress::times))]
fn push_times(text: &mut String, pace: Pace) -> Result<(), AllocError>
    ensures { OnOk result (string_bytes text.new ≡ string_bytes text.old ++ spec.times pace) }
{
    push_clock(text, u128::from(pace.gone) / 1000)?;
    text.push_str(" gone")?;
    push_left(text, pace)?;
    text.push_str("\x1b[?7h\n")
}

fn anew(is_anew: bool) -> &'static str
    ensures { result.now ≡ spec.anew is_anew }
{
    if is_anew {
        "\x1b[1A\x1b[2K\x1b[?7l"
    } else {
        "\x1b[?7l"
    }
}

/// The line of a pace; it takes the place of the line above it, if that is asked. Fails only if out of memory.
#[tactic(auto, unfolding(crate::specs::Progress::pace_line))]
pub(crate) fn pace_line(alloc: Global, is_anew: bool, pace: Pace) -> Result<String, AllocError>
    ensures { IfOk result (λ text. string_bytes text ≡ spec.pace_line is_anew pace) }
{
    let mut text = String::new(alloc);
    let bar = bar(alloc, pace)?;
    text.push_str(anew(is_anew))?;
    push_counts(&mut text, bar.as_str(), pace)?;
    push_times(&mut text, pace)?;
    Ok(text)
}
