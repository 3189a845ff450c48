// A play: both ends, and perhaps a relay, step by step, with one effect disturbed; then the same call once more.

use crate::ends::{Plays, new_relay, new_run, new_service};
use crate::hands::{Ended, Hand, Outside};
use crate::wires::Wire;
use crate::{Kind, Stop, Who};
use effects::{Cause, Effect};
use std::alloc::{AllocError, Global};
use std::io::Write;

/// The texts of the setup and of the program.
#[derive(Clone, Copy)]
pub(crate) struct Texts<'a> {
    pub(crate) setup: &'a str,
    pub(crate) program: &'a str,
}

/// One effect of one of them has another answer, or is its last; and how much is left of what it wrote then.
#[derive(Clone, Copy)]
pub(crate) struct Play {
    who: Who,
    at: u64,
    /// The answer; none if it is killed.
    how: Option<Kind>,
    left: usize,
}

/// How often nothing moves before a call is over: each time the reads of its run come back.
const MOST_WAITS: u32 = 50;

/// How long a read waits.
const WAITED_MS: u64 = 6_000;

const MOST_STEPS: u32 = 100_000;

/// The answer of this word; none for `kill`.
fn kind_of(word: &str) -> Option<Option<Kind>> {
    Some(Some(match word {
        "kill" => return Some(None),
        "short" => Kind::Short,
        "end" => Kind::End,
        "missing" => Kind::Missing,
        "found" => Kind::Found,
        "nothing" => Kind::Nothing,
        "full" => Kind::Failed(Cause::Full),
        "locked" => Kind::Failed(Cause::Locked),
        "reset" => Kind::Failed(Cause::Reset),
        "unknown" => Kind::Failed(Cause::Unknown),
        _ => return None,
    }))
}

fn who_of(word: &str) -> Option<Who> {
    Some(match word {
        "run" => Who::Run,
        "serve" => Who::Serve,
        "watch" => Who::Watch,
        _ => return None,
    })
}

impl Play {
    /// What a part of a line says; none if it says nothing.
    fn read(text: &str) -> Option<Play> {
        let (who, rest) = text.split_once(" ")?;
        let (at, rest) = rest.split_once(" ")?;
        let (how, left) = rest.split_once(" ")?;
        Some(Play {
            who: who_of(who)?,
            at: at.parse().ok()?,
            how: kind_of(how)?,
            left: left.parse().ok()?,
        })
    }

    /// Whether the next effect of an end is the one that is disturbed.
    fn is_next(&self, hand: &Hand) -> bool {
        hand.who == self.who && hand.count.saturating_add(1) == self.at
    }
}

/// One of the three: its session, and what it has open.
#[derive(Drop)]
struct End {
    plays: Plays,
    hand: Hand,
}

/// What comes of an effect.
fn outcome(
    outside: &mut Outside,
    hand: &mut Hand,
    effect: Effect<'_>,
    play: Option<Play>,
) -> Result<Kind, AllocError> {
    if let Some(play) = play
        && play.is_next(hand)
        && let Some(kind) = play.how
    {
        outside.fail(hand, effect, play.left)?;
        return Ok(kind);
    }
    outside.carry_out(hand, effect)
}

impl End {
    fn new(alloc: Global, who: Who) -> End {
        End {
            plays: Plays::Nobody,
            hand: Hand::new(alloc, who),
        }
    }

    /// The next effect of an end is carried out; whether it had not to wait, nor had ended.
    fn step(&mut self, outside: &mut Outside, play: Option<Play>) -> Result<bool, AllocError> {
        let hand = &mut self.hand;
        if hand.ended != Ended::No {
            return Ok(false);
        }
        let Some(effect) = self.plays.asks() else {
            return Ok(false);
        };
        if let Effect::Exit(status) = effect {
            outside.part(hand, Ended::Exit(status), None);
            return Ok(true);
        }
        let kind = outcome(outside, hand, effect, play)?;
        if let Kind::Waits = kind {
            return Ok(false);
        }
        self.plays.take(kind.answer(outside.came.as_slice()));
        hand.is_woken = false;
        if let Some(play) = play
            && play.is_next(hand)
            && play.how.is_none()
        {
            outside.part(hand, Ended::Killed, Some(play.left));
        }
        hand.count = hand.count.saturating_add(1);
        Ok(true)
    }

    /// An end continues until it waits.
    fn settle(&mut self, outside: &mut Outside, play: Option<Play>) -> Result<(), AllocError> {
        for _ in 0..MOST_STEPS {
            if !self.step(outside, play)? {
                return Ok(());
            }
        }
        Ok(())
    }

    /// How it has ended, how many effects it had, what it has said and printed.
    fn push(&self, out: &mut Vec<u8>, name: &str) -> Result<(), Stop> {
        let hand = &self.hand;
        let status = match hand.ended {
            Ended::No => -1,
            Ended::Killed => -9,
            Ended::Exit(status) => i32::from(status),
        };
        let (count, said, printed) = (hand.count, &hand.said, &hand.printed);
        write!(
            out,
            "end {name} {status} {count} {} {}\n",
            said.len(),
            printed.len()
        )?;
        push_bytes(out, said.as_slice())?;
        Ok(push_bytes(out, printed.as_slice())?)
    }
}

/// What one call of the three leaves.
#[derive(Drop)]
struct Round<'a> {
    play: Option<Play>,
    outside: &'a mut Outside,
    run: End,
    serve: End,
    watch: End,
}

impl Round<'_> {
    /// The reads of a run come back.
    fn wake(&mut self) {
        self.outside.clock = self.outside.clock.saturating_add(WAITED_MS);
        self.run.hand.is_woken = true;
    }

    /// All take a step; whether one did.
    fn step(&mut self) -> Result<bool, AllocError> {
        let outside = &mut *self.outside;
        let play = self.play;
        let relayed = self.watch.step(outside, play)?;
        let served = self.serve.step(outside, play)?;
        Ok(self.run.step(outside, play)? || served || relayed)
    }

    /// The sessions of a call of this number, which is that of the folder of a relay's bytes.
    fn begin(&mut self, alloc: Global, setup: &str, number: usize) -> Result<(), Stop> {
        if self.outside.is_through {
            let folder = format!(in alloc; "bytes{number}")?;
            self.watch.plays = new_relay(alloc, folder.as_str())?;
        }
        self.run.plays = new_run(alloc)?;
        self.serve.plays = new_service(alloc, setup)?;
        Ok(())
    }

    /// All play until the run has ended or waits for good.
    fn play(&mut self) -> Result<(), AllocError> {
        self.serve.settle(&mut *self.outside, self.play)?;
        self.watch.settle(&mut *self.outside, self.play)?;
        let mut waits = 0u32;
        for _ in 0..MOST_STEPS {
            if self.step()? {
                continue;
            }
            self.wake();
            waits = waits.saturating_add(1);
            if self.run.hand.ended != Ended::No || waits >= MOST_WAITS {
                break;
            }
        }
        Ok(())
    }

    /// What is left once all have played.
    fn push_played(&mut self, out: &mut Vec<u8>, setup: &str, number: usize) -> Result<(), Stop> {
        self.begin(*out.allocator(), setup, number)?;
        self.play()?;
        push_bytes(out, b"round".as_slice())?;
        for who in [Who::Run, Who::Serve, Who::Watch] {
            self.outside.files.release(who, None);
        }
        self.run.push(out, "run")?;
        self.serve.push(out, "serve")?;
        self.watch.push(out, "watch")?;
        push_files(out, self.outside)
    }
}

// ---- what is left

fn push_bytes(out: &mut Vec<u8>, bytes: &[u8]) -> Result<(), AllocError> {
    out.extend_from_slice(bytes)?;
    out.push(b'\n')?;
    Ok(())
}

fn push_files(out: &mut Vec<u8>, outside: &Outside) -> Result<(), Stop> {
    for file in outside.files.items.iter() {
        if file.is_there {
            write!(out, "file {} {}\n", file.name, file.bytes.len())?;
            push_bytes(out, file.bytes.as_slice())?;
        }
    }
    Ok(())
}

/// One call of the three, with its connections.
fn push_round(
    out: &mut Vec<u8>,
    outside: &mut Outside,
    setup: &str,
    play: Option<Play>,
    number: usize,
) -> Result<(), Stop> {
    let alloc = *out.allocator();
    outside.first = Wire::new(alloc);
    outside.last = Wire::new(alloc);
    let mut round = Round {
        play,
        outside,
        run: End::new(alloc, Who::Run),
        serve: End::new(alloc, Who::Serve),
        watch: End::new(alloc, Who::Watch),
    };
    let done = round.push_played(out, setup, number);
    drop(round);
    done
}

/// What is left after the calls of a line, and after one that nothing disturbs.
pub(crate) fn push_row(out: &mut Vec<u8>, texts: Texts<'_>, row: &str) -> Result<(), Stop> {
    let (way, parts) = row.split_once(" ").ok_or(Stop::Row)?;
    let mut outside = Outside::new(*out.allocator(), way == "through");
    let (setup, program) = (texts.setup.as_bytes(), texts.program.as_bytes());
    outside.files.make(Who::Run, "machine.setup", setup)?;
    outside.files.make(Who::Run, "part.dmis", program)?;
    let mut number = 1usize;
    for part in parts.split(";") {
        let play = Play::read(part).ok_or(Stop::Row)?;
        push_round(out, &mut outside, texts.setup, Some(play), number)?;
        number = number.saturating_add(1);
    }
    push_round(out, &mut outside, texts.setup, None, number)?;
    Ok(push_bytes(out, b"played".as_slice())?)
}
