// The server is left, in order if it may still answer.

ghost use Rattle.std.specs.Prelude.{◌≡◌, ◌≤◌, ◌⊎◌, OnOk, None};
ghost use Rattle.run_session.specs.Ends as ends;
ghost use Rattle.run_session.specs.Records as spec;

use crate::{Session, Stage};
use effects::Answer;
use std::alloc::AllocError;

/// How often it looks again whether a server that is left leaves, too.
const LOOKS_AGAIN: u32 = 9;

/// What comes next if that was done; or else the connection is left.
fn once_done(answer: Answer<'_>, next: Stage) -> Stage
    ensures { (result ≡ next) ⊎ (result ≡ Stage.Leaving) }
{
    match answer {
        Answer::Done => next,
        _ => Stage::Leaving,
    }
}

impl Session {
    /// What comes after an answer while what still comes is dropped.
    fn drained(&mut self, answer: Answer<'_>)
        requires { self.old.stage ≡ Stage.Draining }
        ensures quiet { spec.IsQuiet self.old self.new }
        ensures nears { ends.IsNearer self.old self.new }
        ensures plain { spec.wants self.new.stage ≡ None }
        ensures paced { spec.pace self.new.stage ≡ spec.Apart }
    {
        if self.looks < LOOKS_AGAIN {
            self.looks += 1;
            if let Answer::Bytes(_) | Answer::Nothing = answer {
                return;
            }
        }
        self.stage = Stage::Leaving;
    }

    /// Nothing more is sent, and what still comes is dropped, until the server leaves, too, or a second is over: a connection that is left
    /// before its bytes are read is reset. Then files that did not grow are as they were.
    pub(crate) fn leave_on(&mut self, answer: Answer<'_>) -> Result<(), AllocError>
        requires { 5 ≤ ends.steps_left self.old }
        ensures quiet { spec.IsQuiet self.old self.new }
        ensures due { OnOk result (spec.IsDue self.new) }
        ensures followed { OnOk result (spec.FollowsApart self.old self.new) }
        ensures nears { ends.NearsOn result self.old self.new }
    {
        match self.stage {
            Stage::Closing => self.stage = once_done(answer, Stage::Parting),
            Stage::Parting => self.stage = once_done(answer, Stage::Draining),
            Stage::Draining => self.drained(answer),
            Stage::Leaving => self.stage = Stage::DiscardingFeatures,
            Stage::DiscardingFeatures => self.stage = Stage::DiscardingContacts,
            _ => return self.close(),
        }
        Ok(())
    }
}
