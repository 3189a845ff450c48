// What follows from the definitions. Each function has laws for its contract and does nothing.

ghost use Rattle.std.specs.Prelude.{◌≡◌, true, ℕ, List, Some, is_some};
ghost use Rattle.run_opening.specs.Names.{IsRunBegun, IsSessionOf, Known, Outside, Pair, Run, State};
ghost use Rattle.run_opening.specs.declared.stages.Stage.TheVariants as stage;

/// The run of a session that is ready, and has a record, begins as `begin_record` gives it of the bytes that were read of that (`IsBegun`):
/// so `run_session::runs_keep_their_records` speaks of it. If a features file is named, its features are the first (`KeepsFile`).
pub fn ready_runs_begin()
    ensures { (run : Run) (s : State) (o : Outside) (bytes : List ℕ) (pair : Pair)
        → Known stage.Ready run s o → is_some run.record ≡ true
        → o.answered.recorded ≡ Some bytes → IsSessionOf s.core.client s.core.begun pair
        → IsRunBegun run o.answered bytes pair }
{}
