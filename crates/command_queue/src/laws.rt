// What follows for lists of calls. Each function has a law for its contract and does nothing.
ghost use Rattle.std.specs.Prelude.{◌≡◌, List, [], ◌++◌};
ghost use Rattle.command_queue.specs.Names.{Waiting, Call, Do, put_by, taken_by};

/// First in, first out: whatever the calls on a new queue were, what was taken, followed by what waits, is what was put, in order.
/// So no command is lost, none comes twice, and none overtakes another.
#[tactic(auto, using(crate::proofs::CallLists::first_in_first_out))]
pub fn first_in_first_out()
    ensures { (calls : List Call) (waiting : List Waiting) → Do [] calls waiting
        → put_by calls ≡ taken_by calls ++ waiting }
{}
