// Examples: when a client is done.

ghost use Rattle.std.specs.Prelude.{◌≡◌, pos, true, false, [], ◌∷◌, ◌++◌, codes};
ghost use Rattle.dme_line.specs.declared.tags.Tag.TheVariants.{Std};
ghost use Rattle.fixed_um.specs.declared.frames.Frame.TheVariants as frame;
ghost use Rattle.protocol_model.specs.declared.held.Stage.TheVariants as stage;
ghost use Rattle.protocol_model.specs.declared.machine.Outcome.TheVariants.{Missed};
ghost use Rattle.protocol_model.specs.declared.states.State.TheVariants as State;
ghost use Rattle.protocol_model.specs.Replies.{Mark};
ghost use Rattle.protocol_model.specs.Client.{client_read, last_state};
ghost use Rattle.protocol_model.specs.Typed.{Event, can, after};
ghost use Rattle.protocol_model.specs.Examples.{at, feature_on};
ghost use Rattle.protocol_model.specs.Scripts.{
  one_point,
  circle,
  server_reads,
  machine,
  client_reads,
  client_reads_all,
  client_leaves,
  abort,
  quiet_to_the_end,
  opened,
  at_its_turn,
  play,
  reported,
  report,
  contact,
};
ghost use Rattle.protocol_model.specs.Turns.{with_abort};

/// When a client is done, what it leaves, and what it cannot begin again with.
pub fn done_rows()
    // The end of the session is counted while an abort is open: the client is done with its end.
    ensures counted_while_aborting { (play one_point 1 (at_its_turn 9 ++ abort ∷ server_reads
        ∷ client_reads ∷ client_reads ∷ [])).world.client.table.tally.todo ≡ [] }
    ensures still_aborting { (play one_point 1 (at_its_turn 9 ++ abort ∷ server_reads
        ∷ client_reads ∷ client_reads ∷ [])).world.client.state ≡ State.Aborting }
    ensures abort_received { (play one_point 1 (at_its_turn 9 ++ abort ∷ server_reads
        ∷ client_reads ∷ client_reads ∷ client_reads ∷ [])).world.client.state ≡ State.Aborting }
    ensures abort_ended { reported one_point 1 (at_its_turn 9 ++ abort ∷ server_reads
        ∷ client_reads ∷ client_reads ∷ client_reads ∷ client_reads ∷ [])
        ≡ report State.Done 6
        (feature_on 1 frame.Machine (codes "A") (at (pos 10002) (pos 20000) (pos 25000) ∷ []) ∷ [])
        (contact 0 1 (at (pos 10002) (pos 20000) (pos 25000)) ∷ []) }
    // The last command ends: the client is not done while an event command is open.
    ensures last_command_ends { (client_read
        (play one_point 1 (at_its_turn 9 ++ client_reads ∷ [])).world.client
        (Std 10) Mark.Done).state ≡ State.Done }
    ensures event_command_is_open { (client_read (with_abort stage.Received
        (play one_point 1 (at_its_turn 9 ++ client_reads ∷ [])).world.client)
        (Std 10) Mark.Done).state ≡ State.Running }
    ensures event_command_has_failed { (client_read (with_abort stage.Failed
        (play one_point 1 (at_its_turn 9 ++ client_reads ∷ [])).world.client)
        (Std 10) Mark.Done).state ≡ State.Done }
    // If all is counted, an abort continues to its end; a failed client is done, or halted.
    ensures aborting_stays { last_state State.Aborting true 0 ≡ State.Aborting }
    ensures failing_is_done { last_state State.Failing true 0 ≡ State.Done }
    ensures failing_halts { last_state State.Failing false 0 ≡ State.Halted }
    ensures failing_waits { last_state State.Failing false 1 ≡ State.Failing }
    // What has been measured whole stays so when the connection is left.
    ensures done_and_left { reported one_point 1 (opened ++ quiet_to_the_end ∷ client_leaves ∷ [])
        ≡ report State.Done 6
        (feature_on 1 frame.Machine (codes "A") (at (pos 10002) (pos 20000) (pos 25000) ∷ []) ∷ [])
        (contact 0 1 (at (pos 10002) (pos 20000) (pos 25000)) ∷ []) }
    ensures not_connected_again { can Event.Connect
        (play one_point 1 (opened ++ quiet_to_the_end ∷ client_leaves ∷ [])).world ≡ false }
    ensures halted_and_left { (play circle 1 (at_its_turn 8 ++ machine Missed ∷ client_reads_all
        ∷ client_leaves ∷ [])).world.client.state ≡ State.Apart }
    // One feature is held: the client cannot be restarted with two, and nothing changes.
    ensures restart_with_one { can (Event.ClientRestart 1)
        (play one_point 1 (opened ++ quiet_to_the_end ∷ [])).world ≡ true }
    ensures restart_with_two { can (Event.ClientRestart 2)
        (play one_point 1 (opened ++ quiet_to_the_end ∷ [])).world ≡ false }
    ensures nothing_changes { after (Event.ClientRestart 2)
        (play one_point 1 (opened ++ quiet_to_the_end ∷ [])).world
        ≡ (play one_point 1 (opened ++ quiet_to_the_end ∷ [])).world }
{}
