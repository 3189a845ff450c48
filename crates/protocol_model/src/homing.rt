// Examples: whether the machine is homed is asked, and Home is sent only if it is not.

ghost use Rattle.std.specs.Prelude.{
  ◌≡◌,
  pos,
  true,
  false,
  [],
  ◌∷◌,
  ◌++◌,
  length,
  drop,
  codes,
  None,
  Some,
  Ok,
};
ghost use Rattle.fixed_um.specs.declared.frames.Frame.TheVariants.{Machine};
ghost use Rattle.dme_line.specs.declared.tags.Tag.TheVariants.{Std};
ghost use Rattle.dme_line.specs.declared.commands.Csy.TheVariants.{MachineCsy};
ghost use Rattle.dme_line.specs.declared.commands.Kind.TheVariants as kind;
ghost use Rattle.dme_line.specs.declared.commands.Command.TheVariants as command;
ghost use Rattle.contact_ledger.specs.declared.acts.Act.TheVariants as act;
ghost use Rattle.protocol_model.specs.declared.held.Datum.TheVariants as datum;
ghost use Rattle.protocol_model.specs.declared.machine.Outcome.TheVariants.{Done, Fault};
ghost use Rattle.protocol_model.specs.declared.plans.Does.TheVariants.{Nothing, Homes};
ghost use Rattle.protocol_model.specs.declared.plans.Start.TheVariants.{NewConnection};
ghost use Rattle.protocol_model.specs.declared.states.State.TheVariants as State;
ghost use Rattle.protocol_model.specs.declared.states.Cause.TheVariants as Cause;
ghost use Rattle.protocol_model.specs.Replies.{Mark, Reply};
ghost use Rattle.protocol_model.specs.Plan.{plan, planned};
ghost use Rattle.protocol_model.specs.Client.{client_read, client_resumed, due, passed_over};
ghost use Rattle.protocol_model.specs.Server.{server_accepted, server_left, server_restarted};
ghost use Rattle.protocol_model.specs.Typed.{Event, can};
ghost use Rattle.protocol_model.specs.Examples.{at, neg, along, line, failed, Call, called};
ghost use Rattle.protocol_model.specs.Scripts.{
  one_point,
  circle,
  two_points,
  connect,
  accept,
  client_sends,
  server_reads,
  server_reads_all,
  server_turn,
  machine,
  client_reads,
  client_reads_all,
  client_restart,
  server_restart,
  abort,
  resume,
  quiet,
  quiet_to_the_end,
  opened,
  at_its_turn,
  play,
  wrote_behind,
  said_behind,
};
ghost use Rattle.protocol_model.specs.Examples.{no_session, not_homed, no_tool};
ghost use Rattle.protocol_model.specs.Homing.{
  server_behind,
  asked_now,
  homing_now,
  told_so,
  asking_client,
  answered_client,
  told_client,
  opened_again,
};

/// A server says whether its machine is homed when the question is processed.
pub fn asked_rows()
    ensures told_not_homed { called asked_now not_homed ≡ told_so false }
    ensures told_homed { called asked_now no_tool ≡ told_so true }
    // It is an act, and changes nothing else.
    ensures not_homed_is_an_act { server_behind asked_now not_homed
        ≡ record not_homed { ledger = (1, act.HomedIs false) ∷ [] } }
    ensures homed_is_an_act { server_behind asked_now no_tool
        ≡ record no_tool { ledger = (1, act.HomedIs true) ∷ [] } }
    ensures no_session { called asked_now no_session ≡ Reply.Ack (Std 3)
        ∷ failed 3 9005 kind.IsHomed }
    ensures refused_without_an_act { server_behind asked_now no_session
        ≡ record no_session { error = true } }
    // After a Home that is done; before one; after one that fails.
    ensures behind_home { called (homing_now ++ Call.Reads (Ok (line 3 command.IsHomed))
        ∷ Call.Ends Done ∷ Call.Turns ∷ []) not_homed
        ≡ Reply.Ack (Std 1) ∷ Reply.Ack (Std 3) ∷ Reply.Done (Std 1)
        ∷ Reply.Given (Std 3) (datum.Homed true) ∷ Reply.Done (Std 3) ∷ [] }
    ensures before_home { called (Call.Reads (Ok (line 3 command.IsHomed))
        ∷ Call.Reads (Ok (line 4 command.Home)) ∷ Call.Turns ∷ Call.Turns ∷ Call.Ends Done ∷ [])
        no_tool
        ≡ Reply.Ack (Std 3) ∷ Reply.Ack (Std 4) ∷ Reply.Given (Std 3) (datum.Homed true)
        ∷ Reply.Done (Std 3) ∷ Reply.Done (Std 4) ∷ [] }
    ensures behind_a_failed_home { called (homing_now
        ++ Call.Reads (Ok (line 3 command.IsHomed)) ∷ Call.Ends Fault ∷ Call.Turns ∷ []) no_tool
        ≡ Reply.Ack (Std 1) ∷ Reply.Ack (Std 3) ∷ failed 1 9015 kind.Home
        ++ failed 3 9007 kind.IsHomed }
    // A Home that fails leaves the machine not homed, though it was homed before.
    ensures homed_no_more { called (homing_now ++ Call.Ends Fault
        ∷ Call.Reads (Ok (line 2 command.ClearAllErrors)) ∷ Call.Turns ∷ asked_now) no_tool
        ≡ Reply.Ack (Std 1) ∷ failed 1 9015 kind.Home
        ++ Reply.Ack (Std 2) ∷ Reply.Done (Std 2) ∷ told_so false }
    // Another connection leaves that unchanged; a restarted server knows nothing of it.
    ensures left_homed { called (Call.Reads (Ok (line 1 command.StartSession)) ∷ Call.Turns
        ∷ asked_now) (server_accepted 2 (server_left no_tool))
        ≡ Reply.Ack (Std 1) ∷ Reply.Done (Std 1) ∷ told_so true }
    ensures restarted_not_homed { called (Call.Reads (Ok (line 1 command.StartSession))
        ∷ Call.Turns ∷ asked_now) (server_accepted 2 (server_restarted no_tool))
        ≡ Reply.Ack (Std 1) ∷ Reply.Done (Std 1) ∷ told_so false }
{}

/// A client that asks: what it may read, what it counts, and what is due after the answer.
pub fn told_rows()
    ensures no_data { (client_read asking_client (Std 3) Mark.Done).cause ≡ Some Cause.NoData }
    ensures second_data { (client_read (answered_client true) (Std 3)
        (Mark.Given (datum.Homed true))).cause ≡ Some Cause.SecondData }
    // A point does not answer this question, nor is the answer the point of a touch.
    ensures point_is_no_answer { (client_read asking_client (Std 3)
        (Mark.Given (datum.Point (at (pos 0) (pos 0) (pos 0))))).cause ≡ Some Cause.OutOfOrder }
    ensures answer_is_no_point { (client_read (client_read
        (play one_point 1 (opened ++ quiet 8 ∷ client_sends ∷ [])).world.client (Std 9) Mark.Ack)
        (Std 9) (Mark.Given (datum.Homed true))).cause ≡ Some Cause.OutOfOrder }
    // The answer is counted at the end of the question, and until then nothing is due.
    ensures not_yet_counted { (answered_client true).table.tally.counted ≡ [] }
    ensures not_yet_due { due (answered_client true) ≡ None }
    ensures told_homed { (told_client true).table.tally.counted ≡ act.HomedIs true ∷ [] }
    ensures told_not_homed { (told_client false).table.tally.counted ≡ act.HomedIs false ∷ [] }
    // Answered that it is homed, what follows Home is due, and what was not sent is not
    // counted; else Home is due.
    ensures home_is_passed_over { due (told_client true)
        ≡ Some (planned command.OnPtMeasReport Nothing) }
    ensures home_is_due { due (told_client false) ≡ Some (planned command.Home Homes) }
    ensures passed_over_uncounted { (told_client true).table.tally.completed ≡ 3 }
    ensures left_without_home { (told_client true).table.tally.todo
        ≡ drop 4 (plan one_point 0 NewConnection) }
    ensures left_with_home { (told_client false).table.tally.todo
        ≡ drop 3 (plan one_point 0 NewConnection) }
    ensures nothing_but_home { passed_over true (planned command.OnPtMeasReport Nothing ∷ [])
        ≡ planned command.OnPtMeasReport Nothing ∷ [] }
    // A question that has failed is asked again, though its end was not read.
    ensures failed_question { due (client_resumed (client_read asking_client (Std 3) Mark.Error))
        ≡ Some (planned command.ClearAllErrors Nothing) }
    // With a window of 16: nothing is due from the sending of the question to its end.
    ensures asks { can Event.ClientSends
        (play one_point 16 (opened ++ quiet 1 ∷ client_sends ∷ [])).world ≡ true }
    ensures asking { can Event.ClientSends
        (play one_point 16 (opened ++ quiet 1 ∷ client_sends ∷ client_sends ∷ [])).world ≡ false }
    ensures answered { can Event.ClientSends
        (play one_point 16 (opened ++ quiet 1 ∷ client_sends ∷ client_sends ∷ server_reads_all
        ∷ server_turn ∷ server_turn ∷ client_reads ∷ client_reads ∷ client_reads ∷ client_reads
        ∷ [])).world ≡ false }
    ensures ended { can Event.ClientSends
        (play one_point 16 (opened ++ quiet 1 ∷ client_sends ∷ client_sends ∷ server_reads_all
        ∷ server_turn ∷ server_turn ∷ client_reads ∷ client_reads ∷ client_reads ∷ client_reads
        ∷ client_reads ∷ [])).world ≡ true }
{}

/// Both ends: if the machine is homed, Home has no line and no tag, and the plan is whole
/// without it.
pub fn homing_rows()
    ensures first_connection { said_behind (play one_point 1 (opened ++ quiet 2 ∷ []))
        (quiet 1 ∷ []) ≡ told_so false }
    ensures second_connection { wrote_behind
        (play circle 1 (opened ++ quiet 8 ∷ opened_again)) (quiet_to_the_end ∷ [])
        ≡ line 1 command.StartSession ∷ line 2 command.ClearAllErrors ∷ line 3 command.IsHomed
        ∷ line 4 command.OnPtMeasReport ∷ line 5 (command.SetCoordSystem MachineCsy)
        ∷ line 6 (command.ChangeTool (codes "P1"))
        ∷ line 7 (command.PtMeas (at (pos 1000) (pos 0) (pos 0))
        (along (neg 1000000) (pos 0) (pos 0)))
        ∷ line 8 (command.PtMeas (at (pos 0) (pos 1000) (pos 0))
        (along (pos 0) (neg 1000000) (pos 0)))
        ∷ line 9 (command.PtMeas (at (neg 1000) (pos 0) (pos 0))
        (along (pos 1000000) (pos 0) (pos 0)))
        ∷ line 10 command.EndSession ∷ [] }
    ensures second_connection_is_told { said_behind
        (play circle 1 (opened ++ quiet 8 ∷ opened_again ++ quiet 2 ∷ [])) (quiet 1 ∷ [])
        ≡ told_so true }
    ensures second_connection_done { (play circle 1
        (opened ++ quiet 8 ∷ opened_again ++ quiet_to_the_end ∷ [])).world.client.state
        ≡ State.Done }
    // Ten commands of eleven are counted.
    ensures second_connection_completed { (play circle 1 (opened ++ quiet 8 ∷ opened_again
        ++ quiet_to_the_end ∷ [])).world.client.table.tally.completed ≡ 10 }
    ensures eleven_planned { length (plan circle 0 NewConnection) ≡ 11 }
    // A client that was restarted and a server that was not: it is reported that the machine is homed.
    ensures client_restarted { wrote_behind (play two_points 1
        (opened ++ quiet_to_the_end ∷ client_restart 1 ∷ opened_again)) (quiet 4 ∷ [])
        ≡ line 1 command.StartSession ∷ line 2 command.ClearAllErrors ∷ line 3 command.IsHomed
        ∷ line 4 command.OnPtMeasReport ∷ [] }
    ensures server_restarted { wrote_behind (play two_points 1
        (opened ++ quiet_to_the_end ∷ client_restart 1 ∷ server_restart ∷ connect ∷ accept 2
        ∷ [])) (quiet 5 ∷ [])
        ≡ line 1 command.StartSession ∷ line 2 command.ClearAllErrors ∷ line 3 command.IsHomed
        ∷ line 4 command.Home ∷ line 5 command.OnPtMeasReport ∷ [] }
    // Home fails: it is sent again after the resumption, under a new tag.
    ensures failed_home_is_sent_again { wrote_behind (play one_point 1
        (at_its_turn 3 ++ machine Fault ∷ client_reads_all ∷ resume ∷ [])) (quiet 4 ∷ [])
        ≡ line 5 command.ClearAllErrors ∷ line 6 command.IsHomed ∷ line 7 command.Home
        ∷ line 8 command.OnPtMeasReport ∷ [] }
    ensures failed_home_is_asked_twice { (play one_point 1
        (at_its_turn 3 ++ machine Fault ∷ client_reads_all ∷ resume
        ∷ quiet 4 ∷ [])).world.client.table.tally.counted
        ≡ act.HomedIs false ∷ act.HomedIs false ∷ act.Homed ∷ [] }
    // After a resumption the machine is still homed: both answers are counted, and one homing.
    ensures resumed_homed { (play one_point 1
        (at_its_turn 5 ++ abort ∷ server_reads ∷ client_reads_all ∷ resume
        ∷ quiet 5 ∷ [])).world.client.table.tally.counted
        ≡ act.HomedIs false ∷ act.Homed ∷ act.Framed Machine ∷ act.HomedIs true
        ∷ act.Framed Machine ∷ act.Changed (codes "P1") ∷ [] }
{}
