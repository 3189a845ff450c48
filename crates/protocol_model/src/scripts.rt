// Examples: what short scripts give, computed by the definitions. Lengths are in micrometres.

ghost use Rattle.std.specs.Prelude.{
  ◌≡◌,
  pos,
  true,
  false,
  [],
  ◌∷◌,
  ◌++◌,
  codes,
  Some,
  None,
  Ok,
  Err,
};
ghost use Rattle.fixed_um.specs.declared.frames.Frame.TheVariants.{Machine, Part};
ghost use Rattle.dme_line.specs.declared.tags.Tag.TheVariants.{Std, Event as OnEvent};
ghost use Rattle.dme_line.specs.declared.commands.Csy.TheVariants.{MachineCsy, PartCsy};
ghost use Rattle.dme_line.specs.declared.commands.Kind.TheVariants as kind;
ghost use Rattle.dme_line.specs.declared.commands.Command.TheVariants as command;
ghost use Rattle.dme_line.specs.declared.reading.LineFault.TheVariants.{NoTag, BadArguments};
ghost use Rattle.dmis_program.specs.Meaning.{program_of};
ghost use Rattle.protocol_model.specs.declared.held.Datum.TheVariants as datum;
ghost use Rattle.protocol_model.specs.declared.held.Stage.TheVariants as stage;
ghost use Rattle.protocol_model.specs.declared.machine.Outcome.TheVariants.{
  Done,
  Touched,
  Missed,
  Fault,
};
ghost use Rattle.protocol_model.specs.declared.states.State.TheVariants as State;
ghost use Rattle.protocol_model.specs.declared.states.Cause.TheVariants as Cause;
ghost use Rattle.protocol_model.specs.Replies.{Mark, Reply};
ghost use Rattle.protocol_model.specs.Client.{client_read, next_number};
ghost use Rattle.protocol_model.specs.Server.{new_server, server_accepted, server_restarted};
ghost use Rattle.protocol_model.specs.Typed.{Event, can};
ghost use Rattle.protocol_model.specs.Examples.{
  at,
  neg,
  along,
  from_above,
  part,
  feature_on,
  line,
  failed,
  Call,
  called,
  read_under,
};
ghost use Rattle.protocol_model.specs.Scripts.{
  empty,
  one_point,
  circle,
  two_frames,
  two_points,
  same_twice,
  connect,
  accept,
  client_sends,
  server_reads,
  server_turn,
  machine,
  auto,
  client_reads,
  client_reads_all,
  client_leaves,
  server_leaves,
  abort,
  resume,
  client_restart,
  server_restart,
  quiet,
  quiet_to_the_end,
  opened,
  at_its_turn,
  change_while_two_wait,
  touch_while_one_waits,
  play,
  wrote_behind,
  said_behind,
  reported,
  report,
  contact,
  acks_under,
  failed_under,
  held_at,
};

/// The programs of these rows, as texts (ISO 22093).
pub fn text_rows()
    ensures empty { program_of [] (codes "DMISMN/'E',05.2\nENDFIL") ≡ Ok empty }
    ensures one_point { program_of []
        (codes "DMISMN/'ONE',05.2\nSNSLCT/S(P1)\nMEAS/POINT,F(A),1\nGOTO/10,20,30\n"
        ++ codes "PTMEAS/CART,10,20,25,0,0,1\nENDMES\nENDFIL")
        ≡ Ok one_point }
    ensures circle { program_of []
        (codes "DMISMN/'THREE',05.2\nSNSLCT/S(P1)\nMEAS/CIRCLE,F(C),3\nPTMEAS/CART,1,0,0,-1,0,0\n"
        ++ codes "PTMEAS/CART,0,1,0,0,-1,0\nPTMEAS/CART,-1,0,0,1,0,0\nENDMES\nENDFIL")
        ≡ Ok circle }
    ensures two_frames { program_of ((codes "PART", part) ∷ [])
        (codes "DMISMN/'FRAMES',05.2\nSNSLCT/S(P1)\nMEAS/POINT,F(A),1\nPTMEAS/CART,10,0,0,0,0,1\n"
        ++ codes "ENDMES\nMEAS/LINE,F(B),2\nPTMEAS/CART,20,0,0,0,0,1\nRECALL/D(PART)\n"
        ++ codes "PTMEAS/CART,30,0,0,0,0,1\nENDMES\nENDFIL")
        ≡ Ok two_frames }
    ensures two_points { program_of []
        (codes "DMISMN/'TWO',05.2\nSNSLCT/S(P1)\nMEAS/POINT,F(A),1\nPTMEAS/CART,1,2,3,0,0,1\n"
        ++ codes "ENDMES\nMEAS/POINT,F(B),1\nPTMEAS/CART,4,5,6,0,0,1\nENDMES\nENDFIL")
        ≡ Ok two_points }
    ensures same_twice { program_of []
        (codes "DMISMN/'TWICE',05.2\nSNSLCT/S(P1)\nMEAS/LINE,F(A),2\nPTMEAS/CART,10,0,0,0,0,1\n"
        ++ codes "PTMEAS/CART,10,0,0,0,0,1\nENDMES\nENDFIL")
        ≡ Ok same_twice }
{}

/// Runs that nothing disturbs.
pub fn undisturbed_rows()
    ensures empty_program { (play empty 1 (opened ++ quiet_to_the_end ∷ [])).wrote
        ≡ line 1 command.StartSession ∷ line 2 command.ClearAllErrors ∷ line 3 command.IsHomed
        ∷ line 4 command.Home ∷ line 5 command.OnPtMeasReport
        ∷ line 6 (command.SetCoordSystem MachineCsy) ∷ line 7 command.EndSession ∷ [] }
    ensures empty_report { reported empty 1 (opened ++ quiet_to_the_end ∷ [])
        ≡ report State.Done 3 [] [] }
    ensures one_point_program { (play one_point 1 (opened ++ quiet_to_the_end ∷ [])).wrote
        ≡ line 1 command.StartSession ∷ line 2 command.ClearAllErrors ∷ line 3 command.IsHomed
        ∷ line 4 command.Home ∷ line 5 command.OnPtMeasReport
        ∷ line 6 (command.SetCoordSystem MachineCsy) ∷ line 7 (command.ChangeTool (codes "P1"))
        ∷ line 8 (command.GoTo (at (pos 10000) (pos 20000) (pos 30000)))
        ∷ line 9 (command.PtMeas (at (pos 10000) (pos 20000) (pos 25000))
        (along (pos 0) (pos 0) (pos 1000000)))
        ∷ line 10 command.EndSession ∷ [] }
    ensures one_point_report { reported one_point 1 (opened ++ quiet_to_the_end ∷ [])
        ≡ report State.Done 6
        (feature_on 1 Machine (codes "A") (at (pos 10002) (pos 20000) (pos 25000) ∷ []) ∷ [])
        (contact 0 1 (at (pos 10002) (pos 20000) (pos 25000)) ∷ []) }
    ensures nine_rounds { (play one_point 1 (opened ++ quiet 9 ∷ [])).world.client.state
        ≡ State.Running }
    ensures ten_rounds { (play one_point 1 (opened ++ quiet 10 ∷ [])).world.client.state
        ≡ State.Done }
    ensures widest_window { reported one_point 16 (opened ++ quiet 3 ∷ [])
        ≡ report State.Done 6
        (feature_on 1 Machine (codes "A") (at (pos 10002) (pos 20000) (pos 25000) ∷ []) ∷ [])
        (contact 0 1 (at (pos 10002) (pos 20000) (pos 25000)) ∷ []) }
    ensures two_frames_report { reported two_frames 1 (opened ++ quiet_to_the_end ∷ [])
        ≡ report State.Done 8
        (feature_on 1 Machine (codes "A") (at (pos 10002) (pos 0) (pos 0) ∷ [])
        ∷ feature_on 1 (Part part) (codes "B")
        (at (pos 20000) (pos 0) (pos 4) ∷ at (pos 29999) (pos 1) (pos 0) ∷ [])
        ∷ [])
        (contact 0 1 (at (pos 10002) (pos 0) (pos 0)) ∷ contact 1 1 (at (pos 20000) (pos 0) (pos 4))
        ∷ contact 2 1 (at (pos 29999) (pos 1) (pos 0)) ∷ []) }
    // Two touches that are alike are served by two contacts.
    ensures same_twice_report { reported same_twice 1
        (at_its_turn 7 ++ machine (Touched (at (pos 10002) (pos 0) (pos 0))) ∷ client_reads_all
        ∷ client_sends ∷ server_reads ∷ server_turn
        ∷ machine (Touched (at (pos 10004) (pos 0) (pos 0))) ∷ quiet_to_the_end ∷ [])
        ≡ report State.Done 6 (feature_on 1 Machine (codes "A")
        (at (pos 10002) (pos 0) (pos 0) ∷ at (pos 10004) (pos 0) (pos 0) ∷ []) ∷ [])
        (contact 0 1 (at (pos 10002) (pos 0) (pos 0)) ∷ contact 1 1 (at (pos 10004) (pos 0) (pos 0))
        ∷ []) }
{}

/// Connections that break, and ends that restart.
pub fn broken_rows()
    // The client leaves while its first line is on its way.
    ensures left_at_once { reported one_point 1
        (opened ++ client_sends ∷ client_leaves ∷ connect ∷ server_reads ∷ server_leaves ∷ accept 2
        ∷ quiet_to_the_end ∷ [])
        ≡ report State.Done 6
        (feature_on 2 Machine (codes "A") (at (pos 10002) (pos 20000) (pos 25000) ∷ []) ∷ [])
        (contact 0 2 (at (pos 10002) (pos 20000) (pos 25000)) ∷ []) }
    // A point was counted before the break: the feature is measured again from its first touch on.
    ensures left_inside_a_feature { reported circle 1 (opened
        ++ quiet 8 ∷ client_leaves ∷ server_leaves ∷ connect ∷ accept 2 ∷ quiet_to_the_end ∷ [])
        ≡ report State.Done 6
        (feature_on 2 Machine (codes "C") (at (pos 1000) (pos 0) (pos 4)
        ∷ at (neg 1) (pos 1001) (pos 0) ∷ at (neg 998) (pos 0) (pos 0) ∷ []) ∷ [])
        (contact 0 1 (at (pos 1002) (pos 0) (pos 0)) ∷ contact 1 2 (at (pos 1000) (pos 0) (pos 4))
        ∷ contact 2 2 (at (neg 1) (pos 1001) (pos 0)) ∷ contact 3 2 (at (neg 998) (pos 0) (pos 0))
        ∷ []) }
    // The point was read, and not the end of its touch.
    ensures left_inside_a_touch { reported circle 1
        (at_its_turn 7 ++ auto ∷ client_reads ∷ client_reads ∷ client_leaves ∷ server_leaves
        ∷ connect ∷ accept 2 ∷ quiet_to_the_end ∷ [])
        ≡ report State.Done 6
        (feature_on 2 Machine (codes "C") (at (pos 1000) (pos 0) (pos 4)
        ∷ at (neg 1) (pos 1001) (pos 0) ∷ at (neg 998) (pos 0) (pos 0) ∷ []) ∷ [])
        (contact 0 1 (at (pos 1002) (pos 0) (pos 0)) ∷ contact 1 2 (at (pos 1000) (pos 0) (pos 4))
        ∷ contact 2 2 (at (neg 1) (pos 1001) (pos 0)) ∷ contact 3 2 (at (neg 998) (pos 0) (pos 0))
        ∷ []) }
    ensures left_unread { reported circle 1 (at_its_turn 7 ++ auto ∷ client_leaves ∷ [])
        ≡ report State.Apart 4 [] (contact 0 1 (at (pos 1002) (pos 0) (pos 0)) ∷ []) }
    // Two touches wait when the server leaves, and a tool change runs: none of them is left.
    ensures nothing_waits { (play circle 3 (change_while_two_wait
        ++ server_leaves ∷ [])).world.server.waiting ≡ [] }
    ensures nothing_runs { (play circle 3 (change_while_two_wait
        ++ server_leaves ∷ [])).world.server.running ≡ None }
    // The server makes the contact while the client is already on the next connection.
    ensures left_by_the_client_first { reported circle 1
        (at_its_turn 7 ++ client_leaves ∷ connect ∷ client_sends ∷ auto ∷ server_leaves ∷ accept 2
        ∷ quiet_to_the_end ∷ [])
        ≡ report State.Done 6
        (feature_on 2 Machine (codes "C") (at (pos 1000) (pos 0) (pos 4)
        ∷ at (neg 1) (pos 1001) (pos 0) ∷ at (neg 998) (pos 0) (pos 0) ∷ []) ∷ [])
        (contact 0 1 (at (pos 1002) (pos 0) (pos 0)) ∷ contact 1 2 (at (pos 1000) (pos 0) (pos 4))
        ∷ contact 2 2 (at (neg 1) (pos 1001) (pos 0)) ∷ contact 3 2 (at (neg 998) (pos 0) (pos 0))
        ∷ []) }
    // Of two features the client keeps the first; the server forgets its homing and its tool.
    ensures both_restarted { reported two_points 1
        (opened ++ quiet_to_the_end ∷ client_restart 1 ∷ server_restart ∷ connect ∷ accept 2
        ∷ quiet_to_the_end ∷ [])
        ≡ report State.Done 5
        (feature_on 1 Machine (codes "A") (at (pos 1002) (pos 2000) (pos 3000) ∷ [])
        ∷ feature_on 2 Machine (codes "B") (at (pos 3999) (pos 5001) (pos 6000) ∷ []) ∷ [])
        (contact 0 1 (at (pos 1002) (pos 2000) (pos 3000))
        ∷ contact 1 1 (at (pos 4000) (pos 5000) (pos 6004))
        ∷ contact 2 2 (at (pos 3999) (pos 5001) (pos 6000)) ∷ []) }
{}

/// Aborts, and what is restarted after them.
pub fn aborted_rows()
    // A tool change is running.
    ensures change_answered { said_behind (play circle 1 (at_its_turn 6 ++ abort ∷ []))
        (server_reads ∷ [])
        ≡ Reply.Ack (OnEvent 1) ∷ failed 7 9007 kind.ChangeTool ++ Reply.Done (OnEvent 1) ∷ [] }
    ensures change_aborted { reported circle 1 (at_its_turn 6
        ++ abort ∷ server_reads ∷ client_reads_all ∷ []) ≡ report State.Halted 3 [] [] }
    ensures change_resumed { reported circle 1 (at_its_turn 6
        ++ abort ∷ server_reads ∷ client_reads_all ∷ resume ∷ quiet_to_the_end ∷ [])
        ≡ report State.Done 9
        (feature_on 1 Machine (codes "C") (at (pos 1002) (pos 0) (pos 0)
        ∷ at (pos 0) (pos 1000) (pos 4) ∷ at (neg 1001) (pos 1) (pos 0) ∷ []) ∷ [])
        (contact 0 1 (at (pos 1002) (pos 0) (pos 0)) ∷ contact 1 1 (at (pos 0) (pos 1000) (pos 4))
        ∷ contact 2 1 (at (neg 1001) (pos 1) (pos 0)) ∷ []) }
    // A tool change is running, and two touches wait.
    ensures waiting_answered { said_behind (play circle 3 (change_while_two_wait ++ abort ∷ []))
        (server_reads ∷ [])
        ≡ Reply.Ack (OnEvent 1) ∷ failed 7 9007 kind.ChangeTool
        ++ (failed 8 9007 kind.PtMeas ++ (failed 9 9007 kind.PtMeas
        ++ Reply.Done (OnEvent 1) ∷ [])) }
    ensures waiting_aborted { reported circle 3 (change_while_two_wait
        ++ abort ∷ server_reads ∷ client_reads_all ∷ []) ≡ report State.Halted 3 [] [] }
    ensures waiting_without_tool { (play circle 3 (change_while_two_wait
        ++ abort ∷ server_reads ∷ [])).world.server.tool ≡ None }
    // The machine is homed: this is reported to the client, and Home has no line and no tag.
    ensures waiting_resumed { wrote_behind (play circle 3 (change_while_two_wait
        ++ abort ∷ server_reads ∷ client_reads_all ∷ resume ∷ [])) (quiet 2 ∷ [])
        ≡ line 10 command.ClearAllErrors ∷ line 11 command.IsHomed
        ∷ line 12 command.OnPtMeasReport
        ∷ line 13 (command.SetCoordSystem MachineCsy)
        ∷ line 14 (command.ChangeTool (codes "P1")) ∷ [] }
    // The last touch runs, in the part's frame: its feature is measured again, and the contact that was made for it before is not used.
    ensures frame_resumed { wrote_behind
        (play two_frames 1 (at_its_turn 11 ++ abort ∷ server_reads ∷ client_reads_all ∷ resume
        ∷ [])) (quiet_to_the_end ∷ [])
        ≡ line 13 command.ClearAllErrors ∷ line 14 command.IsHomed
        ∷ line 15 command.OnPtMeasReport
        ∷ line 16 (command.ChangeTool (codes "P1"))
        ∷ line 17 (command.SetCoordSystem MachineCsy)
        ∷ line 18 (command.PtMeas (at (pos 20000) (pos 0) (pos 0)) from_above)
        ∷ line 19 (command.SetCsyTransformation (at (neg 100000) (pos 0) (pos 0)))
        ∷ line 20 (command.SetCoordSystem PartCsy)
        ∷ line 21 (command.PtMeas (at (pos 30000) (pos 0) (pos 0)) from_above)
        ∷ line 22 command.EndSession ∷ [] }
    ensures frame_report { reported two_frames 1
        (at_its_turn 11 ++ abort ∷ server_reads ∷ client_reads_all ∷ resume ∷ quiet_to_the_end ∷ [])
        ≡ report State.Done 13
        (feature_on 1 Machine (codes "A") (at (pos 10002) (pos 0) (pos 0) ∷ [])
        ∷ feature_on 1 (Part part) (codes "B")
        (at (pos 19999) (pos 1) (pos 0) ∷ at (pos 30002) (pos 0) (pos 0) ∷ [])
        ∷ [])
        (contact 0 1 (at (pos 10002) (pos 0) (pos 0)) ∷ contact 1 1 (at (pos 20000) (pos 0) (pos 4))
        ∷ contact 2 1 (at (pos 19999) (pos 1) (pos 0))
        ∷ contact 3 1 (at (pos 30002) (pos 0) (pos 0)) ∷ []) }
    ensures not_aborted_twice { can Event.Abort (play circle 1 (at_its_turn 6 ++ abort ∷ [])).world
        ≡ false }
    ensures not_resumed_while_running { can Event.Resume (play circle 1 (at_its_turn 6)).world
        ≡ false }
    ensures not_resumed_without_a_session { can Event.Resume
        (play circle 1 (opened ++ abort ∷ server_reads ∷ client_reads_all ∷ [])).world ≡ false }
{}

/// Touches that meet no surface, and other failures.
pub fn failed_rows()
    ensures missed_answered { said_behind (play circle 1 (at_its_turn 8)) (machine Missed ∷ [])
        ≡ failed 9 9014 kind.PtMeas }
    ensures missed_halted { reported circle 1 (at_its_turn 8
        ++ machine Missed ∷ client_reads_all ∷ [])
        ≡ report State.Halted 5 [] (contact 0 1 (at (pos 1002) (pos 0) (pos 0)) ∷ []) }
    ensures missed { reported circle 1 (at_its_turn 8
        ++ machine Missed ∷ client_reads_all ∷ resume ∷ quiet_to_the_end ∷ [])
        ≡ report State.Done 11
        (feature_on 1 Machine (codes "C") (at (pos 1000) (pos 0) (pos 4)
        ∷ at (neg 1) (pos 1001) (pos 0) ∷ at (neg 998) (pos 0) (pos 0) ∷ []) ∷ [])
        (contact 0 1 (at (pos 1002) (pos 0) (pos 0)) ∷ contact 1 1 (at (pos 1000) (pos 0) (pos 4))
        ∷ contact 2 1 (at (neg 1) (pos 1001) (pos 0)) ∷ contact 3 1 (at (neg 998) (pos 0) (pos 0))
        ∷ []) }
    // The second touch runs, the third waits, and the end of the session is on its way.
    ensures waiting_answered { said_behind (play circle 4 touch_while_one_waits)
        (machine Missed ∷ [])
        ≡ failed 9 9014 kind.PtMeas ++ failed 10 9007 kind.PtMeas }
    ensures later_answered { said_behind (play circle 4 (touch_while_one_waits
        ++ machine Missed ∷ [])) (server_reads ∷ [])
        ≡ Reply.Ack (Std 11) ∷ failed 11 9008 kind.EndSession }
    ensures waiting_resumed { reported circle 4
        (touch_while_one_waits ++ machine Missed ∷ server_reads ∷ client_reads_all ∷ resume
        ∷ quiet_to_the_end ∷ [])
        ≡ report State.Done 11
        (feature_on 1 Machine (codes "C") (at (pos 1000) (pos 0) (pos 4)
        ∷ at (neg 1) (pos 1001) (pos 0) ∷ at (neg 998) (pos 0) (pos 0) ∷ []) ∷ [])
        (contact 0 1 (at (pos 1002) (pos 0) (pos 0)) ∷ contact 1 1 (at (pos 1000) (pos 0) (pos 4))
        ∷ contact 2 1 (at (neg 1) (pos 1001) (pos 0)) ∷ contact 3 1 (at (neg 998) (pos 0) (pos 0))
        ∷ []) }
    // No command may end as another does, and no touch outside the volume.
    ensures nothing_runs { can (Event.Machine Done) (play circle 1 (opened ++ quiet 7 ∷ [])).world
        ≡ false }
    ensures touch_is_not_done { can (Event.Machine Done) (play circle 1 (at_its_turn 7)).world
        ≡ false }
    ensures touch_in_the_volume { can (Event.Machine
        (Touched (at (pos 1000000000) (pos 0) (pos 0)))) (play circle 1 (at_its_turn 7)).world
        ≡ true }
    ensures touch_outside_the_volume { can (Event.Machine
        (Touched (at (pos 1000000001) (pos 0) (pos 0)))) (play circle 1 (at_its_turn 7)).world
        ≡ false }
{}

/// A server on its own.
pub fn server_rows()
    ensures not_homed { called
        (Call.Reads (Ok (line 1 command.StartSession)) ∷ Call.Turns
        ∷ Call.Reads (Ok (line 2 (command.GoTo (at (pos 0) (pos 0) (pos 0))))) ∷ Call.Turns ∷ [])
        (server_accepted 2 (server_restarted (play two_points 1 (opened
        ++ quiet_to_the_end ∷ [])).world.server))
        ≡ Reply.Ack (Std 1) ∷ Reply.Done (Std 1) ∷ Reply.Ack (Std 2) ∷ failed 2 9010 kind.GoTo }
    ensures unknown_tool { called (Call.Reads (Ok (line 8 (command.ChangeTool (codes "P9"))))
        ∷ Call.Turns ∷ [])
        (play circle 1 (opened ++ quiet 7 ∷ [])).world.server
        ≡ Reply.Ack (Std 8) ∷ failed 8 9012 kind.ChangeTool }
    ensures queue_full { called (read_under command.Home 1 65) (server_accepted 1 (new_server []))
        ≡ acks_under 1 65 ++ (failed 65 9009 kind.Home ++ failed_under kind.Home 1 64) }
    // The machine moves to a target in the part's frame only once that frame is selected.
    ensures offset_alone_changes_nothing { called
        (Call.Reads (Ok (line 8 (command.SetCsyTransformation (at (neg 100000) (pos 0) (pos 0)))))
        ∷ Call.Turns
        ∷ Call.Reads (Ok (line 9 (command.PtMeas (at (pos 30000) (pos 0) (pos 0)) None)))
        ∷ Call.Turns
        ∷ Call.Ends (Touched (at (pos 30002) (pos 0) (pos 0))) ∷ [])
        (play circle 1 (opened ++ quiet 7 ∷ [])).world.server
        ≡ Reply.Ack (Std 8) ∷ Reply.Done (Std 8)
        ∷ Reply.Ack (Std 9) ∷ Reply.Given (Std 9) (datum.Point (at (pos 30002) (pos 0) (pos 0)))
        ∷ Reply.Done (Std 9) ∷ [] }
    ensures selected_frame { called
        (Call.Reads (Ok (line 8 (command.SetCsyTransformation (at (neg 100000) (pos 0) (pos 0)))))
        ∷ Call.Turns
        ∷ Call.Reads (Ok (line 9 (command.SetCoordSystem PartCsy))) ∷ Call.Turns
        ∷ Call.Reads (Ok (line 10 (command.PtMeas (at (pos 30000) (pos 0) (pos 0)) None)))
        ∷ Call.Turns
        ∷ Call.Ends (Touched (at (pos 130002) (pos 0) (pos 0))) ∷ [])
        (play circle 1 (opened ++ quiet 7 ∷ [])).world.server
        ≡ Reply.Ack (Std 8) ∷ Reply.Done (Std 8) ∷ Reply.Ack (Std 9) ∷ Reply.Done (Std 9)
        ∷ Reply.Ack (Std 10) ∷ Reply.Given (Std 10) (datum.Point (at (pos 30002) (pos 0) (pos 0)))
        ∷ Reply.Done (Std 10) ∷ [] }
    ensures restarted_without_tool { (server_restarted
        (play one_point 1 (opened ++ quiet_to_the_end ∷ [])).world.server).tool ≡ None }
    // In the error state: a faulty line on a standard tag, one on an event tag, and a move after the command that ends it.
    ensures error_state { called
        (Call.Reads (Err (BadArguments (Std 9) kind.GoTo))
        ∷ Call.Reads (Err (BadArguments (OnEvent 1) kind.GoTo))
        ∷ Call.Reads (Ok (line 10 command.ClearAllErrors)) ∷ Call.Turns
        ∷ Call.Reads (Ok (line 11 command.Home)) ∷ Call.Turns ∷ Call.Ends Done ∷ [])
        (play circle 1 (at_its_turn 7 ++ machine Fault ∷ [])).world.server
        ≡ Reply.Ack (Std 9) ∷ failed 9 9008 kind.GoTo
        ++ Reply.Ack (OnEvent 1) ∷ Reply.Error (OnEvent 1) 9004 (Some kind.GoTo)
        ∷ Reply.Done (OnEvent 1) ∷ Reply.Ack (Std 10) ∷ Reply.Done (Std 10)
        ∷ Reply.Ack (Std 11) ∷ Reply.Done (Std 11) ∷ [] }
    ensures machine_fault { said_behind (play circle 1 (at_its_turn 7)) (machine Fault ∷ [])
        ≡ failed 8 9015 kind.PtMeas }
    ensures tag_in_use { called (read_under command.Home 1 1 ++ read_under command.Home 1 1)
        (server_accepted 1 (new_server []))
        ≡ Reply.Ack (Std 1) ∷ Reply.Error (OnEvent 0) 9002 None ∷ [] }
    ensures no_tag { called (Call.Reads (Err NoTag) ∷ []) (server_accepted 1 (new_server []))
        ≡ Reply.Error (OnEvent 0) 9001 None ∷ [] }
{}

/// A client on its own.
pub fn client_rows()
    ensures unknown_tag { (client_read (play circle 1 (opened ++ client_sends ∷ [])).world.client
        (Std 8) Mark.Done).cause ≡ Some Cause.UnknownTag }
    ensures no_data { (client_read (client_read
        (play one_point 1 (opened ++ quiet 8 ∷ client_sends ∷ [])).world.client (Std 9) Mark.Ack)
        (Std 9) Mark.Done).cause
        ≡ Some Cause.NoData }
    ensures second_data { (client_read
        (client_read (client_read (play one_point 1 (opened
        ++ quiet 8 ∷ client_sends ∷ [])).world.client (Std 9) Mark.Ack) (Std 9)
        (Mark.Given (datum.Point (at (pos 0) (pos 0) (pos 0)))))
        (Std 9) (Mark.Given (datum.Point (at (pos 0) (pos 0) (pos 0))))).cause
        ≡ Some Cause.SecondData }
    ensures out_of_order { (client_read (play circle 1 (opened ++ client_sends ∷ [])).world.client
        (Std 1) Mark.Done).cause ≡ Some Cause.OutOfOrder }
    ensures faulted { (client_read (play circle 1 (opened ++ client_sends ∷ [])).world.client
        (Std 8) Mark.Done).state ≡ State.Faulted }
    // One command at a time, three at a time, none next to ClearAllErrors.
    ensures one_at_a_time { can Event.ClientSends
        (play one_point 1 (opened ++ client_sends ∷ [])).world ≡ false }
    ensures clearing_waits { can Event.ClientSends
        (play circle 3 (opened ++ client_sends ∷ [])).world ≡ false }
    ensures two_of_three { can Event.ClientSends
        (play circle 3 (opened ++ quiet 2 ∷ client_sends ∷ client_sends ∷ [])).world ≡ true }
    ensures three_of_three { can Event.ClientSends
        (play circle 3 (opened ++ quiet 2 ∷ client_sends ∷ client_sends ∷ client_sends ∷ [])).world
        ≡ false }
    ensures nothing_due_behind_a_failure { can Event.ClientSends
        (play circle 1 (at_its_turn 8 ++ machine Missed ∷ client_reads_all ∷ [])).world ≡ false }
    // After the last number the first follows, and the next one if that is still held.
    ensures tags_come_round { next_number Std [] 9999 ≡ Some 1 }
    ensures held_tag_is_passed_over { next_number Std
        (held_at 1 kind.StartSession stage.Failed ∷ []) 9999 ≡ Some 2 }
{}
