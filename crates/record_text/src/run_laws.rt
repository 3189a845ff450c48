// What follows from the definitions. Each function has laws for its contract and does nothing.

ghost use Rattle.std.specs.Prelude.{◌≡◌, ℕ, List, ◌++◌, true, ◌⊎◌, ◌≤◌, Option};
ghost use Rattle.contact_ledger.specs.declared.acts.Act.{Act};
ghost use Rattle.contact_ledger.specs.declared.features.Feature.{Feature as OneFeature};
ghost use Rattle.dmis_program.specs.Meaning.{Meaning};
ghost use Rattle.dmis_program.specs.Programs.{IsProgram};
ghost use Rattle.protocol_model.specs.Claims.{Sound, acts_on, Told};
ghost use Rattle.protocol_model.specs.Ends.{new_client_end};
ghost use Rattle.client_core.specs.Calls.{Call, client_behind};
ghost use Rattle.record_text.specs.Told.{told_behind, EndsUnfinished};
ghost use Rattle.protocol_model.specs.World.{World, start, run_of};
ghost use Rattle.protocol_model.specs.declared.events.Event.{Event};
ghost use Rattle.client_core.specs.Clients.{window_most};
ghost use Rattle.record_text.specs.Heads.{IsPartGiven, AreAsked};
ghost use Rattle.record_text.specs.Reading.{IsRecord, IsUnbegun};
ghost use Rattle.record_text.specs.Records.{Recorded};
ghost use Rattle.record_text.specs.Beginnings.{BeginsWith, IsSame};
ghost use Rattle.record_text.specs.declared.opening.Beginning.{Beginning};
ghost use Rattle.record_text.specs.Recordings.{Moment, behind_moments, calls_in, told_now, AreFit, AreWritten};
ghost use Rattle.record_text.specs.Runs.{run_begun, IsRecordOf, AreKilledRuns, HasAllOf};
ghost use Rattle.record_text.specs.Worlds.{told_in, AreCalls};

/// After every list of calls of a client, from any program and any features that are sound for earlier acts, whatever bytes are fed:
///
/// - `sound`: the features that the client holds are sound for the earlier acts followed by the acts reported to it. So each feature has
/// the points of its own unbroken run of reported contacts on one connection, each contact with the target, direction, tool and frame of
/// its touch, and the runs ascend;
/// - `unfinished`: those acts end with the contacts of the unfinished feature: the points that the client holds for it are theirs, they are
/// one unbroken run on the client's connection, and serve the first touches of the next feature that the program wants;
/// - `counted`: what the client has counted on its connection are the acts reported to it there.
///
/// The server is not ours: an act is reported where the client counts a command, and a contact's point is that of the data line.
pub fn held_features_are_true_of_what_was_told()
    ensures sound { (program : Meaning) (kept : List OneFeature) (window : ℕ) (calls : List Call)
        (earlier : List (ℕ × Act)) → IsProgram program → Sound program.features kept earlier
        → Sound program.features (client_behind calls program kept window).table.tally.features
        (earlier ++ told_behind calls (new_client_end program kept window)) }
    ensures unfinished { (program : Meaning) (kept : List OneFeature) (window : ℕ)
        (calls : List Call) (earlier : List (ℕ × Act)) → IsProgram program
        → Sound program.features kept earlier
        → EndsUnfinished program.features
        (client_behind calls program kept window).table.tally.features
        (client_behind calls program kept window).table.tally.points
        (client_behind calls program kept window).last
        (earlier ++ told_behind calls (new_client_end program kept window)) }
    ensures counted { (program : Meaning) (kept : List OneFeature) (window : ℕ)
        (calls : List Call) → (client_behind calls program kept window).on ≡ true
        → acts_on (client_behind calls program kept window).last
        (told_behind calls (new_client_end program kept window))
        ≡ (client_behind calls program kept window).table.tally.counted }
{}

/// A run continues from what `begin_record` gives, whatever the file held, and its record follows its client through any calls and any
/// bytes. Whenever the lines that are due are added, the text is a record of the part and the program, in which the completed features are
/// exactly those that the client holds, and the acts exactly those that were reported before and in this run.
///
/// What is assumed, and what gives it to a run: a part is one (`is_part`); what was asked can be written (`write_head` has succeeded); each
/// connection has at least the number that `begin_record` gives, and no restart gives features up (a run makes one connection, with that
/// number, and restarts no client); an error has a line, and comes after a connection was made (it is kept from its tag on); each reported
/// act can be written (`Telling::tell` has succeeded).
pub fn records_say_what_was_told()
    ensures { (program : Meaning) (part : Option (List ℕ)) (bytes : List ℕ) (begun : Beginning)
        (window : ℕ) (moments : List Moment) → IsProgram program → IsPartGiven part
        → AreAsked program.features → BeginsWith part program.features bytes begun
        → AreFit begun.connection moments
        (new_client_end program begun.features window)
        → AreWritten (told_behind (calls_in moments)
        (new_client_end program begun.features window))
        → IsRecordOf part program.features
        (client_behind (calls_in moments) program begun.features window).table.tally.features
        (begun.told ++ told_behind (calls_in moments)
        (new_client_end program begun.features window))
        (told_now (behind_moments moments (run_begun program window begun)).end
        (behind_moments moments (run_begun program window begun)).recording).text }
{}

/// Any number of runs of a program over one file, each killed at any moment and begun again, where the file has a record:
///
/// - `kept`: it then has a record that says first all that the first one said: no feature whose line was whole is lost, nor any act. Its
/// features are sound for its acts;
/// - `begun`: where the file had no record yet, it has none yet, or one of the part and the program whose features are sound for its acts.
pub fn killed_runs_lose_nothing()
    ensures kept { (program : Meaning) (part : Option (List ℕ)) (old new : List ℕ)
        (r : Recorded) → IsProgram program → IsPartGiven part → AreAsked program.features
        → AreKilledRuns program part old new → IsRecord old r
        → IsSame part program.features r → HasAllOf part program.features r new }
    ensures begun { (program : Meaning) (part : Option (List ℕ)) (old new : List ℕ)
        → IsProgram program → IsPartGiven part → AreAsked program.features
        → AreKilledRuns program part old new → IsUnbegun old
        → IsUnbegun new ⊎ ((r : Recorded) × IsRecord new r × IsSame part program.features r
        × Sound program.features r.features r.told) }
{}

/// In a world, after any events:
///
/// - `done`: on each connection that there ever was, the acts that were reported to the client are a prefix of those that the server did
/// there;
/// - `calls`: those acts are what calls of a client report, and so what its record says.
pub fn reported_acts_were_done()
    ensures done { (program : Meaning) (rack : List (List ℕ)) (window : ℕ)
        (events : List Event) (n : ℕ) → IsProgram program → window ≤ window_most
        → Told (acts_on n (told_in events (start program rack window)))
        (run_of events (start program rack window)).server.server.ledger n }
    ensures calls { (world : World) (events : List Event) → AreCalls world.client
        (run_of events world).client (told_in events world) }
{}
