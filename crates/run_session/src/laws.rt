// What follows from the definitions. Each function has laws for its contract and does nothing.

ghost use Rattle.std.specs.Prelude.{◌≡◌, ◌≤◌, ◌++◌, ℕ, List, Option, Some, length, true, false};
ghost use Rattle.contact_ledger.specs.ContactTexts.{contacts_text};
ghost use Rattle.contact_ledger.specs.declared.acts.Act.{Act};
ghost use Rattle.dmis_program.specs.Meaning.{Meaning};
ghost use Rattle.dmis_program.specs.Programs.{IsProgram};
ghost use Rattle.effects.specs.Effects.{Done, Reply};
ghost use Rattle.record_text.specs.Heads.{IsPartGiven, AreAsked};
ghost use Rattle.record_text.specs.Told.{numbered};
ghost use Rattle.record_text.specs.declared.opening.Beginning.{Beginning};
ghost use Rattle.record_text.specs.Recordings.{Pair, AreWritten};
ghost use Rattle.record_text.specs.Runs.{IsRecordOf, IsKilledRun};
ghost use Rattle.run_session.specs.Ends.{After, is_closing};
ghost use Rattle.run_session.specs.Records.{State, Outside, IsKept, HasReported, HasFollowed, HasTold, is_filed, pace};
ghost use Rattle.run_session.specs.Records.{GoesOn, is_joined, over, IsDue, IsListed, IsNext, IsOneVersion, Made, Stops, did, is_at_end, is_list, writes};
ghost use Rattle.run_session.specs.declared.stages.Stage.TheVariants.{Exiting, Listing, MakingFeatures};
ghost use Rattle.run_session.specs.Killed.{IsBegun, IsLeft};

/// A run that begins as `begin_record` gives it (`IsBegun`):
///
/// - `begins`: a new session of it, whose record is on the device, `IsKept`; and so it stays, whatever is answered (`Session::take`);
/// - `told`: its record has all that its client has counted on its connection, which is nothing; so a new session of it `HasFollowed`, and so it
/// stays, whatever is answered;
/// - `whole`: then the file, before whatever is sent, received, shown as complete or printed, unless it could not be kept, holds a record of the
/// part and the program, in which the completed features are exactly those that the client holds, and the acts exactly those that were found
/// and then those that it has counted on its connection;
/// - `contacts`: what the file of contacts is to have, then and when it is written at the end, are the acts that were reported before, and those;
/// - `killed`: while it is so, its record's file is what a killed run leaves, also if the program is killed and any of what is not on the device
/// is lost: so `killed_runs_lose_nothing` speaks of it.
///
/// What is assumed: that each act that was counted can be written.
pub fn runs_keep_their_records()
    ensures begins { (before : List (ℕ × Act)) (s : State) → s.book ≡ record {
      lost = false;
      filed = length s.pair.recording.text;
      settled = s.pair.recording.telling.counted.features;
      pauses = s.book.pauses;
      keeps = s.book.keeps;
      short = s.book.short;
      spent = s.book.spent;
      key = s.book.key;
      noted = s.book.noted;
    }
        → HasReported before s.pair s.reports → IsKept s.pair before s (record {
          file = s.pair.recording.text;
          safe = s.pair.recording.text;
          marks = s.reports.marks;
        }) }
    ensures whole { (program : Meaning) (part : Option (List ℕ)) (bytes : List ℕ)
        (b : Beginning) (window : ℕ) (first : Pair) (before : List (ℕ × Act)) (s : State)
        (o : Outside) → IsProgram program → IsPartGiven part → AreAsked program.features
        → IsBegun program part bytes b window first → IsKept first before s o
        → AreWritten (numbered b.connection s.pair.end.client.table.tally.counted)
        → HasFollowed s → s.book.short ≡ false → is_filed (pace s.stage) ≡ true
        → s.book.keeps ≡ true → s.book.lost ≡ false
        → IsRecordOf part program.features s.pair.end.client.table.tally.features
        (b.told ++ numbered b.connection s.pair.end.client.table.tally.counted) o.file }
    ensures told { (program : Meaning) (part : Option (List ℕ)) (bytes : List ℕ)
        (b : Beginning) (window : ℕ) (s : State)
        → IsBegun program part bytes b window s.pair → s.reports.told ≡ 0 → HasTold s }
    ensures contacts { (before : List (ℕ × Act)) (s : State)
        → HasReported before s.pair s.reports → HasFollowed s → s.book.short ≡ false
        → is_filed (pace s.stage) ≡ true → s.reports.named ≡ true → s.reports.text ≡ contacts_text
        (before ++ numbered s.reports.number s.pair.end.client.table.tally.counted) }
    ensures killed { (program : Meaning) (part : Option (List ℕ)) (bytes : List ℕ)
        (b : Beginning) (window : ℕ) (first : Pair) (before : List (ℕ × Act)) (s : State)
        (o : Outside) (left : List ℕ)
        → IsBegun program part bytes b window first → IsKept first before s o
        → AreWritten (numbered b.connection s.pair.end.client.table.tally.counted)
        → IsLeft o left → IsKilledRun program part bytes left }
{}

/// The features file while it grows, over the answers of a run:
///
/// - `next`: after each answer (`Session::take`) the client has the features that it had, and perhaps others (`IsNext`);
/// - `made`: once it is made it has the text of the features of the client;
/// - `grown`: whenever it has grown it has the text of the features of the client then;
/// - `stays`: while it does not grow, its text stays that of the client's first features, as many as are known to be in it.
///
/// What is assumed: that no two versions of a features file have one first line.
pub fn features_files_grow()
    ensures next { (first : Pair) (before : List (ℕ × Act)) (s t : State) (o : Outside)
        (reply : Reply) → IsKept first before s o → GoesOn s reply t → Stops s reply t
        → IsNext s reply t }
    ensures made { (s t : State) (reply : Reply) → s.stage ≡ MakingFeatures → IsDue s
        → did (Some Made) reply ≡ true → IsNext s reply t → IsListed t s.list }
    ensures grown { (s t : State) (text : List ℕ) → IsOneVersion → s.stage ≡ Listing → IsDue s
        → IsListed s text → IsNext s Done t → IsListed t (text ++ s.list) }
    ensures stays { (s t : State) (reply : Reply) (text : List ℕ)
        → is_list (writes s.stage) ≡ false → IsListed s text → IsNext s reply t
        → IsListed t text }
{}

/// A run asks for at most 50 effects once it is over and what was counted is kept, and at its end for at most 22, whatever is answered
/// (`Session::take`): after that many answers only its exit is left. One that `HasFollowed` keeps what was counted as soon as it is over
/// (`closes`).
pub fn runs_exit()
    ensures closes { (s : State) → HasFollowed s → s.book.short ≡ false
        → is_joined (pace s.stage) ≡ true → over s ≡ true → is_closing s ≡ true }
    ensures over { (n : ℕ) (s t : State) → is_closing s ≡ true → After n s t → 50 ≤ n
        → t.stage ≡ Exiting }
    ensures ends { (n : ℕ) (s t : State) → is_at_end s.stage ≡ true → After n s t → 22 ≤ n
        → t.stage ≡ Exiting }
{}
