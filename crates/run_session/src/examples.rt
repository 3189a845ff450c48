// Examples: what is asked and what comes of it. Each function has laws for its contract and does nothing.

ghost use Rattle.std.specs.Prelude.{◌≡◌, ℕ, [], ◌∷◌, List, ◌++◌, true, false, length, map, None, Some, codes, decimal};
ghost use Rattle.record_text.specs.declared.notes.Note.TheVariants.{By, Operator, Opened, Dated, Left, Refused, Sealed};
ghost use Rattle.record_text.specs.Growths.{Growth, with_notes};
ghost use Rattle.link_world.specs.declared.connections.pumps.PumpFault.TheVariants.{Ended, Memory, ReadFailed, WriteFailed};
ghost use Rattle.run_session.specs.Evidence.{course_of, due, ended, given_notes, has_due, noted_open, passed};
ghost use Rattle.client_core.specs.Calls.{Abort, Send as SendsDue};
ghost use Rattle.contact_ledger.specs.declared.acts.Act.{Act};
ghost use Rattle.contact_ledger.specs.declared.features.Feature.{Feature};
ghost use Rattle.contact_ledger.specs.FeatureTexts.{feature_lines, header};
ghost use Rattle.contact_ledger.specs.Lines.{text_of};
ghost use Rattle.protocol_model.specs.Ends.{ClientEnd, end_aborted};
ghost use Rattle.contact_ledger.specs.ContactTexts.{contacts_text};
ghost use Rattle.contact_ledger.specs.declared.acts.Act.TheVariants.{Homed, HomedIs};
ghost use Rattle.record_text.specs.Recordings.{Pair};
ghost use Rattle.effects.specs.Effects.{Append, Keep, Send, Byte, Receive, Remove, Replace, Print, Exit, Reply, Done, Bytes, Short, Found, Missing, End, Nothing};
ghost use Rattle.effects.specs.declared.vocabulary.Peer.TheVariants.{Server};
ghost use Rattle.protocol_model.specs.declared.states.State.TheVariants.{Running, Failing, Aborting, Halted, Done as Completed};
ghost use Rattle.effects.specs.declared.vocabulary.Growth.TheVariants.{Record, Features, Contacts};
ghost use Rattle.run_session.specs.Records.{State, Outside, Marks, AsksAt, IsDue, IsDueBy, Unforced, HasTold, HasFollowed, AreFeaturesLines, appended, kept, filed_by, lacking, is_due, confirms_pause, over, Reports, HasReported, reported_text, marked_at, is_stop, stopped, IsFree, HasLine, IsLater, Ran, nothing, Stops, Turns, closed, seal_if, with_due, with_said, Going, HasAll, is_unbegun, none_written, pace, said_at, status_at};
ghost use Rattle.dme_line.specs.declared.commands.Command.TheVariants.{AbortE as Aborts};
ghost use Rattle.dme_line.specs.declared.commands.Kind.TheVariants.{AbortE, GoTo, PtMeas};
ghost use Rattle.dme_line.specs.declared.tags.Tag.TheVariants.{Event, Std};
ghost use Rattle.dmis_program.specs.declared.features.Touch.{Touch};
ghost use Rattle.dmis_program.specs.declared.features.Wanted.{Wanted};
ghost use Rattle.run_session.specs.Ends.{Nears, steps_left};
ghost use Rattle.run_session.specs.ErrorRows.{row, two};
ghost use Rattle.run_session.specs.Errors.{Hears, Records, Talk, error_kept, error_line, new_talk, touch_text, with_about, with_written};
ghost use Rattle.run_session.specs.Statuses.{break_by, of_end, of_files, of_unbegun};
ghost use Rattle.run_session.specs.Progress.{cell, clock, full_cells, left, pace_line, paced};
ghost use Rattle.run_session.specs.declared.progress.Pace.{Pace};
ghost use Rattle.run_session.specs.declared.runs.Kept.TheVariants.{Features as FeaturesFile, Record as RecordFile, Contacts as ContactsFile};
ghost use Rattle.run_session.specs.declared.runs.Output.{Output};
ghost use Rattle.run_session.specs.declared.runs.Said.TheVariants.{Unwritten, Unprinted, Ended as Broken, Unbegun};
ghost use Rattle.session_telling.specs.Dialogues.{Reported};
ghost use Rattle.run_session.specs.declared.stages.Stage.TheVariants.{Checking, Peeking, MakingFeatures, BeginningFeatures, Recording, Settling, Reporting, Standing, ReplacingFeatures, ReplacingRecord, ReplacingContacts, Listing, Showing, Sending, Receiving, Awaiting, Returning, Noting, Tracing, Printing, Closing, Draining, Leaving, Ending, Telling, Exiting, Timing};

/// What was added is in the file, and on the device only if it was forced there; of what was not written the file has the first bytes, and
/// what was safe stays so.
pub fn file_rows()
    ensures added { (n : ℕ) (m : Marks)
        → appended n (7 ∷ []) Done (record { file = 5 ∷ []; safe = []; marks = m })
        ≡ record { file = 5 ∷ 7 ∷ []; safe = []; marks = m } }
    ensures forced { (n : ℕ) (m : Marks)
        → kept n (7 ∷ []) Done (record { file = 5 ∷ []; safe = []; marks = m })
        ≡ record { file = 5 ∷ 7 ∷ []; safe = 5 ∷ 7 ∷ []; marks = m } }
    ensures torn { (m : Marks)
        → kept 1 (7 ∷ 8 ∷ []) Short (record { file = 5 ∷ []; safe = []; marks = m })
        ≡ record { file = 5 ∷ 7 ∷ []; safe = []; marks = m } }
{}

/// What completes a feature is not added without being forced; each file is written by its own stages only, and gets what is due; nothing is
/// added to a file that could not be kept; an exit with status 0 is that of a client that is Done, with its report printed; and no other stage
/// sends, asks the operator, replaces, removes, prints or ends.
pub fn ask_rows()
    ensures unforced { (s : State) → s.pair.recording.telling.counted.features ≡ 2
        → s.book.settled ≡ 1 → IsDueBy (Some Unforced) s → ⊥ }
    ensures other_effect { (s : State) → AsksAt Settling s (Append Record (lacking s)) → ⊥ }
    ensures other_stage { (s : State) → AsksAt Sending s (Keep Record (lacking s)) → ⊥ }
    ensures other_file { (s : State) → s.list ≡ [] → AsksAt Listing s (Keep Features (7 ∷ [])) → ⊥ }
    ensures other_text { (s : State) → s.reports.text ≡ []
        → AsksAt ReplacingContacts s (Replace [] [] (7 ∷ [])) → ⊥ }
    ensures other_name { (s : State) → s.files.contacts ≡ None
        → AsksAt ReplacingContacts s (Replace (7 ∷ []) [] s.reports.text) → ⊥ }
    ensures other_acts { (s : State) → s.reports.text ≡ 7 ∷ 8 ∷ [] → s.reports.marks.filed ≡ 1
        → AsksAt Reporting s (Append Contacts (7 ∷ 8 ∷ [])) → ⊥ }
    ensures lost { (s : State) → s.book.lost ≡ true → lacking s ≡ [] }
    ensures exit { (s : State) → s.pair.end.client.state ≡ Running → AsksAt Exiting s (Exit 0) → ⊥ }
    ensures unreported { (s : State) → s.reports.marks.printed ≡ None → AsksAt Exiting s (Exit 0) → ⊥ }
    ensures early { (s : State) → AsksAt Ending s (Exit 0) → ⊥ }
    ensures unsent { (s : State) → AsksAt Showing s (Send Server (7 ∷ [])) → ⊥ }
    ensures unprinted { (s : State) → AsksAt Closing s (Print (7 ∷ [])) → ⊥ }
    ensures untyped { (s : State) → AsksAt Receiving s Byte → ⊥ }
    ensures unkept { (s : State) → s.stage ≡ Reporting → s.reports.marks.lost ≡ true → IsDue s → ⊥ }
    ensures removed { (s : State) → AsksAt Leaving s (Remove []) → ⊥ }
    ensures replaced { (s : State) → AsksAt Listing s (Replace [] [] []) → ⊥ }
{}

/// A file counts as written whole once that was answered as done, at its own stage; a record also if it stands; and nothing else marks one. Each
/// file that is named is marked in a session that ends with status 0; and none is left out before what is said last.
pub fn whole_rows()
    ensures replaced { (s : State) (m : Marks) → s.stage ≡ ReplacingFeatures
        → (marked_at s Done m).written ≡ record (m.written) { features = Some true } }
    ensures other { (s : State) (m : Marks) → s.stage ≡ ReplacingRecord
        → (marked_at s Done m).written ≡ record (m.written) { kept = Some true } }
    ensures failed { (s : State) (m : Marks) → s.stage ≡ ReplacingContacts
        → (marked_at s Short m).written ≡ record (m.written) { contacts = Some false } }
    ensures stands { (s : State) (m : Marks) → s.stage ≡ Standing
        → (marked_at s Done m).written ≡ record (m.written) { kept = Some true } }
    ensures differs { (s : State) (m : Marks) → s.stage ≡ Standing → marked_at s Missing m ≡ m }
    ensures elsewhere { (s : State) (m : Marks) → s.stage ≡ Settling → marked_at s Done m ≡ m }
    ensures unlisted { (s : State) (file : Output) → s.files.features ≡ Some file
        → s.reports.marks.written.features ≡ None → AsksAt Exiting s (Exit 0) → ⊥ }
    ensures unrecorded { (s : State) → s.book.keeps ≡ true → s.reports.marks.written.kept ≡ None
        → AsksAt Exiting s (Exit 0) → ⊥ }
    ensures unreported { (s : State) → s.reports.named ≡ true
        → s.reports.marks.written.contacts ≡ None → AsksAt Exiting s (Exit 0) → ⊥ }
    ensures unwritten { (s : State) → s.reports.marks.written.kept ≡ Some false
        → AsksAt Exiting s (Exit 0) → ⊥ }
    ensures early { (s : State) (file : Output) → s.stage ≡ Printing → s.files.features ≡ Some file
        → s.reports.marks.written.features ≡ None → IsDue s → ⊥ }
    ensures left_out { (s : State) → s.stage ≡ Ending → s.book.keeps ≡ true
        → s.reports.marks.written.kept ≡ None → IsDue s → ⊥ }
    ensures skipped { (s : State) → s.stage ≡ Ending → s.begun ≡ true → s.reports.named ≡ true
        → s.reports.marks.written.contacts ≡ None → IsDue s → ⊥ }
{}

/// The exit status: that of its connection, or of what has kept a run from it; 1 if a file could not be written, unless a message was shown
/// before; 1 if the report could not be printed, whatever else; 4 if the last message is that memory has run out; and 3 for what is not done
/// though nothing has failed.
pub fn status_rows()
    ensures lapsed { of_end (course_of (Some Memory) true false) Running ≡ 1 }
    ensures memory { of_end (course_of (Some Memory) false false) Completed ≡ 4 }
    ensures broken { of_end (course_of (Some Ended) false false) Completed ≡ 1 }
    ensures stopped { of_end (course_of None false true) Halted ≡ 3 }
    ensures complete { of_end (course_of None false false) Completed ≡ 0 }
    ensures found { of_unbegun true ≡ 3 }
    ensures unreached { of_unbegun false ≡ 1 }
    ensures features { of_files (record none_written { features = Some false }) 0 ≡ 1 }
    ensures record { of_files (record none_written { kept = Some false }) 3 ≡ 1 }
    ensures contacts { of_files (record none_written { contacts = Some false }) 0 ≡ 1 }
    ensures said { of_files (record none_written { contacts = Some false }) 4 ≡ 4 }
    ensures written { of_files (record none_written { kept = Some true }) 3 ≡ 3 }
    ensures last { (s : State) → s.book.short ≡ true → status_at s ≡ 4 }
    ensures unprinted { (s : State) → s.book.short ≡ false → s.begun ≡ true
        → s.reports.marks.printed ≡ Some false → s.course ≡ course_of (Some Memory) false false
        → status_at s ≡ 1 }
    ensures unasked { (s : State) → s.book.short ≡ false → s.begun ≡ true
        → s.reports.marks.printed ≡ None → s.reports.marks.written ≡ none_written
        → s.course ≡ course_of (Some Memory) false false → status_at s ≡ 4 }
    ensures early { (s : State) → s.book.short ≡ false → s.begun ≡ false → s.unbegun ≡ true
        → s.reports.marks.printed ≡ None → s.reports.marks.written ≡ none_written → status_at s ≡ 3 }
    ensures unfinished { (s : State) → s.book.short ≡ false → s.begun ≡ true
        → s.reports.marks.printed ≡ Some true → s.reports.marks.written ≡ none_written
        → s.course ≡ course_of None false false → s.pair.end.client.state ≡ Running
        → AsksAt Exiting s (Exit 3) }
    ensures failure { (s : State) → s.book.short ≡ true → AsksAt Exiting s (Exit 3) → ⊥ }
    ensures done { (s : State) → s.book.short ≡ false → s.begun ≡ true
        → s.course ≡ course_of None false false → s.pair.end.client.state ≡ Completed
        → s.reports.marks.printed ≡ Some true → s.reports.marks.written
        ≡ record { features = Some true; kept = Some true; contacts = Some true }
        → AsksAt Exiting s (Exit 0) }
    ensures unmarked { (s : State) (m : Marks) → s.stage ≡ Printing
        → marked_at s Short m ≡ record m { printed = Some false } }
    ensures message { (s : State) → s.stage ≡ Telling → s.book.short ≡ false → IsDue s → ⊥ }
    ensures closed { break_by Receiving End ≡ Some Ended }
    ensures unread { break_by Receiving Missing ≡ Some ReadFailed }
    ensures quiet { break_by Receiving Nothing ≡ None }
    ensures unsent { break_by Sending Nothing ≡ Some WriteFailed }
    ensures sent { break_by Sending Done ≡ None }
    ensures elsewhere { break_by Draining End ≡ None }
    ensures peeked { is_unbegun Peeking Found ≡ true }
    ensures unfound { is_unbegun Peeking Missing ≡ false }
    ensures later { is_unbegun Checking Found ≡ false }
{}

/// What is named last as having failed: files before how the connection ended, or before a report that could not be printed, which leaves that
/// and the features file out; of files alone the first comes last; and a stop file that was there comes first.
pub fn said_rows()
    ensures unprinted { (s : State) → s.reports.marks.printed ≡ Some false
        → s.reports.marks.written
        ≡ record { features = Some false; kept = Some false; contacts = None }
        → said_at s ≡ Unwritten RecordFile ∷ Unprinted ∷ [] }
    ensures broken { (s : State) → s.begun ≡ true → s.reports.marks.printed ≡ Some true
        → s.course ≡ course_of (Some Ended) false false
        → s.reports.marks.written ≡ record none_written { features = Some false }
        → said_at s ≡ Unwritten FeaturesFile ∷ Broken ∷ [] }
    ensures unreached { (s : State) → s.begun ≡ false → s.unbegun ≡ false
        → s.reports.marks.printed ≡ None → s.reports.marks.written ≡ none_written
        → said_at s ≡ Broken ∷ [] }
    ensures files { (s : State) → s.begun ≡ true → s.reports.marks.printed ≡ Some true
        → s.course ≡ course_of None false false → s.pair.end.client.state ≡ Completed
        → s.reports.marks.written
        ≡ record { features = Some false; kept = Some false; contacts = Some false }
        → said_at s
        ≡ Unwritten RecordFile ∷ Unwritten ContactsFile ∷ Unwritten FeaturesFile ∷ [] }
    ensures unbegun { (s : State) → s.begun ≡ false → s.unbegun ≡ true
        → s.reports.marks.printed ≡ None
        → s.reports.marks.written ≡ record none_written { kept = Some false }
        → said_at s ≡ Unbegun ∷ Unwritten RecordFile ∷ [] }
    ensures done { (s : State) → s.begun ≡ true → s.reports.marks.printed ≡ Some true
        → s.course ≡ course_of None false false → s.pair.end.client.state ≡ Completed
        → s.reports.marks.written ≡ none_written → said_at s ≡ [] }
    ensures unsaid { (s : State) → s.stage ≡ Ending → s.said ≡ [] → said_at s ≡ Broken ∷ []
        → IsDue s → ⊥ }
{}

/// A features file that lacks the last feature gets its lines, and one that has all gets nothing; what was answered of it is known.
pub fn list_rows()
    ensures last { (version : _) (f : Feature) → header version ≡ codes "DME-FEATURES 2"
        → AreFeaturesLines (f ∷ []) (text_of (feature_lines version f)) }
    ensures other { (more : List ℕ) → AreFeaturesLines [] (7 ∷ more) → ⊥ }
    ensures more { (s : State) → s.stage ≡ Listing → s.held ≡ 1
        → s.pair.end.client.table.tally.features ≡ [] → IsDue s → ⊥ }
    ensures made { (s : State) (m : Marks) → s.stage ≡ MakingFeatures
        → marked_at s Found m ≡ record m { listed = s.held } }
    ensures unmade { (s : State) (m : Marks) → s.stage ≡ MakingFeatures → marked_at s Short m ≡ m }
    ensures named { (s : State) (m : Marks) → s.stage ≡ BeginningFeatures → marked_at s Done m ≡ m }
    ensures unnamed { (s : State) (m : Marks) → s.stage ≡ BeginningFeatures
        → marked_at s Missing m ≡ record m { lists = false } }
{}

/// At the end a stage is followed by later ones alone, and none of them is on the connection; a server that is left is looked at ten times, and
/// each time counts; the record is tried before the file of contacts, or once after it; and the exit is the last.
pub fn end_rows()
    ensures most { (s : State) → s.stage ≡ ReplacingFeatures → steps_left s ≡ 21 }
    ensures again { (s t : State) → s.stage ≡ ReplacingFeatures → t.stage ≡ s.stage → Nears s t → ⊥ }
    ensures back { (s t : State) → s.stage ≡ Leaving → t.stage ≡ Closing → Nears s t → ⊥ }
    ensures further { (s t : State) → s.stage ≡ Printing → t.stage ≡ Leaving → Nears s t }
    ensures received { (s t : State) → s.stage ≡ Printing → t.stage ≡ Receiving → Nears s t → ⊥ }
    ensures looks { (s t : State) → s.stage ≡ Draining → t.stage ≡ Draining → s.looks ≡ 8
        → t.looks ≡ 9 → Nears s t }
    ensures unlooked { (s : State) → s.stage ≡ Draining → s.looks ≡ 0 → steps_left s ≡ 17 }
    ensures looked { (s : State) → s.stage ≡ Draining → s.looks ≡ 9 → steps_left s ≡ 8 }
    ensures uncounted { (s t : State) → s.stage ≡ Draining → t.stage ≡ Draining
        → s.looks ≡ 8 → t.looks ≡ 8 → Nears s t → ⊥ }
    ensures eleventh { (s t : State) → s.stage ≡ Draining → t.stage ≡ Draining
        → s.looks ≡ 9 → t.looks ≡ 10 → Nears s t → ⊥ }
    ensures untried { (s t : State) → s.stage ≡ ReplacingContacts → t.stage ≡ Standing
        → s.book.keeps ≡ true → s.reports.marks.written.kept ≡ None → Nears s t }
    ensures tried { (s t : State) → s.stage ≡ ReplacingContacts → t.stage ≡ Standing
        → s.reports.marks.written.kept ≡ Some true → Nears s t → ⊥ }
    ensures exit { (s t : State) → s.stage ≡ Exiting → t.stage ≡ Exiting → Nears s t }
    ensures message { (s t : State) → s.stage ≡ Exiting → t.stage ≡ Telling → Nears s t → ⊥ }
    ensures earlier { (s t : State) → s.stage ≡ Showing → over s ≡ false → Nears s t }
{}

/// Once a run is over it comes to its end: nothing more is sent, what was shown is not shown again unless memory has run out since, for the
/// first time, and what is due is noted once.
pub fn over_rows()
    ensures most { (s : State) → s.stage ≡ Tracing → is_due s true ≡ true → s.book.spent ≡ false
        → steps_left s ≡ 49 }
    ensures again { (s : State) → s.stage ≡ Showing → over s ≡ true → Nears s s → ⊥ }
    ensures sent { (s t : State) → s.stage ≡ Showing → over s ≡ true → t.stage ≡ Sending
        → Nears s t → ⊥ }
    ensures short { (s t : State) → s.stage ≡ Showing → t.stage ≡ Tracing → over s ≡ true
        → over t ≡ true → s.book.spent ≡ false → t.book.spent ≡ true → Nears s t }
    ensures twice { (s t : State) → s.stage ≡ Showing → t.stage ≡ Tracing → over s ≡ true
        → s.book.spent ≡ true → is_due s true ≡ false → Nears s t → ⊥ }
    ensures noted { (s t : State) → s.stage ≡ Noting → t.stage ≡ Recording → over s ≡ true
        → over t ≡ true → t.book.spent ≡ s.book.spent → is_due t true ≡ false → Nears s t }
    ensures due { (s t : State) → s.stage ≡ Noting → t.stage ≡ Recording → over s ≡ true
        → t.book.spent ≡ s.book.spent → is_due t true ≡ true → Nears s t → ⊥ }
{}

/// What is to be in the file of contacts: the acts that were reported before, and then those that the client has counted on its connection, as
/// many as are known, which are no more than those.
pub fn report_rows()
    ensures text { reported_text ((1, Homed) ∷ []) 2 1 (HomedIs true ∷ Homed ∷ [])
        ≡ contacts_text ((1, Homed) ∷ (2, HomedIs true) ∷ []) }
    ensures uncounted { (p : Pair) (r : Reports) → p.end.client.table.tally.counted ≡ []
        → r.told ≡ 1 → HasReported [] p r → ⊥ }
{}

/// What is shown as complete is on the device: in the record, while that could be kept; or else in the features file, while that could; only
/// where neither is kept, it is what the client holds. The features file has there what was answered as done, and nothing else.
pub fn complete_rows()
    ensures record { (s : State) → s.stage ≡ Showing → s.book.keeps ≡ true
        → s.book.lost ≡ false → s.book.settled ≡ 1 → s.shown ≡ 2 → IsDue s → ⊥ }
    ensures lost { (s : State) → s.stage ≡ Showing → s.book.keeps ≡ true → s.book.lost ≡ true
        → s.reports.marks.lists ≡ true → s.reports.marks.listed ≡ 1 → s.shown ≡ 2 → IsDue s → ⊥ }
    ensures features { (s : State) → s.stage ≡ Showing → s.book.keeps ≡ false
        → s.reports.marks.lists ≡ true → s.reports.marks.listed ≡ 1 → s.shown ≡ 2 → IsDue s → ⊥ }
    ensures neither { (s : State) → s.stage ≡ Showing → s.book.keeps ≡ false
        → s.reports.marks.lists ≡ false → s.pair.end.client.table.tally.features ≡ []
        → s.shown ≡ 1 → IsDue s → ⊥ }
    ensures forced { (s : State) (m : Marks) → s.stage ≡ Listing
        → marked_at s Done m ≡ record m { listed = s.held } }
    ensures unforced { (s : State) (m : Marks) → s.stage ≡ Listing
        → marked_at s Short m ≡ record m { lists = false } }
{}

/// Nothing is sent before an act that was counted has its line, nor received before the file has it; while it is added the file may lack it;
/// without a record no act needs a line; nothing is sent or awaited once the run is over; and nothing is known of the last message, which is
/// that of memory that has run out.
pub fn follow_rows()
    ensures untold { (s : State) → s.stage ≡ Sending → s.book.short ≡ false → s.book.keeps ≡ true
        → length s.pair.end.client.table.tally.counted ≡ 1 → s.pair.recording.told ≡ 0
        → HasFollowed s → ⊥ }
    ensures unfiled { (s : State) → s.stage ≡ Receiving → s.book.short ≡ false
        → lacking s ≡ 7 ∷ [] → HasFollowed s → ⊥ }
    ensures adding { (s : State) → s.stage ≡ Recording → HasTold s → HasFollowed s }
    ensures without { (s : State) → s.stage ≡ Sending → s.book.keeps ≡ false
        → s.reports.named ≡ false → lacking s ≡ [] → is_due s false ≡ false → over s ≡ false
        → HasFollowed s }
    ensures over { (s : State) → s.stage ≡ Sending → s.book.short ≡ false → over s ≡ true
        → HasFollowed s → ⊥ }
    ensures going { (pace Sending ≡ Going) × ((pace Checking ≡ Going) × (pace Timing ≡ Going))
        × ((pace Receiving ≡ Going) × (pace Awaiting ≡ Going) × (pace Returning ≡ Going)) }
    ensures shows { (s : State) → s.stage ≡ Showing → HasTold s → HasAll s → HasFollowed s }
    ensures undue { (s : State) → s.stage ≡ Sending → s.book.short ≡ false
        → is_due s false ≡ true → HasFollowed s → ⊥ }
    ensures ended { (s : State) → s.stage ≡ Printing → s.book.short ≡ false
        → s.book.noted.opened ≡ true → is_due s true ≡ true → HasFollowed s → ⊥ }
    ensures last { (s : State) → s.stage ≡ Telling → HasFollowed s }
{}

/// A pause ends by an LF that the operator types, and by nothing else; he is asked only while a pause is to come, above which all is counted,
/// and what the server sends is no answer.
pub fn pause_rows()
    ensures line { confirms_pause Awaiting (Bytes (10 ∷ [])) ≡ true }
    ensures after_return { confirms_pause Returning (Bytes (10 ∷ [])) ≡ true }
    ensures other { confirms_pause Awaiting (Bytes (32 ∷ [])) ≡ false }
    ensures longer { confirms_pause Returning (Bytes (10 ∷ 10 ∷ [])) ≡ false }
    ensures unasked { confirms_pause Receiving (Bytes (10 ∷ [])) ≡ false }
    ensures typed { (s : State) → AsksAt Awaiting s Byte }
    ensures received { (s : State) → AsksAt Returning s (Receive Server) → ⊥ }
    ensures none { (s : State) → s.stage ≡ Awaiting → s.book.pauses ≡ [] → IsDue s → ⊥ }
    ensures uncounted { (s : State) → s.stage ≡ Returning → s.book.pauses ≡ 1 ∷ []
        → length s.pair.end.client.table.tally.todo ≡ 2 → IsDue s → ⊥ }
{}

/// A run is stopped by its stop file on the connection, and at a pause by whatever is no empty line; not by memory that runs out, nor by what
/// the server sends. Then a client that is Running or Failing aborts, and no other does; and what is neither has no abort among its calls.
pub fn stop_rows()
    ensures found { is_stop Checking Found ≡ true }
    ensures missing { is_stop Checking Missing ≡ false }
    ensures uncalled { is_stop Peeking Found ≡ false }
    ensures received { is_stop Receiving (Bytes (32 ∷ [])) ≡ false }
    ensures other { is_stop Awaiting (Bytes (32 ∷ [])) ≡ true }
    ensures ended { is_stop Returning End ≡ true }
    ensures line { is_stop Awaiting (Bytes (10 ∷ [])) ≡ false }
    ensures first { is_stop Awaiting (Bytes (13 ∷ [])) ≡ false }
    ensures second { is_stop Returning (Bytes (13 ∷ [])) ≡ true }
    ensures short { is_stop Awaiting Short ≡ false }
    ensures running { (s : State) → s.pair.end.client.state ≡ Running
        → (stopped true s).pair.end ≡ end_aborted s.pair.end }
    ensures failing { (s : State) → s.pair.end.client.state ≡ Failing
        → (stopped true s).pair.end ≡ end_aborted s.pair.end }
    ensures aborting { (s : State) → s.pair.end.client.state ≡ Aborting → stopped true s ≡ s }
    ensures halted { (s : State) → s.pair.end.client.state ≡ Halted → stopped true s ≡ s }
    ensures done { (s : State) → s.pair.end.client.state ≡ Completed → stopped true s ≡ s }
    ensures calm { (e : ClientEnd) → IsFree false 0 e Abort → ⊥ }
    ensures unread { (e : ClientEnd) → HasLine e → IsFree true 0 e SendsDue → ⊥ }
    ensures held { (e : ClientEnd) → e.client.table.tally.unsent ≡ [] → IsFree true 0 e SendsDue → ⊥ }
    ensures since { (before : List (ℕ × Act)) (s t : State)
        → HasReported before s.pair s.reports → IsLater s t
        → Ran nothing s.pair s.talk t.book.pauses t.pair t.talk }
    ensures stop { (s t : State) → s.stage ≡ Checking → t.book.spent ≡ false → Stops s Found t
        → IsLater (stopped true s) t }
    ensures unstopped { (s t : State) → s.stage ≡ Sending → t.book.spent ≡ false
        → Stops s Done t → IsLater s t }
{}

/// What is given is noted with the connection, once; features when they are complete since; the end once it is reached; nothing if nothing is
/// given, or if it cannot be said; and nothing unless the time of notes was answered.
pub fn note_rows()
    ensures opened { (time server : List ℕ) → due (record {
      given = Some ((Operator, 65 ∷ []) ∷ []);
      opened = false;
      left = false;
      dated = 2;
    }) time server 2 None ≡ (Operator, 65 ∷ []) ∷ (Opened, time ++ 32 ∷ server) ∷ [] }
    ensures complete { (time server : List ℕ) → due noted_open time server 3 None ≡ (Dated, time) ∷ [] }
    ensures over { (time server how : List ℕ) → due noted_open time server 2 (Some how)
        ≡ (Left, time ++ 32 ∷ how) ∷ [] }
    ensures once { (time server how : List ℕ)
        → due (record noted_open { left = true }) time server 2 (Some how) ≡ [] }
    ensures waits { has_due noted_open 2 false ≡ false }
    ensures ends { has_due noted_open 2 true ≡ true }
    ensures grows { has_due noted_open 3 false ≡ true }
    ensures nothing { has_due (record noted_open { given = None }) 3 true ≡ false }
    ensures passes { has_due (passed noted_open 3 true) 3 true ≡ false }
    ensures ungiven { (time server how : List ℕ)
        → due (record noted_open { given = None; opened = false }) time server 3 (Some how) ≡ [] }
    ensures unkept { given_notes false (Some []) ≡ None }
    ensures said { (g : Growth) → with_said ((Dated, codes "2026-11-30T06:00:00.000Z")
        ∷ (Dated, codes "now") ∷ (Refused, codes "x") ∷ (Sealed, codes "x") ∷ []) g
        ≡ with_notes ((Dated, codes "2026-11-30T06:00:00.000Z") ∷ []) g }
    ensures each { (g : Growth) → with_said ((Operator, 65 ∷ []) ∷ (By, 66 ∷ []) ∷ []) g
        ≡ with_notes ((By, 66 ∷ []) ∷ []) (with_notes ((Operator, 65 ∷ []) ∷ []) g) }
    ensures unsealed { (g : Growth) (key : List ℕ) → seal_if false (Some key) g ≡ g }
    ensures runs { ended (course_of None false false) Running ≡ None }
    ensures stops { ended (course_of None false true) Halted ≡ Some (codes "stopped") }
    ensures fails { ended (course_of None false false) Halted ≡ Some (codes "failed") }
    ensures done { ended (course_of None false true) Completed ≡ Some (codes "done") }
    ensures closes { ended (course_of (Some Ended) false false) Running
        ≡ Some (codes "closed by the server") }
    ensures breaks { ended (course_of (Some ReadFailed) false false) Running
        ≡ Some (codes "broken off") }
    ensures lapses { ended (course_of (Some ReadFailed) true false) Running
        ≡ Some (codes "no answer in time") }
    ensures noted { (s t : State) (time : List ℕ) → s.stage ≡ Noting → t.book.spent ≡ false
        → Stops s (Bytes time) t → Turns (closed (with_due s (Some time))) t }
    ensures stays { (s t : State) (reply : Reply) → s.stage ≡ Sending → t.book.spent ≡ false
        → Stops s reply t → Turns s t }
{}

/// What is shown of an error: the command that was written last under its tag, with the line of its statement, and with the feature and the touch
/// if it is one; its text, each byte as it can be read; and what the record keeps of it. An error is shown if and only if it is kept for the
/// record, once its line has ended; and the record gets a line of no other.
pub fn error_rows()
    ensures touched { (t : Touch) → error_line (two t) (Some 7 ∷ Some 9 ∷ [])
        (record { tag = Std 5; about = Some (row PtMeas 3 2); text = codes "1 x" })
        ≡ codes "dme: line 9, B, touch 2: PtMeas refused: 1 x\n" }
    ensures first { (t : Touch) → touch_text (two t) 1 ≡ codes ", A, touch 1" }
    ensures beyond { (t : Touch) → touch_text (two t) 4 ≡ [] }
    ensures moved { (t : Touch) → error_line (two t) (Some 7 ∷ Some 9 ∷ [])
        (record { tag = Std 5; about = Some (row GoTo 3 1); text = [] })
        ≡ codes "dme: line 7: GoTo refused: \n" }
    ensures unlined { error_line [] [] (record { tag = Event 1; about = Some (row AbortE 3 2); text = 7 ∷ [] })
        ≡ codes "dme: AbortE refused: \\x07\n" }
    ensures unasked { error_line [] [] (record { tag = Event 0; about = None; text = codes "x" })
        ≡ codes "dme: the server reports: x\n" }
    ensures kept { error_kept (record { tag = Std 12; about = None; text = codes "1 x" })
        ≡ codes "00012 1 x" }
    ensures event { error_kept (record { tag = Event 12; about = None; text = [] }) ≡ codes "E0012 " }
    ensures last { (r : Reported) → r.tag ≡ Std 5
        → (with_about (row GoTo 0 1 ∷ row PtMeas 1 2 ∷ []) r).about ≡ Some (row PtMeas 1 2) }
    ensures other { (r : Reported) → r.tag ≡ Std 6
        → (with_about (row GoTo 0 1 ∷ []) r).about ≡ None }
    ensures written { with_written (row PtMeas 3 2 ∷ []) (record { tag = Std 6; command = Aborts } ∷ [])
        ≡ row PtMeas 3 2 ∷ record { tag = Std 6; kind = AbortE; touches = 3; tasks = 2 } ∷ [] }
    ensures heard { Hears [] (codes "00005 ! 1 x\n") (new_talk 0 [])
        (record (new_talk 0 []) { errors = codes "00005 1 x" ∷ [] })
        [] (codes "dme: the server reports: 1 x\n") }
    ensures shown { (fs : List Wanted) (bytes : List ℕ) (t u : Talk) (before after : List ℕ)
        → Hears fs bytes t u before after → u.errors ≡ t.errors → after ≡ before }
    ensures unshown { (fs : List Wanted) (bytes : List ℕ) (t u : Talk) (before after : List ℕ)
        → Hears fs bytes t u before after → after ≡ before → u.errors ≡ t.errors }
    ensures unended { (fs : List Wanted) (t u : Talk) (before after : List ℕ) → t.hearing ≡ []
        → Hears fs (codes "00005 ! 1 x") t u before after → after ≡ before }
    ensures recorded { (t u : Talk) (error : List ℕ) → t.errors ≡ []
        → Records (error ∷ []) t u → ⊥ }
{}

/// The line of a run on a terminal: its bar is rounded down, and what is left goes by the touches of this run alone.
pub fn pace_rows()
    ensures eight { full_cells paced ≡ 8 }
    ensures complete { full_cells (record paced { touches = 40 }) ≡ 20 }
    ensures left { left paced ≡ Some 74 }
    ensures resumed { left (record paced { before = 17 }) ≡ None }
    ensures cells { map (cell 2) (1 ∷ 2 ∷ []) ≡ codes "#-" }
{}

/// Seconds have two digits; and the line is that of its pace.
pub fn clock_rows()
    ensures minute { clock 74 ≡ decimal 1 ++ (codes ":" ++ (decimal 1 ++ decimal 4)) }
    ensures second { clock 9 ≡ decimal 0 ++ (codes ":" ++ (decimal 0 ++ decimal 9)) }
{}

/// A line that is written anew is the same one, at the place of the last.
#[tactic(auto, unfolding(crate::specs::Progress::pace_line))]
pub fn anew_rows()
    ensures { (p : Pace) → pace_line true p
        ≡ 27 ∷ 91 ∷ 49 ∷ 65 ∷ 27 ∷ 91 ∷ 50 ∷ 75 ∷ pace_line false p }
{}
