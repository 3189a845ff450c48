// Examples: what calls report to clients that are written out, and what is written for them.

ghost use Rattle.std.specs.Prelude.{◌≡◌, [], ◌∷◌, codes, map, true, false};
ghost use Rattle.client_core.specs.Calls.{ReadOne, Leave, Connected, Restart, Resume};
ghost use Rattle.record_text.specs.Told.{told_behind};
ghost use Rattle.record_text.specs.ToldExamples.{changing};
ghost use Rattle.contact_ledger.specs.Lines.{text_of};
ghost use Rattle.protocol_model.specs.World.{start};
ghost use Rattle.protocol_model.specs.declared.events.Event.TheVariants.{ClientReads};
ghost use Rattle.record_text.specs.Entries.{entry_line};
ghost use Rattle.record_text.specs.declared.entries.Entry.TheVariants.{Told, Noted, Completed};
ghost use Rattle.record_text.specs.Entries.{error_note};
ghost use Rattle.record_text.specs.declared.notes.Note.TheVariants.{Refused};
ghost use Rattle.record_text.specs.Growths.{with_notes};
ghost use Rattle.record_text.specs.Recordings.{Calls, Tell, AreFit, behind_moments, told_now};
ghost use Rattle.record_text.specs.RunExamples.{contact, empty, feature, halted, program};
ghost use Rattle.record_text.specs.Worlds.{told_in};
ghost use Rattle.contact_ledger.specs.declared.acts.Act.TheVariants as act;

/// A completed command reports its act once, under the number of the connection. Acts that were counted before are not reported again, and
/// neither a new connection nor a restart reports any.
pub fn told_rows()
    ensures completed { told_behind (ReadOne ∷ Leave ∷ Connected 4 ∷ []) (changing 3 (act.Homed ∷ []))
        ≡ (3, act.Changed (codes "P1")) ∷ [] }
    ensures connected { told_behind (Leave ∷ Connected 4 ∷ []) (changing 3 (act.Homed ∷ [])) ≡ [] }
    ensures restarted { told_behind (Restart 0 ∷ []) (changing 3 (act.Homed ∷ [])) ≡ [] }
{}

/// The second contact completes the feature of two touches. Lines that are added in two pieces are those that are added at once. Before a
/// new connection the lines that are due are added, under the number of the last one.
pub fn written_rows()
    ensures first { (told_now (halted (contact ∷ []) []) empty).text
        ≡ text_of (map entry_line (Told 3 contact ∷ [])) }
    ensures both { (told_now (halted (contact ∷ contact ∷ []) []) empty).text ≡ text_of (map
        entry_line (Told 3 contact ∷ Told 3 contact ∷ Completed 3 (codes "C") ∷ [])) }
    ensures pieces { told_now (halted (contact ∷ contact ∷ []) [])
        (told_now (halted (contact ∷ []) []) empty)
        ≡ told_now (halted (contact ∷ contact ∷ []) []) empty }
    ensures connected { (behind_moments (Calls Leave ∷ Calls (Connected 4) ∷ [])
        (record { end = halted (contact ∷ []) []; recording = empty })).recording ≡ record {
          telling = record { connection = 4; counted = record { features = 0; points = 0 } };
          told = 0;
          text = text_of (map entry_line (Told 3 contact ∷ []));
        } }
{}

/// A plan that is resumed begins its unfinished feature again. An error has its line, also if memory runs out for the acts before it; these
/// have theirs later.
pub fn resumed_rows()
    ensures resumed { (behind_moments (Calls Resume ∷ [])
        (record { end = halted (contact ∷ []) []; recording = empty })).recording ≡ record {
          telling = record { connection = 3; counted = record { features = 0; points = 0 } };
          told = 1;
          text = text_of (map entry_line (Told 3 contact ∷ []));
        } }
    ensures error { (with_notes (error_note (codes "00009 !") ∷ []) empty).text
        ≡ text_of (map entry_line (Noted 3 Refused (codes "00009 !") ∷ [])) }
    ensures later { (told_now (halted (contact ∷ []) [])
        (behind_moments (Tell true (error_note (codes "00009 !") ∷ []) ∷ [])
        (record { end = halted (contact ∷ []) []; recording = empty })).recording).text
        ≡ text_of (map entry_line (Noted 3 Refused (codes "00009 !") ∷ Told 3 contact ∷ [])) }
{}

/// A connection with a number of an earlier one does not fit a record, and neither does a restart that gives a completed feature up. An
/// event that cannot happen reports nothing.
pub fn fit_rows()
    ensures number { AreFit 4 (Calls (Connected 3) ∷ []) (halted [] []) → ⊥ }
    ensures restart { AreFit 4 (Calls (Restart 0) ∷ []) (halted [] (feature ∷ [])) → ⊥ }
    ensures event { told_in (ClientReads ∷ []) (start program [] 1) ≡ [] }
{}
