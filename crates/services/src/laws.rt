// What follows from the definitions. Each function has laws for its contract and does nothing.

ghost use Rattle.std.specs.Prelude.{◌≡◌, ◌≤◌, ⊤, ℕ, Bool, List, [], ◌∷◌, true, false, Some, None, Ok};
ghost use Rattle.effects.specs.declared.vocabulary.Cause.TheVariants.{Device, InUse, Link, Reset};
ghost use Rattle.effects.specs.Effects.{At, Bytes, Did, Discard, Done, End, Exit, Failed, Found, Look, Make, Nothing, Remove, Replace};
ghost use Rattle.effects.specs.declared.vocabulary.Growth.TheVariants.{Contacts, Told};
ghost use Rattle.line_framing.specs.Next.{next_of};
ghost use Rattle.protocol_model.specs.Ends.{ServerEnd};
ghost use Rattle.protocol_model.specs.Server.{running_job};
ghost use Rattle.server_core.specs.Serving.{may_turn};
ghost use Rattle.tool_rack.specs.Setups.{SetupValue};
ghost use Rattle.services.specs.Ends.{After, Nears, ahead, ahead_at, at_end};
ghost use Rattle.services.specs.Sessions.{AreSeen, AsksAt, Breaks, Core, HasServed, IsBrokenOff, IsStatus, Led, NoneBroken, Outside, Ready, State, due, outcome, untouched};
ghost use Rattle.services.specs.Serving.{Talk, Traffic, Served, IsBreak, IsServing, IsAt, is_over, may_leave, passed};
ghost use Rattle.link_world.specs.declared.connections.pumps.PumpFault.TheVariants as fault;
ghost use Rattle.services.specs.declared.stages.Stage.{Stage};
ghost use Rattle.services.specs.declared.stages.Stage.TheVariants as stage;

/// A server that was served so (`Served`), as that of a session is at any moment, whatever is answered:
///
/// - `read`, `idle`: each whole line that was received is read, and nothing waits or runs, before anything more is asked of the outside.
pub fn servers_of_sessions_have_worked()
    ensures read { (setup : SetupValue) (over : Bool) (heard : List (List ℕ))
        (written : List ℕ) (e : ServerEnd) → Served setup over heard written e
        → next_of e.input.rest ≡ Ok None }
    ensures idle { (setup : SetupValue) (over : Bool) (heard : List (List ℕ))
        (written : List ℕ) (e : ServerEnd) → Served setup over heard written e
        → (may_turn e.server ≡ false) × (running_job e.server ≡ None) }
{}

/// A session that was led to its exit from one that is `Ready`, as a new one is, exits with status 0 only if its port was listened on, no
/// connection was broken off, its contacts file was kept and written, and its contacts were printed; and else with 1, or with 4 if memory has
/// run out.
pub fn services_exit_with_their_status()
    ensures { (first s : State) (past : List Did) (o : Outside)
        → Ready (due first) first.core untouched → (led : Led first past s o)
        → s.stage ≡ stage.Exiting
        → IsStatus s.core.status (HasServed s.core o × NoneBroken first past s o led) }
{}

/// A session that was led from one that is `Ready` has locked a file, to make its next text, only if it was seen under this name to be a plain
/// one, or none: what it begins is no link.
pub fn what_grows_is_no_link()
    ensures { (first s : State) (past : List Did) (o : Outside)
        → Ready (due first) first.core untouched → Led first past s o → AreSeen past }
{}

/// A file that was not looked for, or under another name, or that is a link or a device, is not locked; no port is listened on before it is;
/// and the file is looked for first.
pub fn seeing_rows()
    ensures unseen { (c : Core) (o : Outside) → o.seen ≡ None → Ready stage.Making c o → ⊥ }
    ensures other { (c : Core) (o : Outside) → c.name ≡ 7 ∷ [] → o.seen ≡ Some (5 ∷ [], Done)
        → Ready stage.Making c o → ⊥ }
    ensures linked { (c : Core) (o : Outside) → o.seen ≡ Some (c.name, Failed Link)
        → Ready stage.Making c o → ⊥ }
    ensures device { (c : Core) (o : Outside) → o.seen ≡ Some (c.name, Failed Device)
        → Ready stage.Making c o → ⊥ }
    ensures unlistened { (c : Core) (o : Outside) → c.named ≡ true → o.is_made ≡ false
        → Ready stage.Listening c o → ⊥ }
    ensures looked { (s : State) → s.core.name ≡ 7 ∷ [] → AsksAt stage.Looking s (Look (5 ∷ [])) → ⊥ }
    ensures made { (s : State) → s.core.name ≡ 7 ∷ []
        → AsksAt stage.Making s (Make Contacts (5 ∷ []) [] []) → ⊥ }
    ensures written { (s : State) → s.core.name ≡ 7 ∷ []
        → AsksAt stage.Replacing s (Replace (5 ∷ []) [] []) → ⊥ }
    ensures plain { AreSeen ((Make Contacts (7 ∷ []) [] [], Done) ∷ (Look (7 ∷ []), Done) ∷ []) }
    ensures link { AreSeen ((Make Contacts (7 ∷ []) [] [], Done)
        ∷ (Look (7 ∷ []), Failed Link) ∷ []) → ⊥ }
    ensures other_plain { AreSeen ((Make Contacts (7 ∷ []) [] [], Done)
        ∷ (Look (5 ∷ []), Done) ∷ []) → ⊥ }
    ensures late { AreSeen ((Look (7 ∷ []), Done)
        ∷ (Make Contacts (7 ∷ []) [] [], Done) ∷ []) → ⊥ }
{}

/// What a service asks for nowhere but at its own stage; a port that was not had, a connection that was broken off, and contacts that were not
/// kept, or not printed, are no success; no other status is known.
pub fn asking_rows()
    ensures exit { (s : State) → AsksAt stage.Saying s (Exit 0) → ⊥ }
    ensures other_exit { (s : State) → s.core.status ≡ 1 → AsksAt stage.Exiting s (Exit 0) → ⊥ }
    ensures removed { (s : State) → AsksAt stage.Checking s (Remove []) → ⊥ }
    ensures other_file { (s : State) → AsksAt stage.Discarding s (Discard Told) → ⊥ }
    ensures unlistened { (c : Core) (o : Outside) → o.is_listened ≡ false → HasServed c o → ⊥ }
    ensures broken { (c : Core) (o : Outside) → c.broken ≡ true → HasServed c o → ⊥ }
    ensures lost { (c : Core) (o : Outside) → c.lost ≡ true → HasServed c o → ⊥ }
    ensures unwritten { (c : Core) (o : Outside) → c.named ≡ true → o.is_whole ≡ false
        → HasServed c o → ⊥ }
    ensures unprinted { (c : Core) (o : Outside) → o.is_printed ≡ false → HasServed c o → ⊥ }
    ensures other_status { IsStatus 3 ⊤ → ⊥ }
{}

/// The port is had only if it was listened on. A connection is broken off if its client has reset it, takes no answers or is refused, or if a
/// turn or the time ends it, and that is never forgotten; but not if its client has ended it, or at the stop file.
pub fn breaking_rows()
    ensures had { (c : Core) → (outcome stage.Listening c Done untouched).is_listened ≡ true }
    ensures unhad { (c : Core)
        → (outcome stage.Listening c (Failed InUse) untouched).is_listened ≡ false }
    ensures reset { (s t : State) → s.stage ≡ stage.Receiving → s.talk.end.server.on ≡ true
        → t.talk.end.server.on ≡ false → t.core.broken ≡ false → Breaks s (Failed Reset) t → ⊥ }
    ensures turned { (s t : State) → s.stage ≡ stage.Receiving → s.talk.end.server.on ≡ true
        → t.talk.end.server.on ≡ false → t.core.broken ≡ false → Breaks s (Bytes (7 ∷ [])) t → ⊥ }
    ensures untaken { (s t : State) → s.stage ≡ stage.Sending → s.talk.end.server.on ≡ true
        → t.talk.end.server.on ≡ false → t.core.broken ≡ false → Breaks s Nothing t → ⊥ }
    ensures refused { (s t : State) → s.stage ≡ stage.Accepting
        → t.talk.end.server.on ≡ false → t.core.broken ≡ false → Breaks s Done t → ⊥ }
    ensures late { (ms : ℕ) (s t : State) → s.stage ≡ stage.Timing → s.talk.end.server.on ≡ true
        → t.talk.end.server.on ≡ false → t.core.broken ≡ false → Breaks s (At ms) t → ⊥ }
    ensures kept { (s t : State) → s.core.broken ≡ true → t.core.broken ≡ false
        → Breaks s Done t → ⊥ }
    ensures ended { (s t : State) → s.stage ≡ stage.Receiving → IsBrokenOff s End t → ⊥ }
    ensures stopped { (s t : State) → s.stage ≡ stage.Checking → IsBrokenOff s Found t → ⊥ }
    ensures still { (s t : State) → t.talk.end.server.on ≡ true → IsBrokenOff s Nothing t → ⊥ }
    ensures off { (s t : State) → s.talk.end.server.on ≡ false → IsBrokenOff s Nothing t → ⊥ }
{}

/// What is received joins what was before on the connection, of which nothing is on the next one; nothing is received while something is
/// to be sent, or on no connection; no connection is taken before the last is left; the first has the number 1; what is to be sent is just
/// what the server has written; no connection is left at bytes, nor once all was sent; and a connection is not broken off for memory,
/// unless the service is over, which takes no other, receives nothing and sends nothing.
pub fn serving_rows()
    ensures received { passed stage.Receiving [] (Bytes (7 ∷ []))
        (record { heard = (5 ∷ []) ∷ (3 ∷ []) ∷ []; sent = [] })
        ≡ record { heard = (5 ∷ 7 ∷ []) ∷ (3 ∷ []) ∷ []; sent = [] } }
    ensures taken { passed stage.Accepting [] Done
        (record { heard = (5 ∷ []) ∷ []; sent = 9 ∷ [] })
        ≡ record { heard = [] ∷ (5 ∷ []) ∷ []; sent = [] } }
    ensures unsent { (t : Talk) → t.out ≡ 7 ∷ [] → IsAt stage.Receiving t → ⊥ }
    ensures off { (t : Talk) → t.end.server.on ≡ false → IsAt stage.Receiving t → ⊥ }
    ensures unleft { (t : Talk) → t.end.server.on ≡ true → IsAt stage.Accepting t → ⊥ }
    ensures second { (setup : SetupValue) (over : Bool) (t : Talk) (f : Traffic)
        → f.heard ≡ [] ∷ [] → t.number ≡ 2 → IsServing setup over t f → ⊥ }
    ensures unwritten { (setup : SetupValue) (over : Bool) (t : Talk) (f : Traffic)
        (h : IsServing setup over t f) → t.end.server.on ≡ true → f.sent ≡ [] → t.out ≡ 7 ∷ []
        → h.written ≡ [] → ⊥ }
    ensures memory { (n written : ℕ) (e : ServerEnd) → IsBreak fault.Memory n written e → ⊥ }
    ensures taking { is_over stage.Accepting ≡ false }
    ensures receiving { is_over stage.Receiving ≡ false }
    ensures sending { is_over stage.Sending ≡ false }
    ensures leaving { is_over stage.Leaving ≡ false }
    ensures kept { may_leave stage.Receiving (Bytes (7 ∷ [])) ≡ false }
    ensures waiting { may_leave stage.Receiving Nothing ≡ false }
    ensures sent { may_leave stage.Sending Done ≡ false }
    ensures ended { may_leave stage.Receiving End ≡ true }
    ensures stopped { may_leave stage.Checking Found ≡ true }
    ensures lapsed { (ms : ℕ) → may_leave stage.Timing (At ms) ≡ true }
{}

/// At its end a service asks for at most five effects, and from the whole text of its contacts file on for four, the exit included, whatever is
/// answered (`Session::take`): after one answer less only its exit is left.
pub fn services_exit()
    ensures ends { (n : ℕ) (s t : State) → (ahead s).ends ≡ true → After n (ahead s) (ahead t)
        → 4 ≤ n → t.stage ≡ stage.Exiting }
    ensures replaced { (n : ℕ) (s t : State) → s.stage ≡ stage.Replacing
        → After n (ahead s) (ahead t) → 3 ≤ n → t.stage ≡ stage.Exiting }
{}

/// At the end no stage comes again, nor one on a connection: the contacts file is written before the contacts are printed, and a message is said
/// once, before or after; and the exit is the last.
pub fn exit_rows()
    ensures most { ahead_at stage.Saying stage.Replacing ≡ at_end 4 }
    ensures written { (m n : Stage) → Nears (ahead_at stage.Replacing m)
        (ahead_at stage.Printing n) }
    ensures again { (m n : Stage) → Nears (ahead_at stage.Replacing m)
        (ahead_at stage.Replacing n) → ⊥ }
    ensures back { (m n : Stage) → Nears (ahead_at stage.Printing m)
        (ahead_at stage.Replacing n) → ⊥ }
    ensures printed { (n : Stage) → Nears (ahead_at stage.Printing n)
        (ahead_at stage.Saying stage.Exiting) }
    ensures said { Nears (ahead_at stage.Saying stage.Exiting)
        (ahead_at stage.Saying stage.Exiting) → ⊥ }
    ensures discarded { (m n : Stage) → Nears (ahead_at stage.Discarding m)
        (ahead_at stage.Telling n) }
    ensures left { (n : Stage) → ahead_at stage.Discarding n ≡ at_end 2 }
    ensures told { (m n : Stage) → Nears (ahead_at stage.Telling m)
        (ahead_at stage.Telling n) → ⊥ }
    ensures received { (m n : Stage) → Nears (ahead_at stage.Printing m)
        (ahead_at stage.Receiving n) → ⊥ }
    ensures exit { (m n : Stage) → Nears (ahead_at stage.Exiting m) (ahead_at stage.Exiting n) }
    ensures message { (m n : Stage) → Nears (ahead_at stage.Exiting m)
        (ahead_at stage.Telling n) → ⊥ }
    ensures serving { (m n : Stage) → Nears (ahead_at stage.Saying stage.Accepting)
        (ahead_at m n) }
{}
