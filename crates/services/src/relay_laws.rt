// What follows from the definitions of a relay. Each function has laws for its contract and does nothing.

ghost use Rattle.std.specs.Prelude.{◌≡◌, ◌≤◌, ◌+◌, ◌++◌, ℕ, Bool, [], ◌∷◌, true, false};
ghost use Rattle.effects.specs.declared.vocabulary.Cause.TheVariants.{Full, Interrupted};
ghost use Rattle.effects.specs.declared.vocabulary.Growth.TheVariants.{Told};
ghost use Rattle.effects.specs.declared.vocabulary.Peer.TheVariants.{Client, Server};
ghost use Rattle.effects.specs.Effects.{Append, Bytes, Done, End, Exit, Failed, Keep, Nothing, Pass, Short, Took};
ghost use Rattle.watched_ends.specs.Limits.{Past, Within, Limited, up_of, down_of};
ghost use Rattle.witness.specs.Relaying.{Relaying};
ghost use Rattle.services.specs.Ends.{After, Nears, at_end, relay_ahead, relay_ahead_at};
ghost use Rattle.services.specs.Relays.{RelayEnd, RelayOutside, RelayState, RelayTalk, RelayTraffic, AsksAt, EndsAt, Ending, HasPassed, IsRelaying, Sends, Stands, phase, IsVerdict, must_fail, Fails, Counts, Numbers, ReadyAt, phase_of, event_of, passed, nothing_passed, Relayed, HasCourse, IsAt, Keeps};
ghost use Rattle.services.specs.declared.relay_stages.RelayStage.{RelayStage};
ghost use Rattle.services.specs.declared.relay_stages.RelayStage.TheVariants as stage;

/// Whatever is answered, on each connection:
///
/// - `up`, `down`: what an end was sent, and what waits for it, is all that came from the other, in its order;
/// - `course`: as long as the told file is kept, and the relay is within its limit, it has a course with just this traffic: what was reported, it has
///   written, and nothing else (`witness::laws::what_is_written_was_reported`).
pub fn relays_pass_on_what_came()
    ensures up { (number : ℕ) (is_told : Bool) (f : RelayTraffic) (r : Limited)
        → Relayed number is_told f r → f.from_client ≡ f.to_server ++ up_of r }
    ensures down { (number : ℕ) (is_told : Bool) (f : RelayTraffic) (r : Limited)
        → Relayed number is_told f r → f.from_server ≡ f.to_client ++ down_of r }
    ensures course { (number : ℕ) (f : RelayTraffic) (r : Relaying)
        → Relayed number true f (Within r) → HasCourse number f r }
{}

/// At the end of a connection, if nothing has failed so far, what each end was sent is all that came from the other, that of the client unless it
/// has ended what it sends; and what was reported was written.
pub fn relays_leave_nothing()
    ensures { (s : RelayState) (f : RelayTraffic) → phase s ≡ Ending → s.end.status ≡ 0
        → Stands s → IsRelaying s f → HasPassed s f }
{}

/// What a stage asks for alone: the exit has the status, and all that is due is written, and sent on only where nothing is.
pub fn asking_rows()
    ensures exited { (s : RelayState) → AsksAt stage.Leaving s (Exit 0) → ⊥ }
    ensures status { (s : RelayState) → s.end.status ≡ 1 → AsksAt stage.Exiting s (Exit 0) → ⊥ }
    ensures kept { (s : RelayState) → AsksAt stage.Timing s (Keep Told []) → ⊥ }
    ensures turned { (s : RelayState) → AsksAt stage.PassingUp s (Pass Client []) → ⊥ }
    ensures whole { (s : RelayState) → s.talk.relay ≡ Past (5 ∷ 7 ∷ []) [] []
        → AsksAt stage.PassingUp s (Pass Server (5 ∷ [])) → ⊥ }
    ensures due { (s : RelayState) → s.talk.relay ≡ Past [] [] (9 ∷ [])
        → AsksAt stage.Telling s (Append Told []) → ⊥ }
    ensures held { Sends (Past [] (7 ∷ []) (9 ∷ [])) (Pass Client (7 ∷ [])) → ⊥ }
    ensures first { (t : RelayTalk) (e : RelayEnd) → t.relay ≡ Past (5 ∷ []) [] (9 ∷ [])
        → IsAt stage.PassingUp t e → ⊥ }
    ensures down { (t : RelayTalk) (e : RelayEnd) → t.relay ≡ Past [] (7 ∷ []) (9 ∷ [])
        → IsAt stage.PassingDown t e → ⊥ }
{}

/// A status of 0 is refused after a failure, and while a connection is to come; what fails is the told file, the port and an end, but neither the
/// log nor a signal; and a connection counts only when it was left.
pub fn ending_rows()
    ensures early { IsVerdict (record { status = 0; left = 1 }) → ⊥ }
    ensures told { must_fail stage.Telling (Failed Full) ≡ true }
    ensures unlistened { must_fail stage.Listening (Failed Full) ≡ true }
    ensures broken { must_fail stage.HearingServer (Failed Full) ≡ true }
    ensures signal { must_fail stage.HearingServer (Failed Interrupted) ≡ false }
    ensures log { must_fail stage.Logging (Failed Full) ≡ false }
    ensures kept { (s t : RelayState) → s.end.status ≡ 1 → t.end.status ≡ 0
        → Fails s Done t → ⊥ }
    ensures uncounted { (e f : RelayEnd) → e.left ≡ 2 → f.left ≡ 1
        → Counts stage.Accepting e f → ⊥ }
    ensures counted { (e f : RelayEnd) → e.left ≡ 2 → f.left ≡ 0
        → Counts stage.Leaving e f → ⊥ }
{}

/// No connection ends well while anything waits for the server, or is to be written, or waits for a client that has not ended what it sends; and a
/// client has ended that only if it was answered so, on this connection.
pub fn leaving_rows()
    ensures up { (t : RelayTalk) (e : RelayEnd) → t.relay ≡ Past (5 ∷ []) [] [] → e.status ≡ 0
        → IsAt stage.Forcing t e → ⊥ }
    ensures due { (t : RelayTalk) (e : RelayEnd) → t.relay ≡ Past [] [] (9 ∷ []) → e.status ≡ 0
        → IsAt stage.Settling t e → ⊥ }
    ensures down { (t : RelayTalk) (e : RelayEnd) → t.relay ≡ Past [] (7 ∷ []) []
        → t.has_ended ≡ false → e.status ≡ 0 → IsAt stage.Leaving t e → ⊥ }
    ensures server { (t u : RelayTalk) → t.has_ended ≡ false → u.has_ended ≡ true
        → EndsAt stage.HearingServer End t u → ⊥ }
    ensures silent { (t u : RelayTalk) → t.has_ended ≡ false → u.has_ended ≡ true
        → EndsAt stage.HearingClient Nothing t u → ⊥ }
    ensures next { (t u : RelayTalk) → u.has_ended ≡ true
        → EndsAt stage.Accepting Done t u → ⊥ }
{}

/// The second connection has the number 2, and no number changes unless a client is taken; nothing is listened for before the told file was made, and
/// no client is taken before it has begun.
pub fn beginning_rows()
    ensures second { (t u : RelayTalk) → t.number ≡ 1 → u.number ≡ 1
        → Numbers stage.Accepting Done t u → ⊥ }
    ensures untaken { (t u : RelayTalk) → t.number ≡ 1 → u.number ≡ 2
        → Numbers stage.Accepting Short t u → ⊥ }
    ensures unmade { (o : RelayOutside) → o.is_made ≡ false
        → ReadyAt (phase_of stage.Listening) 0 o → ⊥ }
    ensures unbegun { (o : RelayOutside) → o.is_begun ≡ false
        → ReadyAt (phase_of stage.Accepting) 0 o → ⊥ }
    ensures recorded { (o : RelayOutside) → o.is_begun ≡ false
        → ReadyAt (phase_of stage.Creating) 1 o → ⊥ }
{}

/// What is received joins what came before from that end, and what is sent what was sent to the other; text counts as told once it was added; a new
/// connection has no traffic; and the told file is discarded only if it cannot be written, which counts.
pub fn passing_rows()
    ensures received { (f : RelayTraffic) → f.from_client ≡ 5 ∷ []
        → (passed (event_of stage.HearingClient (Bytes (7 ∷ []))) (Past [] [] []) f).from_client
        ≡ 5 ∷ 7 ∷ [] }
    ensures sent { (f : RelayTraffic) → f.to_server ≡ 3 ∷ []
        → (passed (event_of stage.PassingUp (Took 1)) (Past (5 ∷ 7 ∷ []) [] []) f).to_server
        ≡ 3 ∷ 5 ∷ [] }
    ensures told { (f : RelayTraffic) → f.told ≡ []
        → (passed (event_of stage.Telling Done) (Past [] [] (9 ∷ [])) f).told ≡ 9 ∷ [] }
    ensures untold { (f : RelayTraffic)
        → passed (event_of stage.Telling (Failed Full)) (Past [] [] (9 ∷ [])) f ≡ f }
    ensures taken { (f : RelayTraffic)
        → passed (event_of stage.Accepting Done) (Past [] [] []) f ≡ nothing_passed }
    ensures lost { (s t : RelayState) → s.talk.is_told ≡ true → t.talk.is_told ≡ false
        → s.stage ≡ stage.Telling → Keeps s Done t → ⊥ }
    ensures unsaid { (s t : RelayState) → s.talk.is_told ≡ true → t.talk.is_told ≡ false
        → t.end.status ≡ 0 → Keeps s (Failed Full) t → ⊥ }
{}

/// At its end a relay asks for at most six effects, the exit included, whatever is answered (`RelaySession::take`): after five answers only its
/// exit is left.
pub fn relays_exit()
    ensures { (n : ℕ) (s t : RelayState) → (relay_ahead s).ends ≡ true
        → After n (relay_ahead s) (relay_ahead t) → 5 ≤ n → t.stage ≡ stage.Exiting }
{}

/// At the end the told file is left, each file of a recording is removed once, and then a message is said, once; and the exit is the last.
pub fn exit_rows()
    ensures most { (n : RelayStage) → relay_ahead_at stage.Discarding n 3 ≡ at_end 5 }
    ensures left { (n : RelayStage) → Nears (relay_ahead_at stage.Discarding n 3)
        (relay_ahead_at stage.Removing stage.Exiting 3) }
    ensures again { (m n : RelayStage) → Nears (relay_ahead_at stage.Discarding m 0)
        (relay_ahead_at stage.Discarding n 0) → ⊥ }
    ensures unmade { (m n : RelayStage) → Nears (relay_ahead_at stage.Discarding m 0)
        (relay_ahead_at stage.Parting n 0) }
    ensures removed { Nears (relay_ahead_at stage.Removing stage.Exiting 2)
        (relay_ahead_at stage.Removing stage.Exiting 1) }
    ensures twice { Nears (relay_ahead_at stage.Removing stage.Exiting 2)
        (relay_ahead_at stage.Removing stage.Exiting 2) → ⊥ }
    ensures last { Nears (relay_ahead_at stage.Removing stage.Exiting 1)
        (relay_ahead_at stage.Saying stage.Exiting 0) }
    ensures said { Nears (relay_ahead_at stage.Saying stage.Exiting 0)
        (relay_ahead_at stage.Saying stage.Exiting 0) → ⊥ }
    ensures parted { (m n : RelayStage) → Nears (relay_ahead_at stage.Parting m 0)
        (relay_ahead_at stage.Parting n 0) → ⊥ }
    ensures taken { (m n : RelayStage) → Nears (relay_ahead_at stage.Parting m 0)
        (relay_ahead_at stage.Accepting n 0) → ⊥ }
    ensures exit { (m n : RelayStage) → Nears (relay_ahead_at stage.Exiting m 0)
        (relay_ahead_at stage.Exiting n 0) }
    ensures message { (m n : RelayStage) → Nears (relay_ahead_at stage.Exiting m 0)
        (relay_ahead_at stage.Parting n 0) → ⊥ }
    ensures relaying { (m n : RelayStage) → Nears
        (relay_ahead_at stage.Saying stage.Connecting 0) (relay_ahead_at m n 0) }
    ensures recording { (m n : RelayStage) → Nears
        (relay_ahead_at stage.Removing stage.Connecting 1) (relay_ahead_at m n 3) }
{}
