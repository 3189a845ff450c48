// Examples: the first break in lines that are written out as values.

ghost use Rattle.std.specs.Prelude.{◌≡◌, [], ◌∷◌, ◌++◌, Some, None};
ghost use Rattle.witness.specs.JudgementNames.{Std, Event, breaks, asks, begun, received, given, complete, error, refused, warning, abort, abort_received, abort_complete, cleared_end, again, crowd, all_received, client_breaks, server_breaks, ClientKeeps, ServerKeeps, touch, moves, Client, Server, client_found, server_found, seen_lines};
ghost use Rattle.dme_line.specs.declared.commands.Kind.TheVariants as kind;
ghost use Rattle.witness.specs.declared.judged_lines.Data.TheVariants as data_is;
ghost use Rattle.witness.specs.declared.judged_lines.Heard.TheVariants as heard;
ghost use Rattle.witness.specs.declared.judged_lines.Reply.TheVariants as reply;
ghost use Rattle.witness.specs.declared.judged_lines.Sent.TheVariants as sent;
ghost use Rattle.witness.specs.declared.judged_lines.Severity.TheVariants as severity;
ghost use Rattle.witness.specs.declared.rules.Rule.TheVariants as rule;

/// A tag is in use as long as the server's recording has fewer ends of it than the lines above have uses.
pub fn tags_end_before_they_are_used_again()
    ensures other { client_breaks (begun ++ asks 1 kind.Home ∷ []) (complete 2 ∷ [])
        ≡ breaks 2 rule.TagInUse }
    ensures first_use { ClientKeeps (begun ++ asks 2 kind.Home ∷ []) (refused ∷ received 2 ∷ []) }
    ensures refused_otherwise { ClientKeeps again (received 1 ∷ complete 1 ∷ refused ∷ received 2
        ∷ []) }
    ensures not_refused { ClientKeeps again (received 1 ∷ complete 1 ∷ received 2 ∷ []) }
    ensures received { ClientKeeps again (received 1 ∷ refused ∷ complete 1 ∷ received 1
        ∷ received 2 ∷ []) }
    ensures nothing_later { ClientKeeps again (received 1 ∷ refused ∷ complete 1 ∷ []) }
    ensures third_use { client_breaks (asks 1 kind.ClearAllErrors ∷ asks 1 kind.StartSession
        ∷ asks 1 kind.Home ∷ asks 2 kind.Home ∷ [])
        (received 1 ∷ complete 1 ∷ received 1 ∷ refused ∷ complete 1 ∷ received 2 ∷ [])
        ≡ breaks 3 rule.TagInUse }
{}

/// One command runs, and at most 64 wait.
pub fn commands_wait_in_a_queue()
    ensures not_full { ClientKeeps (crowd 65) (all_received 65) }
    ensures not_received { ClientKeeps (crowd 66) (all_received 65) }
    ensures ended { ClientKeeps (crowd 66) (all_received 65 ++ complete 2 ∷ received 67 ∷ []) }
    ensures ended_later { client_breaks (crowd 66) (all_received 66 ++ complete 2 ∷ [])
        ≡ breaks 67 rule.QueueFull }
    ensures abort { ClientKeeps (crowd 65 ++ abort ∷ []) (all_received 65 ++ abort_received ∷ []) }
    ensures abort_above { ClientKeeps (abort ∷ crowd 65) (abort_received ∷ all_received 65) }
    ensures abort_ended { client_breaks (crowd 66)
        (all_received 65 ++ abort_complete ∷ received 67 ∷ []) ≡ breaks 67 rule.QueueFull }
{}

/// Commands come in a session. One that failed neither begins nor ends it.
pub fn commands_are_in_a_session()
    ensures again { ClientKeeps (begun ++ asks 2 kind.EndSession ∷ asks 3 kind.StartSession
        ∷ []) [] }
{}

/// A line of the server answers a command.
pub fn lines_of_the_server_are_responses()
    ensures unasked { ServerKeeps touch (refused ∷ []) }
    ensures event { server_breaks touch (heard.Response (Event 1) (reply.Error severity.Three) ∷ [])
        ≡ breaks 1 rule.UnknownTag }
{}

/// Marks come in their order.
pub fn marks_have_an_order()
    ensures failed { ServerKeeps touch (received 1 ∷ error 1 ∷ complete 1 ∷ []) }
    ensures after_an_error { server_breaks touch (received 1 ∷ error 1 ∷ given 1 data_is.Point ∷ [])
        ≡ breaks 3 rule.OutOfOrder }
{}

/// Commands end one after another, and the n-th end of a tag is that of its n-th use. Once a line was refused without its tag, it is not known which
/// command a further use of a tag is.
pub fn ends_come_in_turn()
    ensures in_turn { ServerKeeps moves (received 1 ∷ received 2 ∷ complete 1 ∷ complete 2 ∷ []) }
    ensures failed { ServerKeeps moves (received 1 ∷ received 2 ∷ warning 1 ∷ complete 2 ∷ []) }
    ensures second_use { server_breaks (asks 1 kind.GoTo ∷ asks 1 kind.PtMeas ∷ [])
        (received 1 ∷ complete 1 ∷ received 1 ∷ complete 1 ∷ []) ≡ breaks 4 rule.NoData }
    ensures refused { ServerKeeps (asks 1 kind.GoTo ∷ asks 1 kind.GoTo ∷ asks 1 kind.IsHomed ∷ [])
        (received 1 ∷ refused ∷ complete 1 ∷ received 1 ∷ given 1 data_is.Homed ∷ complete 1 ∷ []) }
{}

/// An abort ends once the commands above it have failed or ended.
pub fn aborts_end_after_what_they_stop()
    ensures failed { ServerKeeps (asks 1 kind.GoTo ∷ abort ∷ asks 2 kind.GoTo ∷ []) (received 1
        ∷ abort_received ∷ error 1 ∷ abort_complete ∷ []) }
    ensures refused { ServerKeeps (asks 1 kind.GoTo ∷ abort ∷ []) (refused ∷ received 1
        ∷ abort_received ∷ abort_complete ∷ []) }
    ensures unread { ServerKeeps (asks 1 kind.GoTo ∷ sent.Unread (Event 9) kind.AbortE ∷ [])
        (received 1 ∷ abort_received ∷ abort_complete ∷ []) }
{}

/// After an error of severity 3 nothing is carried out but what ran, until the errors are cleared.
pub fn errors_stop_what_waits()
    ensures fails { ServerKeeps moves (received 1 ∷ received 2 ∷ error 1 ∷ complete 1 ∷ error 2
        ∷ complete 2 ∷ []) }
    ensures ran { ServerKeeps moves (received 1 ∷ received 2 ∷ error 2 ∷ complete 2 ∷ complete 1
        ∷ []) }
    ensures event { ServerKeeps (abort ∷ moves) (heard.Response (Event 9)
        (reply.Error severity.Three) ∷ received 1 ∷ received 2 ∷ complete 1 ∷ complete 2 ∷ []) }
    ensures aborted { ServerKeeps (moves ++ abort ∷ []) (received 1 ∷ received 2 ∷ error 1
        ∷ complete 1 ∷ error 2 ∷ complete 2 ∷ abort_received ∷ abort_complete ∷ []) }
    ensures cleared_before { server_breaks (asks 3 kind.ClearAllErrors ∷ moves)
        (received 3 ∷ complete 3 ∷ received 1 ∷ received 2 ∷ error 1 ∷ complete 1 ∷ complete 2 ∷ [])
        ≡ breaks 7 rule.NotCleared }
    ensures cleared_later { server_breaks (moves ++ asks 3 kind.ClearAllErrors ∷ [])
        (received 1 ∷ received 2 ∷ error 1 ∷ complete 1 ∷ complete 2 ∷ [])
        ≡ breaks 5 rule.NotCleared }
    ensures refused { ServerKeeps moves (received 1 ∷ refused ∷ received 2 ∷ error 1 ∷ complete 1
        ∷ complete 2 ∷ []) }
{}

/// A session ends after all commands of it have ended.
pub fn sessions_end_after_their_commands()
    ensures inside { ServerKeeps moves (received 1 ∷ warning 1 ∷ received 2 ∷ complete 2 ∷ []) }
    ensures later { ServerKeeps (asks 1 kind.EndSession ∷ asks 2 kind.GoTo ∷ []) (received 1
        ∷ received 2 ∷ warning 2 ∷ complete 1 ∷ []) }
    ensures event { ServerKeeps (abort ∷ asks 1 kind.EndSession ∷ []) (abort_received ∷ received 1
        ∷ complete 1 ∷ []) }
    ensures refused { ServerKeeps cleared_end (received 1 ∷ refused ∷ error 1 ∷ received 2
        ∷ complete 2 ∷ received 3 ∷ complete 3 ∷ []) }
{}

/// The order of the lines shows a reply before its command, and a tag that is used again before its end.
pub fn lines_have_an_order()
    ensures by_bytes { seen_lines ((Client, 3) ∷ (Server, 3) ∷ (Client, 4) ∷ (Server, 4) ∷ [])
        ([] ∷ (7 ∷ []) ∷ []) ([] ∷ [] ∷ []) ≡ 1 ∷ 2 ∷ [] }
    ensures torn { seen_lines ((Client, 1) ∷ (Server, 2) ∷ (Client, 1) ∷ []) ([] ∷ []) ([] ∷ [])
        ≡ 0 ∷ [] }
    ensures early { server_found (0 ∷ 1 ∷ []) touch (received 1 ∷ error 1 ∷ []) None
        ≡ breaks 1 rule.NotSent }
    ensures in_time { server_found (1 ∷ []) touch (received 1 ∷ []) None ≡ None }
    ensures second_use { server_found (1 ∷ 1 ∷ 1 ∷ []) (asks 1 kind.Home ∷ asks 1 kind.Home ∷ [])
        (received 1 ∷ complete 1 ∷ received 1 ∷ []) None ≡ breaks 3 rule.NotSent }
    ensures in_use { client_found (2 ∷ 3 ∷ 3 ∷ []) again None
        (received 1 ∷ complete 1 ∷ received 1 ∷ []) ≡ breaks 2 rule.TagInUse }
    ensures ended { client_found (1 ∷ 1 ∷ 2 ∷ []) again None
        (received 1 ∷ complete 1 ∷ received 1 ∷ []) ≡ None }
{}
