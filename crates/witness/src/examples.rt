// Examples: lines that are written out as values, and what is known of each of their contacts. Each falls if its rule loses a word.

ghost use Rattle.std.specs.Prelude.{◌≡◌, [], ◌∷◌, true, false, codes, Some, None, pos, negsuc};
ghost use Rattle.witness.specs.Names.{Machine, Part, Ack, Done, Error, known_in, asks, tool, other_tool, machine, part, zero_point, touch, foreign, asking, event, untagged, ack, gives, ends, fails, hears_event, given, done, touched, no_response, ready, both, neither, Known, Asking, Foreign};
ghost use Rattle.dme_line.specs.declared.commands.Command.TheVariants as command;

/// Two changes whose ends cross: neither is known, nor what had begun before; a change that begins after that is.
pub fn changes_must_end_in_turn()
    ensures crosswise { known_in false (machine 2 ∷ tool 4 ∷ other_tool 5 ∷ touch 6 ∷ tool 7
        ∷ touch 8 ∷ done 2 ∷ ack 4 ∷ ack 5 ∷ ends 5 ∷ ends 4 ∷ touched 6 ∷ done 7 ∷ touched 8 ∷ [])
        ≡ neither ∷ (Some (codes "P1"), None) ∷ [] }
    ensures in_turn { known_in false (machine 2 ∷ other_tool 4 ∷ tool 5 ∷ touch 6 ∷ done 2 ∷ ack 4
        ∷ ack 5 ∷ ends 4 ∷ ends 5 ∷ touched 6 ∷ []) ≡ both ∷ [] }
    ensures late_end { known_in true (machine 1 ∷ done 1 ∷ tool 2 ∷ touch 3 ∷ ack 3 ∷ gives 3
        ∷ ack 2 ∷ ends 2 ∷ ends 3 ∷ []) ≡ neither ∷ [] }
    ensures data_in_turn { known_in true (ready ∷ touch 3 ∷ ack 3 ∷ other_tool 4 ∷ gives 3 ∷ ends 3
        ∷ []) ≡ both ∷ [] }
{}

/// A change holds if its marks are just `&` and then `%`. One that fails below a touch leaves that touch what it has.
pub fn changes_have_just_two_marks()
    ensures not_received { known_in true (machine 2 ∷ done 2 ∷ tool 1 ∷ ends 1 ∷ touch 3 ∷ touched 3
        ∷ []) ≡ (None, Some Machine) ∷ [] }
    ensures twice { known_in true (machine 2 ∷ done 2 ∷ tool 1 ∷ ack 1 ∷ done 1 ∷ touch 3
        ∷ touched 3 ∷ []) ≡ (None, Some Machine) ∷ [] }
    ensures failed { known_in true (machine 2 ∷ done 2 ∷ tool 1 ∷ ack 1 ∷ fails 1 ∷ ends 1 ∷ touch 3
        ∷ touched 3 ∷ []) ≡ (None, Some Machine) ∷ [] }
    ensures unanswered { known_in true (machine 2 ∷ done 2 ∷ tool 1 ∷ touch 3 ∷ touched 3 ∷ [])
        ≡ neither ∷ [] }
    ensures refused_below { known_in false (tool 1 ∷ machine 2 ∷ touch 3 ∷ other_tool 4
        ∷ asks 5 command.ClearAllErrors ∷ touch 6 ∷ done 1 ∷ done 2 ∷ ack 3 ∷ ack 4 ∷ fails 4
        ∷ ends 4 ∷ gives 3 ∷ ends 3 ∷ done 5 ∷ touched 6 ∷ []) ≡ both ∷ (None, Some Machine) ∷ [] }
{}

/// A line that this profile does not know may change anything for what stands below it; one that only asks changes nothing.
pub fn foreign_lines_forget()
    ensures foreign { known_in true (ready ∷ foreign 3 ∷ done 3 ∷ touch 4 ∷ touched 4 ∷ [])
        ≡ neither ∷ [] }
    ensures asking { known_in true (ready ∷ asking 3 ∷ touch 4 ∷ touched 4 ∷ []) ≡ both ∷ [] }
    ensures below { known_in true (ready ∷ touch 3 ∷ foreign 4 ∷ ack 3 ∷ ack 4 ∷ gives 3 ∷ ends 3
        ∷ []) ≡ both ∷ [] }
    ensures refused_early { known_in true (ready ∷ touch 3 ∷ foreign 4 ∷ ack 3 ∷ fails 4 ∷ gives 3
        ∷ ends 3 ∷ []) ≡ neither ∷ [] }
    ensures waited_for { known_in true (ready ∷ foreign 3 ∷ touch 4 ∷ touched 4 ∷ ack 3 ∷ [])
        ≡ neither ∷ [] }
    ensures cured { known_in true (ready ∷ foreign 3 ∷ done 3 ∷ tool 4 ∷ machine 5 ∷ done 4 ∷ done 5
        ∷ touch 6 ∷ touched 6 ∷ []) ≡ both ∷ [] }
{}

/// A line without a valid tag, or a foreign one under an event tag, may be carried out at any time from when it was sent. Where the order is
/// not known it may have been sent at any time after what stands above it.
pub fn lines_at_once_forget()
    ensures untagged { known_in true (ready ∷ untagged ∷ touch 3 ∷ touched 3 ∷ []) ≡ neither ∷ [] }
    ensures in_between { known_in true (ready ∷ touch 3 ∷ ack 3 ∷ gives 3 ∷ untagged ∷ ends 3 ∷ [])
        ≡ neither ∷ [] }
    ensures event { known_in true (ready ∷ touch 3 ∷ ack 3 ∷ gives 3
        ∷ event 42 (Foreign (codes "x")) ∷ ends 3 ∷ []) ≡ neither ∷ [] }
    ensures before_the_end { known_in true (machine 2 ∷ done 2 ∷ tool 1 ∷ ack 1 ∷ untagged ∷ ends 1
        ∷ touch 3 ∷ touched 3 ∷ []) ≡ neither ∷ [] }
    ensures above { known_in true (untagged ∷ ready ∷ touch 3 ∷ touched 3 ∷ []) ≡ both ∷ [] }
    ensures after { known_in true (ready ∷ touch 3 ∷ touched 3 ∷ untagged ∷ []) ≡ both ∷ [] }
    ensures order_not_known { known_in false (tool 1 ∷ machine 2 ∷ touch 3
        ∷ event 42 (Foreign (codes "x")) ∷ tool 5 ∷ machine 6 ∷ touch 7 ∷ done 1 ∷ done 2 ∷ ack 3
        ∷ hears_event 42 Ack ∷ hears_event 42 Done ∷ gives 3 ∷ ends 3 ∷ done 5 ∷ done 6 ∷ touched 7
        ∷ []) ≡ neither ∷ both ∷ [] }
    ensures order_known { known_in true (ready ∷ touch 3 ∷ touched 3
        ∷ event 42 (Foreign (codes "x")) ∷ hears_event 42 Ack ∷ hears_event 42 Done ∷ tool 5
        ∷ machine 6 ∷ done 5 ∷ done 6 ∷ touch 7 ∷ touched 7 ∷ []) ≡ both ∷ both ∷ [] }
    ensures abort { known_in true (ready ∷ event 9 (Known command.AbortE) ∷ touch 3 ∷ touched 3
        ∷ []) ≡ both ∷ [] }
{}

/// A session begins and ends with anything; homing may put the tool down, and leaves the frame.
pub fn sessions_and_homing_forget()
    ensures homed { known_in false (tool 1 ∷ machine 2 ∷ asks 3 command.Home ∷ touch 4 ∷ tool 5
        ∷ touch 6 ∷ asks 7 command.EndSession ∷ touch 8 ∷ done 1 ∷ done 2 ∷ done 3 ∷ touched 4
        ∷ done 5 ∷ touched 6 ∷ done 7 ∷ touched 8 ∷ []) ≡ (None, Some Machine) ∷ both ∷ neither
        ∷ [] }
    ensures begun { known_in true (ready ∷ asks 3 command.StartSession ∷ done 3 ∷ touch 4
        ∷ touched 4 ∷ []) ≡ neither ∷ [] }
{}

/// An error without a command, a mark that belongs to none and a line that is no response end what is known, but for what begins after them.
/// Data under an event tag that was used are a report.
pub fn what_nobody_asked_is_a_fault()
    ensures unasked { known_in false (tool 1 ∷ machine 2 ∷ touch 3 ∷ touch 4 ∷ tool 5 ∷ machine 6
        ∷ touch 7 ∷ hears_event 0 Error ∷ done 1 ∷ done 2 ∷ touched 3 ∷ hears_event 0 Error
        ∷ touched 4 ∷ done 5 ∷ done 6 ∷ touched 7 ∷ []) ≡ both ∷ neither ∷ both ∷ [] }
    ensures no_command { known_in true (ready ∷ ends 77 ∷ touch 3 ∷ touched 3 ∷ []) ≡ neither ∷ [] }
    ensures no_response { known_in true (ready ∷ touch 3 ∷ ack 3 ∷ gives 3 ∷ no_response ∷ ends 3
        ∷ []) ≡ neither ∷ [] }
    ensures report { known_in false (event 1 Asking ∷ tool 1 ∷ machine 2 ∷ touch 3
        ∷ hears_event 1 Ack ∷ hears_event 1 Done ∷ done 1 ∷ done 2 ∷ ack 3 ∷ hears_event 1 given
        ∷ gives 3 ∷ ends 3 ∷ []) ≡ both ∷ [] }
    ensures no_report { known_in true (ready ∷ hears_event 1 given ∷ touch 3 ∷ touched 3 ∷ [])
        ≡ neither ∷ [] }
    ensures early { known_in true (ready ∷ touched 3 ∷ touch 3 ∷ []) ≡ [] }
{}

/// A tag that is used again while it is in use, if the order is known, ends what is known for good. If it is not, the second use is in doubt
/// if the first one failed.
pub fn tags_are_used_once_at_a_time()
    ensures order_not_known { known_in false (machine 2 ∷ tool 5 ∷ other_tool 5 ∷ touch 6 ∷ done 2
        ∷ ack 5 ∷ fails 5 ∷ ends 5 ∷ done 5 ∷ touched 6 ∷ []) ≡ (None, Some Machine) ∷ [] }
    ensures order_known { known_in true (machine 2 ∷ tool 5 ∷ other_tool 5 ∷ touch 6 ∷ done 2
        ∷ ack 5 ∷ fails 5 ∷ ends 5 ∷ done 5 ∷ touched 6 ∷ []) ≡ neither ∷ [] }
    ensures for_good { known_in true (touch 9 ∷ touch 9 ∷ touched 9 ∷ touched 9 ∷ ready ∷ touch 3
        ∷ touched 3 ∷ []) ≡ neither ∷ neither ∷ neither ∷ [] }
    ensures ended { known_in true (ready ∷ touch 3 ∷ fails 3 ∷ ends 3 ∷ touch 3 ∷ touched 3 ∷ [])
        ≡ both ∷ [] }
    ensures touch { known_in false (tool 1 ∷ machine 2 ∷ touch 3 ∷ touch 3 ∷ done 1 ∷ done 2
        ∷ fails 3 ∷ ends 3 ∷ touched 3 ∷ []) ≡ neither ∷ [] }
    ensures second_end { known_in false (tool 1 ∷ machine 2 ∷ touch 3 ∷ touch 3 ∷ done 1 ∷ done 2
        ∷ touched 3 ∷ touched 3 ∷ []) ≡ both ∷ both ∷ [] }
{}

/// A part's frame has the zero point that was stored last before it was selected, until another is stored; the machine's frame stays.
pub fn part_frames_have_their_zero_point()
    ensures zero_points { known_in false (tool 1 ∷ zero_point 2 1 ∷ part 3 ∷ touch 4
        ∷ zero_point 5 2 ∷ touch 6 ∷ machine 7 ∷ zero_point 8 3 ∷ touch 9 ∷ done 1 ∷ done 2 ∷ done 3
        ∷ touched 4 ∷ done 5 ∷ touched 6 ∷ done 7 ∷ done 8 ∷ touched 9 ∷ [])
        ≡ (Some (codes "P1"), Some (Part (record { x = negsuc 0; y = pos 0; z = pos 0 })))
        ∷ (Some (codes "P1"), None) ∷ both ∷ [] }
    ensures failed_zero { known_in true (tool 1 ∷ zero_point 2 1 ∷ part 3 ∷ touch 4 ∷ done 1 ∷ ack 2
        ∷ fails 2 ∷ ends 2 ∷ done 3 ∷ touched 4 ∷ []) ≡ (Some (codes "P1"), None) ∷ [] }
    ensures another_session { known_in true (zero_point 1 1 ∷ asks 2 command.StartSession ∷ part 3
        ∷ tool 4 ∷ touch 5 ∷ done 1 ∷ done 2 ∷ done 3 ∷ done 4 ∷ touched 5 ∷ [])
        ≡ (Some (codes "P1"), None) ∷ [] }
    ensures not_selected { known_in true (tool 1 ∷ touch 3 ∷ done 1 ∷ touched 3 ∷ [])
        ≡ (Some (codes "P1"), None) ∷ [] }
{}

/// A contact is reported at the end of a touch whose marks are just `&`, `#` and `%`.
pub fn contacts_have_just_three_marks()
    ensures no_ack { known_in true (ready ∷ touch 3 ∷ gives 3 ∷ ends 3 ∷ []) ≡ [] }
    ensures no_data { known_in true (ready ∷ touch 3 ∷ done 3 ∷ []) ≡ [] }
    ensures failed { known_in true (ready ∷ touch 3 ∷ ack 3 ∷ gives 3 ∷ fails 3 ∷ ends 3 ∷ [])
        ≡ [] }
    ensures not_ended { known_in true (ready ∷ touch 3 ∷ ack 3 ∷ gives 3 ∷ []) ≡ [] }
{}
