// Examples: histories that are written out. What keeps the premises; and what is known that was not so where one of them is broken.

ghost use Rattle.std.specs.Prelude.{◌≡◌, [], ◌∷◌, reverse, Some, None};
ghost use Rattle.witness_laws.specs.Names.{Machine, known, frame_had, p1, p2, part_frame, plain, in_part, crosswise, sent_untagged, sent_foreign, homed, fell_off, late_end, used_again, taken_again, acts_late, touch_takes, zero_selects, change_first, once_late, not_made, not_held, two_clients, no_contact, BreaksWithin, BreaksOrder, BreaksBefore, BreaksMade, BreaksReported, BreaksTouched, Keeps, KeepsUnlessCrossed, Shows};

/// What is known is so.
pub fn known_in_ordinary_histories()
    ensures plain { Shows Keeps plain ((p1, Some Machine) ∷ []) 2 (Some p1) }
    ensures plain_frame { frame_had 2 plain ≡ Some (Some Machine) }
    ensures part { Shows Keeps in_part ((None, part_frame) ∷ []) 2 (Some None) }
    ensures part_frame { frame_had 2 in_part ≡ Some part_frame }
    ensures again { Shows Keeps taken_again ((p1, None) ∷ []) 2 (Some p1) }
{}

/// A rule that would let these be known would be wrong: the server keeps the premises, and the last change that ended well is not the tool.
pub fn what_servers_may_do()
    ensures crosswise { Shows Keeps crosswise ((None, None) ∷ []) 2 (Some p1) }
    ensures untagged { Shows Keeps sent_untagged ((None, None) ∷ []) 2 (Some p2) }
    ensures foreign { Shows Keeps sent_foreign ((None, None) ∷ []) 2 (Some p2) }
    ensures homed { Shows Keeps homed ((None, None) ∷ []) 2 (Some None) }
    ensures fell_off { Shows Keeps fell_off ((None, None) ∷ []) 1 (Some None) }
    ensures late_end { Shows Keeps late_end ((None, None) ∷ []) 2 (Some p2) }
{}

/// Once a tag was used while in use, a server need keep nothing more.
pub fn once_a_tag_is_used_again()
    ensures again { Shows KeepsUnlessCrossed used_again ((None, None) ∷ []) 2 (Some p1) }
    ensures again_not { Keeps (reverse used_again) → ⊥ }
{}

/// Each history breaks one premise and no other, and something is known of its contacts that was not so.
pub fn each_premise_is_needed()
    ensures late { Shows BreaksWithin acts_late ((p1, None) ∷ []) 1 (Some p2) }
    ensures touch { Shows BreaksWithin touch_takes ((p1, None) ∷ (p1, None) ∷ []) 2 (Some None) }
    ensures zero { Shows BreaksWithin zero_selects ((None, Some Machine) ∷ []) 2 (Some None) }
    ensures zero_frame { frame_had 2 zero_selects ≡ Some None }
    ensures first { Shows BreaksOrder change_first ((p1, None) ∷ []) 1 (Some p2) }
    ensures once { Shows BreaksBefore once_late ((p1, None) ∷ []) 2 (Some p2) }
    ensures made { Shows BreaksMade not_made ((p1, None) ∷ []) 2 (Some p2) }
    ensures held { Shows BreaksMade not_held ((p1, None) ∷ []) 1 (Some None) }
    ensures two { Shows BreaksReported two_clients ((p1, None) ∷ []) 1 (Some p2) }
    ensures none { Shows BreaksTouched no_contact ((p1, None) ∷ []) 1 None }
{}
