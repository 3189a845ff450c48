// What the open commands have to do with the client of `protocol_model`. These functions do nothing: their contracts are the laws.

ghost use Rattle.std.specs.Prelude.{◌≡◌, false, List, Some, None, Ok, Err};
ghost use Rattle.dme_tags.specs.Names.{is_event_kind, Std, Event, Mark, Effect, asks_data, fits, marks_of, IsRepliesFront, AreAtFront, Client, heard_on, next_number, Cause, OpenValue, heard, next_tag, number_of, with_drawn, ArePassedOver, Call, taken_under, IsTableOf, table_behind};

use dme_line::{Kind, Tag};

/// A client whose table has these open commands hears a mark as they do. Where they take it in, its table has the new ones, and its
/// tally the effect; where they refuse it, so does the client, for the same cause.
#[tactic(auto, using(crate::proofs::Tables::taken, crate::proofs::Tables::kept, crate::proofs::Tables::refused))]
pub fn client_hears_the_same()
    ensures taken { (c : Client) (o next : OpenValue) (tag : Tag) (m : Mark) (effect : Effect)
        → IsTableOf c.table o
        → heard o tag m ≡ Ok (next, effect) → heard_on c.program.features c.table tag m
        ≡ Ok (table_behind c next tag effect) }
    ensures kept { (c : Client) (o next : OpenValue) (tag : Tag) (m : Mark) (effect : Effect)
        → IsTableOf c.table o
        → heard o tag m ≡ Ok (next, effect) → IsTableOf (table_behind c next tag effect) next }
    ensures refused { (c : Client) (o : OpenValue) (tag : Tag) (m : Mark) (cause : Cause)
        → IsTableOf c.table o
        → heard o tag m ≡ Err cause → heard_on c.program.features c.table tag m ≡ Err cause }
{}

/// The tag that is drawn for a command has the number that a client draws: under a standard tag, for all but an abort, which has an
/// event tag.
#[tactic(auto, using(crate::proofs::Tables::no_event))]
pub fn client_draws_the_same()
    ensures standard { (o : OpenValue) (kind : Kind) (tag : Tag) → is_event_kind kind ≡ false
        → next_tag o kind ≡ Some tag
        → (next_number Std o.standard o.drawn ≡ Some (number_of tag))
        × (tag ≡ Std (number_of tag)) }
    ensures no_standard { (o : OpenValue) (kind : Kind) → is_event_kind kind ≡ false
        → next_tag o kind ≡ None
        → next_number Std o.standard o.drawn ≡ None }
    ensures event { (o : OpenValue) (tag : Tag) → next_tag o Kind.AbortE ≡ Some tag
        → (next_number Event o.event o.event_drawn ≡ Some (number_of tag))
        × (tag ≡ Event (number_of tag)) }
    ensures no_event { (o : OpenValue) → next_tag o Kind.AbortE ≡ None
        → next_number Event o.event o.event_drawn ≡ None }
{}

/// The marks that calls take in under a tag, from its draw up to its `%`, are the first marks of a reply to its command, whatever other
/// calls are made in between and whatever marks are refused. Data, and the end of a command that has not failed, are taken in only while
/// it is next.
#[tactic(auto, using(crate::proofs::Followed::in_language, crate::proofs::Followed::at_front))]
pub fn marks_of_a_command_are_its_replies()
    ensures in_language { (o : OpenValue) (kind : Kind) (tag : Tag) (calls : List Call)
        → next_tag o kind ≡ Some tag
        → IsRepliesFront (asks_data kind) (fits kind) (marks_of
        (taken_under tag (with_drawn o tag kind) calls)) }
    ensures at_front { (o : OpenValue) (kind : Kind) (tag : Tag) (calls : List Call)
        → next_tag o kind ≡ Some tag
        → AreAtFront false (taken_under tag (with_drawn o tag kind) calls) }
{}

/// No number is passed over though its tag is free: each one after that of the tag drawn last and before that of the next one is held,
/// where 1 comes again after 9999.
#[tactic(auto, using(crate::proofs::Passing::passed_over))]
pub fn numbers_passed_over_are_held()
    ensures { (o : OpenValue) (kind : Kind) (tag : Tag) → next_tag o kind ≡ Some tag
        → ArePassedOver tag o }
{}
