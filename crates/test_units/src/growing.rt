// Files that grow: those that were locked before, and whether they still stand.

use crate::hands::{does, fails, gives, has};
use dme_hands::RealHands;
use effects::{Answer, Cause, Effect, Growth};
use std::fs;

/// Whether the file of this name is locked: other hands cannot lock it.
fn is_locked(rt: &HostRuntime, name: &str) -> bool {
    let mut other = RealHands::new(*rt);
    fails(&mut other, Effect::Hold(Growth::Told, name), Cause::Locked)
}

#[test]
fn a_file_is_locked_from_when_it_is_held_until_the_hands_are_gone(rt: HostRuntime) {
    let (held, held_beside) = ("/tmp/dme_hands.held", "/tmp/dme_hands.held.new");
    assert!(rt; fs::write(&rt, held, b"old\n".as_slice()).is_ok());
    let mut hands = RealHands::new(rt);
    assert!(rt; does(&mut hands, Effect::Hold(Growth::Features, held)));
    assert!(rt; is_locked(&rt, held));
    let make = Effect::Make(Growth::Features, held, held_beside, b"HEAD\n".as_slice());
    assert!(rt; gives(&mut hands, make, Answer::Found));
    assert!(rt; is_locked(&rt, held));
    assert!(rt; has(&rt, held, b"old\n".as_slice()));
    assert!(rt; has(&rt, held_beside, b"HEAD\n".as_slice()));
    assert!(rt; does(&mut hands, Effect::Begin(Growth::Features)));
    assert!(rt; is_locked(&rt, held));
    let append = Effect::Append(Growth::Features, b"one\n".as_slice());
    assert!(rt; does(&mut hands, append));
    assert!(rt; has(&rt, held, b"HEAD\none\n".as_slice()));
    drop(hands);
    assert!(rt; !is_locked(&rt, held));
    assert!(rt; fs::remove_file(&rt, held).is_ok());
}

#[test]
fn a_held_file_that_is_let_go_is_as_it_was(rt: HostRuntime) {
    let (left, first) = ("/tmp/dme_hands.left", "/tmp/dme_hands.first");
    assert!(rt; fs::write(&rt, left, b"old\n".as_slice()).is_ok());
    let mut hands = RealHands::new(rt);
    assert!(rt; does(&mut hands, Effect::Hold(Growth::Contacts, left)));
    assert!(rt; does(&mut hands, Effect::Hold(Growth::Record, first)));
    assert!(rt; gives(&mut hands, Effect::Exists(first), Answer::Found));
    assert!(rt; does(&mut hands, Effect::Discard(Growth::Contacts)));
    assert!(rt; does(&mut hands, Effect::Discard(Growth::Record)));
    assert!(rt; has(&rt, left, b"old\n".as_slice()));
    assert!(rt; !is_locked(&rt, left));
    assert!(rt; does(&mut hands, Effect::Exists(first)));
    assert!(rt; fs::remove_file(&rt, left).is_ok());
}

#[test]
fn a_held_file_whose_next_text_cannot_be_made_is_let_go(rt: HostRuntime) {
    let no_next = "/tmp/dme_hands.no_next";
    let mut hands = RealHands::new(rt);
    assert!(rt; does(&mut hands, Effect::Hold(Growth::Features, no_next)));
    let make = Effect::Make(Growth::Features, no_next, "/tmp", b"HEAD\n".as_slice());
    assert!(rt; fails(&mut hands, make, Cause::Taken));
    assert!(rt; does(&mut hands, Effect::Exists(no_next)));
    assert!(rt; does(&mut hands, Effect::Begin(Growth::Features)));
    assert!(rt; does(&mut hands, Effect::Exists(no_next)));
}

#[test]
fn a_record_that_has_begun_grows_and_stands_as_long_as_it_is_whole(rt: HostRuntime) {
    let (begun, begun_beside) = ("/tmp/dme_hands.begun", "/tmp/dme_hands.begun.new");
    assert!(rt; fs::write(&rt, begun, b"HEAD\n".as_slice()).is_ok());
    let mut hands = RealHands::new(rt);
    assert!(rt; does(&mut hands, Effect::Hold(Growth::Record, begun)));
    let fill = Effect::Fill(Growth::Record, b"HEAD\n".as_slice(), 5, 5);
    assert!(rt; does(&mut hands, fill));
    let keep = Effect::Keep(Growth::Record, b"act\n".as_slice());
    assert!(rt; does(&mut hands, keep));
    assert!(rt; has(&rt, begun, b"HEAD\nact\n".as_slice()));
    assert!(rt; is_locked(&rt, begun));
    assert!(rt; does(&mut hands, Effect::Stands(Growth::Record, 9)));
    let gone = Cause::Renamed;
    assert!(rt; fails(&mut hands, Effect::Stands(Growth::Record, 10), gone));
    assert!(rt; fails(&mut hands, Effect::Stands(Growth::Record, 8), gone));
    let other = Effect::Replace(begun, begun_beside, b"HEAD\nact\n".as_slice());
    assert!(rt; does(&mut hands, other));
    assert!(rt; fails(&mut hands, Effect::Stands(Growth::Record, 9), gone));
    assert!(rt; fails(&mut hands, keep, gone));
    assert!(rt; fs::remove_file(&rt, begun).is_ok());
    assert!(rt; fails(&mut hands, Effect::Stands(Growth::Record, 9), gone));
    assert!(rt; does(&mut hands, Effect::Stands(Growth::Features, 9)));
}

/// One file for each growth, with the one next to it.
const EACH: [(Growth, &str, &str); 4] = [
    (Growth::Contacts, "/tmp/dme_test.1", "/tmp/dme_test.1.new"),
    (Growth::Told, "/tmp/dme_test.2", "/tmp/dme_test.2.new"),
    (Growth::Record, "/tmp/dme_test.3", "/tmp/dme_test.3.new"),
    (Growth::Features, "/tmp/dme_test.4", "/tmp/dme_test.4.new"),
];

#[test]
fn each_growth_has_a_file_of_its_own(rt: HostRuntime) {
    let mut hands = RealHands::new(rt);
    for (growth, name, beside) in EACH {
        let make = Effect::Make(growth, name, beside, name.as_bytes());
        assert!(rt; does(&mut hands, make));
    }
    for (growth, name, _) in EACH {
        assert!(rt; does(&mut hands, Effect::Begin(growth)));
        assert!(rt; does(&mut hands, Effect::Append(growth, name.as_bytes())));
    }
    for (growth, name, _) in EACH {
        assert!(rt; does(&mut hands, Effect::Stands(growth, 2 * name.len())));
        assert!(rt; fs::remove_file(&rt, name).is_ok());
    }
}
