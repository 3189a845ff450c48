// Each effect on real files and the standard streams.

use dme_hands::RealHands;
use effects::{Answer, Cause, Effect, Growth, Hands, Peer, Place, Slot};
use std::fs;
use std::io::{Read, Write};
use std::net::{TcpListener, TcpStream};
use std::os::unix::fs::symlink;
use std::test::Fail;

/// What comes of an effect is as expected.
pub fn gives(hands: &mut RealHands, effect: Effect<'_>, expected: Answer<'_>) -> bool {
    hands.carry_out(effect);
    match (hands.answer(), expected) {
        (Answer::Done, Answer::Done) | (Answer::End, Answer::End) => true,
        (Answer::Missing, Answer::Missing) | (Answer::Nothing, Answer::Nothing) => true,
        (Answer::Found, Answer::Found) => true,
        (Answer::Took(count), Answer::Took(other)) => count == other,
        (Answer::Failed(cause), Answer::Failed(other)) => cause == other,
        (Answer::Bytes(bytes), Answer::Bytes(others)) => bytes == others,
        _ => false,
    }
}

/// An effect is done.
pub fn does(hands: &mut RealHands, effect: Effect<'_>) -> bool {
    gives(hands, effect, Answer::Done)
}

/// An effect fails for this cause.
pub fn fails(hands: &mut RealHands, effect: Effect<'_>, cause: Cause) -> bool {
    gives(hands, effect, Answer::Failed(cause))
}

/// What comes from a peer is as expected.
fn hears(hands: &mut RealHands, peer: Peer, expected: Answer<'_>) -> bool {
    gives(hands, Effect::Receive(peer), expected)
}

#[test]
fn a_file_is_read_to_its_end(rt: HostRuntime) {
    let name = "/tmp/dme_hands.test";
    assert!(rt; fs::write(&rt, name, b"told".as_slice()).is_ok());
    let mut hands = RealHands::new(rt);
    let open = Effect::Open(Slot::Down, Place::Named(name));
    assert!(rt; does(&mut hands, open));
    let told = Answer::Bytes(b"told".as_slice());
    assert!(rt; gives(&mut hands, Effect::Read(Slot::Down), told));
    assert!(rt; gives(&mut hands, Effect::Read(Slot::Down), Answer::End));
    assert!(rt; fs::remove_file(&rt, name).is_ok());
    assert!(rt; gives(&mut hands, open, Answer::Missing));
}

#[test]
fn what_is_not_open_has_no_bytes(rt: HostRuntime) {
    let mut hands = RealHands::new(rt);
    assert!(rt; gives(&mut hands, Effect::Read(Slot::Up), Answer::End));
    assert!(rt; does(&mut hands, Effect::Open(Slot::Up, Place::Nothing)));
    assert!(rt; gives(&mut hands, Effect::Read(Slot::Up), Answer::End));
}

#[test]
fn a_folder_cannot_be_read(rt: HostRuntime) {
    let mut hands = RealHands::new(rt);
    assert!(rt; does(&mut hands, Effect::Open(Slot::Order, Place::Named("/"))));
    assert!(rt; fails(&mut hands, Effect::Read(Slot::Order), Cause::Folder));
}

#[test]
fn the_standard_streams_are_read_and_written(rt: HostRuntime) {
    let mut hands = RealHands::new(rt);
    assert!(rt; does(&mut hands, Effect::Open(Slot::Up, Place::Input)));
    assert!(rt; gives(&mut hands, Effect::Read(Slot::Up), Answer::End));
    assert!(rt; gives(&mut hands, Effect::Byte, Answer::End));
    assert!(rt; does(&mut hands, Effect::Print(b"".as_slice())));
    assert!(rt; does(&mut hands, Effect::Say("")));
    assert!(rt; does(&mut hands, Effect::Exit(0)));
}

#[test]
fn a_file_in_a_folder_is_made_written_named_and_removed(rt: HostRuntime) {
    let (folder, up) = ("/tmp/dme_hands.folder", "/tmp/dme_hands.folder/1.up");
    assert!(rt; fs::create_dir(&rt, folder).is_ok());
    let mut hands = RealHands::new(rt);
    let create = Effect::Create(Slot::Up, up);
    assert!(rt; does(&mut hands, create));
    assert!(rt; fails(&mut hands, create, Cause::Taken));
    assert!(rt; does(&mut hands, Effect::Save(Slot::Up, b"line".as_slice())));
    assert!(rt; does(&mut hands, Effect::Settle(Slot::Up)));
    assert!(rt; has(&rt, up, b"line".as_slice()));
    let names = Answer::Bytes(b"1.up/".as_slice());
    assert!(rt; gives(&mut hands, Effect::Names(folder), names));
    hands.carry_out(Effect::Node(up));
    assert!(rt; matches!(hands.answer(), Answer::Bytes(node) if node.len() == 16));
    assert!(rt; does(&mut hands, Effect::Remove(up)));
    assert!(rt; gives(&mut hands, Effect::Remove(up), Answer::Missing));
    assert!(rt; gives(&mut hands, Effect::Node(up), Answer::Missing));
    assert!(rt; does(&mut hands, Effect::Sleep(1)));
    assert!(rt; fs::remove_dir(&rt, folder).is_ok());
}

/// Whether a file of this name has this place or would have it.
fn has_place(hands: &mut RealHands, name: &str, place: &str) -> bool {
    gives(hands, Effect::Place(name), Answer::Bytes(place.as_bytes()))
}

#[test]
fn the_place_of_a_file_has_no_links(rt: HostRuntime) {
    let (place, link) = ("/tmp/dme_hands.place", "/tmp/dme_hands.linked");
    assert!(rt; fs::create_dir(&rt, place).is_ok());
    assert!(rt; symlink(&rt, place, link).is_ok());
    let mut hands = RealHands::new(rt);
    let (name, linked) = ("/tmp/dme_hands.place/1.up", "/tmp/dme_hands.linked/1.up");
    assert!(rt; has_place(&mut hands, linked, name));
    assert!(rt; fs::write(&rt, name, b"line".as_slice()).is_ok());
    assert!(rt; has_place(&mut hands, linked, name));
    assert!(rt; gives(&mut hands, Effect::Place(link), Answer::Found));
    let nowhere = "/tmp/dme_hands.place/none/1.up";
    assert!(rt; has_place(&mut hands, nowhere, nowhere));
    assert!(rt; has_place(&mut hands, "/dme_hands.none", "/dme_hands.none"));
    assert!(rt; fs::remove_file(&rt, name).is_ok());
    assert!(rt; fs::remove_file(&rt, link).is_ok());
    assert!(rt; fs::remove_dir(&rt, place).is_ok());
}

/// Whether the file of this name has this text.
pub fn has(rt: &HostRuntime, name: &str, text: &[u8]) -> bool {
    match fs::read(rt, name) {
        Ok(found) => found.as_slice() == text,
        Err(_) => false,
    }
}

#[test]
fn a_file_begins_anew_and_grows(rt: HostRuntime) {
    let (name, beside) = ("/tmp/dme_hands.grows", "/tmp/dme_hands.grows.new");
    let old = "/tmp/dme_hands.grows.old";
    let make = Effect::Make(Growth::Contacts, name, beside, b"HEAD\n".as_slice());
    assert!(rt; fs::write(&rt, name, b"HEAD\nmore\n".as_slice()).is_ok());
    let mut hands = RealHands::new(rt);
    assert!(rt; does(&mut hands, Effect::Look(name)));
    assert!(rt; gives(&mut hands, make, Answer::Found));
    assert!(rt; does(&mut hands, Effect::SetAside(Growth::Contacts, old)));
    assert!(rt; does(&mut hands, Effect::Begin(Growth::Contacts)));
    let keep = Effect::Keep(Growth::Contacts, b"act\n".as_slice());
    assert!(rt; does(&mut hands, keep));
    assert!(rt; has(&rt, name, b"HEAD\nact\n".as_slice()));
    assert!(rt; has(&rt, old, b"HEAD\nmore\n".as_slice()));
    assert!(rt; fs::remove_file(&rt, name).is_ok());
    assert!(rt; fails(&mut hands, keep, Cause::Renamed));
    let whole = Effect::Replace(name, beside, b"whole".as_slice());
    assert!(rt; does(&mut hands, whole));
    assert!(rt; fails(&mut hands, keep, Cause::Renamed));
    assert!(rt; has(&rt, name, b"whole".as_slice()));
    assert!(rt; fs::remove_file(&rt, name).is_ok());
    assert!(rt; fs::remove_file(&rt, old).is_ok());
}

#[test]
fn a_file_that_is_let_go_is_as_it_was(rt: HostRuntime) {
    let (let_go, let_go_beside) = ("/tmp/dme_hands.let_go", "/tmp/dme_hands.let_go.new");
    let mut hands = RealHands::new(rt);
    let make = Effect::Make(
        Growth::Contacts,
        let_go,
        let_go_beside,
        b"HEAD\n".as_slice(),
    );
    assert!(rt; does(&mut hands, Effect::Exists(let_go)));
    assert!(rt; does(&mut hands, make));
    assert!(rt; gives(&mut hands, Effect::Exists(let_go_beside), Answer::Found));
    assert!(rt; does(&mut hands, Effect::Discard(Growth::Contacts)));
    assert!(rt; does(&mut hands, Effect::Exists(let_go_beside)));
    assert!(rt; does(&mut hands, Effect::Exists(let_go)));
    assert!(rt; fails(&mut hands, Effect::Look("/tmp"), Cause::Folder));
}

#[test]
fn a_log_is_added_to(rt: HostRuntime) {
    let log = "/tmp/dme_hands.log";
    let mut hands = RealHands::new(rt);
    assert!(rt; does(&mut hands, Effect::Extend(log)));
    assert!(rt; does(&mut hands, Effect::Add(b"line\n".as_slice())));
    assert!(rt; has(&rt, log, b"line\n".as_slice()));
    assert!(rt; fs::remove_file(&rt, log).is_ok());
    hands.carry_out(Effect::Stamp);
    assert!(rt; matches!(hands.answer(), Answer::Bytes(time) if time.len() == 24));
    hands.carry_out(Effect::Now);
    assert!(rt; matches!(hands.answer(), Answer::At(0)));
}

#[test]
fn a_connection_is_taken_and_left(rt: HostRuntime) -> Result<(), Fail> {
    let port = 47_113;
    let mut hands = RealHands::new(rt);
    assert!(rt; does(&mut hands, Effect::Listen("127.0.0.1", port, true)));
    let accept = Effect::Accept(Some(10), Some(1));
    assert!(rt; gives(&mut hands, accept, Answer::Nothing));
    let mut peer = TcpStream::connect(&rt, ("127.0.0.1", port))?;
    assert!(rt; does(&mut hands, accept));
    assert!(rt; hears(&mut hands, Peer::Client, Answer::Nothing));
    assert!(rt; peer.write_all(b"line".as_slice()).is_ok());
    assert!(rt; hears(&mut hands, Peer::Client, Answer::Bytes(b"line".as_slice())));
    assert!(rt; does(&mut hands, Effect::Send(Peer::Client, b"back".as_slice())));
    let mut room = [0u8; 8];
    assert!(rt; matches!(peer.read(&mut room), Ok(4)));
    drop(peer);
    assert!(rt; hears(&mut hands, Peer::Client, Answer::End));
    assert!(rt; does(&mut hands, Effect::Leave));
    assert!(rt; does(&mut hands, Effect::Limit(Peer::Client, Some(10), None)));
    assert!(rt; hears(&mut hands, Peer::Client, Answer::Failed(Cause::Unknown)));
    Ok(())
}

#[test]
fn a_connection_is_limited_later(rt: HostRuntime) -> Result<(), Fail> {
    let listener = TcpListener::bind(&rt, ("127.0.0.1", 0u16))?;
    let port = listener.local_addr()?.port();
    let mut hands = RealHands::new(rt);
    assert!(rt; does(&mut hands, Effect::Connect("127.0.0.1", port, Some(1_000))));
    let (mut peer, _) = listener.accept()?;
    assert!(rt; does(&mut hands, Effect::Limit(Peer::Server, Some(10), Some(1))));
    assert!(rt; hears(&mut hands, Peer::Server, Answer::Nothing));
    assert!(rt; does(&mut hands, Effect::Limit(Peer::Server, None, None)));
    assert!(rt; peer.write_all(b"line".as_slice()).is_ok());
    let line = Answer::Bytes(b"line".as_slice());
    assert!(rt; hears(&mut hands, Peer::Server, line));
    Ok(())
}

#[test]
fn connections_that_are_joined_do_not_wait_alone(rt: HostRuntime) {
    let joined = 29_113;
    let mut hands = RealHands::new(rt);
    assert!(rt; does(&mut hands, Effect::Listen("127.0.0.1", joined, true)));
    assert!(rt; does(&mut hands, Effect::Connect("127.0.0.1", joined, None)));
    assert!(rt; does(&mut hands, Effect::Accept(None, None)));
    assert!(rt; does(&mut hands, Effect::Join));
    for peer in [Peer::Client, Peer::Server] {
        assert!(rt; does(&mut hands, Effect::Limit(peer, Some(60_000), None)));
        assert!(rt; hears(&mut hands, peer, Answer::Nothing));
    }
    let pass = Effect::Pass(Peer::Server, b"line".as_slice());
    assert!(rt; gives(&mut hands, pass, Answer::Took(4)));
    assert!(rt; does(&mut hands, Effect::Wait(Some(60_000))));
    let line = Answer::Bytes(b"line".as_slice());
    assert!(rt; hears(&mut hands, Peer::Client, line));
    assert!(rt; does(&mut hands, Effect::Close(Peer::Server)));
    let nothing = Effect::Pass(Peer::Server, b"".as_slice());
    assert!(rt; gives(&mut hands, nothing, Answer::Took(0)));
    assert!(rt; does(&mut hands, Effect::Wait(Some(60_000))));
    assert!(rt; hears(&mut hands, Peer::Client, Answer::End));
    assert!(rt; does(&mut hands, Effect::Leave));
}
