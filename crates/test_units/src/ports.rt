// What no clause says: that calls succeed, and when a port over a reader or
// a writer of std fails.
use byte_ports::{
    Failed, PIECE, Pieces, PullFault, Reading, Sink, Source, Takes, Writing, pull_all, push_all,
};
use std::alloc::{AllocError, Global};
use std::io;
use std::io::{ErrorKind, Read, Write};
use std::test::Fail;

// A device that fails at its second call and works again afterwards.
#[derive(Drop)]
struct Stumbles {
    calls: u8,
}

impl Stumbles {
    fn call(&mut self) -> io::Result<()> {
        self.calls = self.calls.saturating_add(1);
        if self.calls == 2 {
            return Err(io::Error::from(ErrorKind::Other));
        }
        Ok(())
    }
}

impl Read for Stumbles {
    fn read(&mut self, buf: &mut [u8]) -> io::Result<usize> {
        self.call()?;
        if buf.is_empty() {
            return Ok(0);
        }
        buf[0] = b'x';
        Ok(1)
    }
}

impl Write for Stumbles {
    fn write(&mut self, buf: &[u8]) -> io::Result<usize> {
        self.call()?;
        Ok(buf.len().min(1))
    }

    fn flush(&mut self) -> io::Result<()> {
        Ok(())
    }
}

// A source of three pieces, whose pull number `call` fails; no pull fails if it is 0.
fn pieces(alloc: Global, call: u64) -> Result<Pieces, AllocError> {
    let mut source = if call == 0 {
        Pieces::new(alloc)
    } else {
        Pieces::failing_at(alloc, call)
    };
    source.add(b"abc")?;
    source.add(b"")?;
    source.add(b"de")?;
    Ok(source)
}

// Whether all bytes come from such a source in at most that many pulls, or this fault; and whether it then fails only after a failure.
fn comes_to(
    alloc: Global,
    (call, bound): (u64, u64),
    fault: Option<PullFault>,
) -> Result<bool, AllocError> {
    let mut source = pieces(alloc, call)?;
    let is_told = match pull_all(alloc, &mut source, bound) {
        Ok(bytes) => fault == None && bytes.as_slice() == b"abcde".as_slice(),
        Err(told) => fault == Some(told),
    };
    let again = source.pull(&mut [0; 4]);
    Ok(is_told && again.is_err() == (fault == Some(PullFault::Failed)))
}

#[test]
fn all_bytes_are_pulled_or_the_fault_is_told(rt: HostRuntime) -> Result<(), Fail> {
    let cases = [
        ((0, 3), None),
        ((0, 2), Some(PullFault::TooMany)),
        ((0, 0), Some(PullFault::TooMany)),
        ((2, 9), Some(PullFault::Failed)),
        ((3, 9), Some(PullFault::Failed)),
    ];
    for (asked, fault) in cases {
        assert!(rt; comes_to(rt.alloc(), asked, fault)?, "{asked:?}");
    }
    Ok(())
}

// Whether a text of more than a piece comes in three pulls, and not in two.
fn comes_in_three(alloc: Global, long: &[u8]) -> bool {
    let fault = pull_all(alloc, &mut Reading::new(long), 2).err();
    let all = match pull_all(alloc, &mut Reading::new(long), 3) {
        Ok(bytes) => bytes.as_slice() == long,
        Err(_) => false,
    };
    fault == Some(PullFault::TooMany) && all
}

#[test]
fn the_end_of_a_text_takes_a_pull(rt: HostRuntime) -> Result<(), Fail> {
    let long = vec![in rt.alloc(); b'x'; PIECE + 1]?;
    assert!(rt; comes_in_three(rt.alloc(), long.as_slice()));
    Ok(())
}

// Whether a sink that takes at most that many bytes, and whose push number `call` fails, has taken these of five, and then fails for good.
fn takes(alloc: Global, (most, call): (usize, u64), taken: &[u8]) -> bool {
    if most == 0 {
        return false;
    }
    let mut sink = if call == 0 {
        Takes::new(alloc, most)
    } else {
        Takes::failing_at(alloc, most, call)
    };
    let is_pushed = push_all(&mut sink, b"abcde").is_ok();
    let is_right = is_pushed == (taken.len() == 5) && sink.taken() == taken;
    is_right && sink.push(b"f").is_ok() == (call == 0)
}

#[test]
fn all_bytes_are_pushed_or_a_front_of_them(rt: HostRuntime) -> Result<(), Fail> {
    let cases: [((usize, u64), &[u8]); 6] = [
        ((2, 0), b"abcde"),
        ((100, 0), b"abcde"),
        ((3, 3), b"abcde"),
        ((2, 3), b"abcd"),
        ((2, 2), b"ab"),
        ((1, 1), b""),
    ];
    for (asked, taken) in cases {
        assert!(rt; takes(rt.alloc(), asked, taken), "{asked:?}");
    }
    Ok(())
}

// Whether a port over a device fails with it, and for good.
fn stumbles_for_good() -> bool {
    let mut source = Reading::new(Stumbles { calls: 0 });
    let mut sink = Writing::new(Stumbles { calls: 0 });
    for works in [true, false, false] {
        if source.pull(&mut [0; 2]).is_ok() != works || sink.push(b"ab").is_ok() != works {
            return false;
        }
    }
    true
}

// Whether all bytes that are pushed are in a text.
fn is_written(alloc: Global) -> bool {
    let mut sink = Writing::new(Vec::new(alloc));
    let first = push_all(&mut sink, b"abc");
    let nothing = sink.push(b"");
    let second = push_all(&mut sink, b"de");
    let text = sink.into_inner();
    first.is_ok() && nothing == Ok(0) && second.is_ok() && text.as_slice() == b"abcde".as_slice()
}

// Whether a room takes what fits, and then fails.
fn is_full() -> bool {
    let mut room = [0; 3];
    let mut sink = Writing::new(room.as_mut_slice());
    let all = push_all(&mut sink, b"abcde");
    let nothing = sink.push(b"");
    all == Err(Failed) && nothing == Err(Failed) && room == *b"abc"
}

#[test]
fn ports_of_std_fail_with_their_device_and_for_good(rt: HostRuntime) {
    assert!(rt; stumbles_for_good());
    assert!(rt; is_written(rt.alloc()));
    assert!(rt; is_full());
}
