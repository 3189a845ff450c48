// A port that is listened on, and the connections with a client and a server.

use effects::{Came, Cause, Peer};
use mio::net::TcpStream as Socket;
use mio::{Events, Interest, Poll, Token};
use std::io::{self, ErrorKind, Read, Write};
use std::net::{Shutdown, TcpListener, TcpStream, ToSocketAddrs};
use std::time::Duration;

/// The most bytes that are read at once of a connection that is waited for alone, and together with another.
const PIECE: usize = 4_096;

const POLLED_PIECE: usize = 65_536;

/// What waits for both peers together: it has handles of its own of their sockets, and room for what they send.
#[derive(Drop)]
struct Joined {
    poll: Poll,
    events: Events,
    client: Socket,
    server: Socket,
    room: Vec<u8>,
}

/// A port and its connections, as far as there are.
#[derive(Drop)]
pub struct Connections {
    listener: Option<TcpListener>,
    client: Option<TcpStream>,
    server: Option<TcpStream>,
    joined: Option<Joined>,
    /// What was read of a connection that is waited for alone.
    room: [u8; PIECE],
}

/// Another handle of a socket, which is not waited for from now on.
fn watched(stream: &TcpStream) -> io::Result<Socket> {
    stream.set_nodelay(true)?;
    stream.set_nonblocking(true)?;
    Ok(Socket::from_std(stream.try_clone()?))
}

/// Reads what has come, again if that is interrupted.
fn read_all(stream: &TcpStream, room: &mut [u8]) -> io::Result<usize> {
    let mut stream = stream;
    for _try in 0..u64::MAX {
        match stream.read(room) {
            Err(error) if error.kind() == ErrorKind::Interrupted => {}
            read => return read,
        }
    }
    Ok(0)
}

/// Limits how long reads wait, in milliseconds, and writes, in seconds.
fn limit(stream: &TcpStream, ms: Option<u64>, seconds: Option<u32>) -> io::Result<()> {
    stream.set_read_timeout(ms.map(Duration::from_millis))?;
    stream.set_write_timeout(seconds.map(|seconds| Duration::from_secs(u64::from(seconds))))
}

/// The one of both connections that is with a peer; it fails if there is none.
fn stream_of<'a>(
    client: &'a Option<TcpStream>,
    server: &'a Option<TcpStream>,
    peer: Peer,
) -> io::Result<&'a TcpStream> {
    match (peer, client, server) {
        (Peer::Client, Some(stream), _) | (Peer::Server, _, Some(stream)) => Ok(stream),
        _ => Err(io::Error::from(ErrorKind::NotConnected)),
    }
}

impl Connections {
    pub fn new() -> Connections {
        Connections {
            listener: None,
            client: None,
            server: None,
            joined: None,
            room: [0; PIECE],
        }
    }

    fn stream(&self, peer: Peer) -> io::Result<&TcpStream> {
        stream_of(&self.client, &self.server, peer)
    }

    /// Listens on a port, whose connections are waited for unless it is polled.
    pub fn listen(
        &mut self,
        rt: &HostRuntime,
        address: &str,
        port: u16,
        is_polled: bool,
    ) -> io::Result<()> {
        let listener = TcpListener::bind(rt, (address, port))?;
        listener.set_nonblocking(is_polled)?;
        self.listener = Some(listener);
        Ok(())
    }

    /// Takes the next client.
    pub fn accept(&mut self, ms: Option<u64>, seconds: Option<u32>) -> io::Result<()> {
        let Some(listener) = &self.listener else {
            return Err(io::Error::from(ErrorKind::NotConnected));
        };
        let (stream, _) = listener.accept()?;
        limit(&stream, ms, seconds)?;
        self.client = Some(stream);
        Ok(())
    }

    /// Limits how long the reads and the writes of a peer wait. One that is waited for together with another does not wait alone.
    pub fn limit(&self, peer: Peer, ms: Option<u64>, seconds: Option<u32>) -> io::Result<()> {
        match self.stream(peer) {
            Ok(stream) => limit(stream, ms, seconds),
            Err(_) => Ok(()),
        }
    }

    /// Calls a server at each address of a host in turn.
    pub fn connect(
        &mut self,
        rt: &HostRuntime,
        host: &str,
        port: u16,
        ms: Option<u64>,
        came: &mut Came,
    ) {
        let found = match (host, port).to_socket_addrs(rt) {
            Ok(found) => found,
            Err(error) if error.kind() == ErrorKind::OutOfMemory => return came.ended(Err(error)),
            Err(_) => return came.failed(Cause::UnknownHost),
        };
        came.failed(Cause::UnknownHost);
        for one in found {
            let made = match ms {
                Some(ms) => TcpStream::connect_timeout(rt, &one, Duration::from_millis(ms)),
                None => TcpStream::connect(rt, one),
            };
            match made {
                Ok(stream) => {
                    self.server = Some(stream);
                    return came.ended(Ok(()));
                }
                Err(error) => came.unreached(error),
            }
        }
    }

    /// From now on both peers are waited for together.
    pub fn join(&mut self, rt: &HostRuntime) -> io::Result<()> {
        let mut client = watched(self.stream(Peer::Client)?)?;
        let mut server = watched(self.stream(Peer::Server)?)?;
        let mut poll = Poll::new(rt)?;
        let both = Interest::READABLE | Interest::WRITABLE;
        poll.registry().register(&mut client, Token(0), both)?;
        poll.registry().register(&mut server, Token(1), both)?;
        self.joined = Some(Joined {
            poll,
            events: Events::with_capacity(rt.alloc(), 4)?,
            client,
            server,
            room: vec![in rt.alloc(); 0u8; POLLED_PIECE]?,
        });
        Ok(())
    }

    /// Waits until something may have moved.
    pub fn wait(&mut self, ms: Option<u64>) -> io::Result<()> {
        let Some(joined) = &mut self.joined else {
            return Ok(());
        };
        joined
            .poll
            .poll(&mut joined.events, ms.map(Duration::from_millis))
    }

    /// Reads what has come from a peer.
    pub fn receive(&mut self, peer: Peer, came: &mut Came) {
        let stream = match stream_of(&self.client, &self.server, peer) {
            Ok(stream) => stream,
            Err(error) => return came.ended(Err(error)),
        };
        match &mut self.joined {
            None => {
                let count = read_all(stream, &mut self.room);
                came.read(&self.room, count);
            }
            Some(joined) => {
                let count = read_all(stream, joined.room.as_mut_slice());
                came.read(joined.room.as_slice(), count);
            }
        }
    }

    /// Sends all of these bytes to a peer.
    pub fn send(&self, peer: Peer, bytes: &[u8]) -> io::Result<()> {
        let mut stream = self.stream(peer)?;
        stream.write_all(bytes)
    }

    /// Sends as many of these bytes to a peer as it takes at once.
    pub fn pass(&self, peer: Peer, bytes: &[u8]) -> io::Result<usize> {
        let mut stream = self.stream(peer)?;
        stream.write(bytes)
    }

    /// Sends nothing more to a peer.
    pub fn close(&self, peer: Peer) -> io::Result<()> {
        match self.stream(peer) {
            Ok(stream) => stream.shutdown(Shutdown::Write),
            Err(_) => Ok(()),
        }
    }

    /// Leaves both peers.
    pub fn leave(&mut self) {
        *self = Connections {
            listener: self.listener.take(),
            ..Connections::new()
        };
    }
}
