//! Origins over TCP: the trusted edge. Nothing is told of what they send.
//!
//! An attempt looks up the host of the ask's URL, tries its addresses in turn, writes the request and then reads. Every
//! error of std, a lookup that finds nothing and a URL that isn't dialed are faults of the attempt. No system call
//! on a socket waits longer than its limit; a lookup waits as long as the system's resolver does.
ghost use Rattle.std.specs.Prelude.{◌≡◌, ◌<◌, false, [], IfSome, IfErr};
ghost use Rattle.std.specs.Io.{ReadsAtMost};
ghost use Rattle.std.specs.Io.KnownBytes.{ReadConsumes};
ghost use Rattle.acng_base.specs.Moments.{moment_limit};
ghost use Rattle.acng_site.specs.Dials.{DialsFor};

use crate::ask::Ask;
use crate::conn::{Conn, OriginSlip};
use crate::origin::{Dial, Origin};
use crate::request::{Request, UrlFault};
use crate::site::{Right, Site, Try, Untold};
use crate::slip::AttemptSlip;
use acng_base::{Source, StdSource};
use std::alloc::Global;
use std::io;
use std::io::{Read, Write};
use std::net::{Net, OpenStream, TcpStream, ToSocketAddrs};
use std::snapshot::Snapshot;
use std::time::Duration;
use url::{Host, Url};

/// How many seconds one address may take to answer.
const CONNECT_SECONDS: u64 = 30;
/// How many seconds one read may wait for a byte.
const READ_SECONDS: u64 = 60;
/// How many seconds one write may wait for room.
const WRITE_SECONDS: u64 = 60;
/// The port of `http` (RFC 9110, section 4.2.1).
const HTTP_PORT: u16 = 80;

/// The connection of an attempt over TCP.
#[derive(Drop)]
pub struct NetConn<T: Read + Drop> {
    number: u64,
    ask: Snapshot<Ask>,
    stream: StdSource<T>,
}

impl<T: Read + Drop> NetConn<T> {
    // The connection over a stream that the request was written to.
    pub(crate) fn over(stream: T, number: u64, ask: &Ask) -> NetConn<T>
        ensures number { result.number ≡ number }
        ensures ask { result.ask.value ≡ ask.now }
    {
        NetConn {
            number,
            ask: Snapshot::of(ask),
            stream: StdSource::new(stream),
        }
    }
}

impl<T: Read + Drop> Conn for NetConn<T> {
    type Slip = AttemptSlip;

    ghost number = { λ c. c.number };

    ghost ask = { λ c. c.ask.value };

    ghost tells = { false };

    ghost left = { λ _. [] };

    ghost faulted = { λ _. false };

    fn attempt(&self) -> u64 {
        self.number
    }

    fn read(&mut self, buf: &mut [u8]) -> Result<usize, AttemptSlip>
        ensures bound { ReadsAtMost result buf.new }
        ensures slip { IfErr result (λ s. (⟦<AttemptSlip as OriginSlip>⟧.number s ≡ self.old.number)
            × (⟦<AttemptSlip as OriginSlip>⟧.ask s ≡ self.old.ask.value)) }
        ensures number { self.new.number ≡ self.old.number }
        ensures ask { self.new.ask.value ≡ self.old.ask.value }
        ensures passes_on { ReadConsumes (⟦<StdSource<T> as Source>⟧.left self.old.stream)
            (⟦<StdSource<T> as Source>⟧.left self.new.stream) result buf.new }
    {
        match self.stream.read(buf) {
            Ok(count) => Ok(count),
            Err(_) => Err(AttemptSlip::at_read(self.number, &self.ask)),
        }
    }
}

/// An origin over TCP, which holds the runtime's handle for sockets.
#[derive(Drop)]
pub struct NetOrigin<N> {
    net: N,
}

impl<N: Net + Drop> NetOrigin<N> {
    /// The origin, and the right to its attempts.
    pub fn start(net: N) -> (NetOrigin<N>, Right<Untold>)
        ensures { result.1.next ≡ 0 }
    {
        (NetOrigin { net }, Right::first())
    }
}

impl<N: Net + Drop> Origin<Untold> for NetOrigin<N> {
    type Slip = AttemptSlip;

    type Conn = NetConn<N::Stream>;

    fn dial(
        &self,
        alloc: Global,
        attempt: Try<Untold>,
        ask: &Ask,
    ) -> Dial<NetConn<N::Stream>, AttemptSlip>
        requires since { IfSome ask.now.since (λ moment. moment.0 < moment_limit) }
        ensures answer { DialsFor ⟦<Untold as Site>⟧ ⟦<NetConn<N::Stream> as Conn>⟧ ⟦<AttemptSlip as OriginSlip>⟧
            attempt.number ask.now result }
    {
        let number = attempt.spend();
        let request = match Request::of(alloc, ask) {
            Ok(request) => request,
            Err(UrlFault::NotDialed) => return Dial::Fault(AttemptSlip::at_dial(number, ask)),
            Err(UrlFault::NoMemory) => return Dial::NoMemory,
        };
        match send(&self.net, &request) {
            Ok(stream) => Dial::Up(NetConn::over(stream, number, ask)),
            Err(_) => Dial::Fault(AttemptSlip::at_dial(number, ask)),
        }
    }
}

// Connects to the host of the request's URL and writes its text, in one call where the system takes it.
fn send<N: Net>(net: &N, request: &Request) -> io::Result<N::Stream> {
    let mut stream = connect(net, &request.url)?;
    stream.set_nodelay(true)?;
    stream.set_read_timeout(Some(Duration::from_secs(READ_SECONDS)))?;
    stream.set_write_timeout(Some(Duration::from_secs(WRITE_SECONDS)))?;
    stream.write_all(request.text.as_bytes())?;
    Ok(stream)
}

fn connect<N: Net>(net: &N, url: &Url) -> io::Result<N::Stream> {
    let port = url.port().unwrap_or(HTTP_PORT);
    match url.host() {
        Some(Host::Domain(name)) => connect_to(net, (name, port)),
        Some(Host::Ipv4(ip)) => connect_to(net, (ip, port)),
        Some(Host::Ipv6(_)) | None => Err(io::Error::from(io::ErrorKind::NotFound)),
    }
}

// Tries the addresses in turn; the last one's error answers.
fn connect_to<N: Net, A: ToSocketAddrs>(net: &N, host: A) -> io::Result<N::Stream> {
    let limit = Duration::from_secs(CONNECT_SECONDS);
    let mut last = io::Error::from(io::ErrorKind::NotFound);
    for address in host.to_socket_addrs(net)? {
        match TcpStream::connect_timeout(net, &address, limit) {
            Ok(stream) => return Ok(stream),
            Err(error) => last = error,
        }
    }
    Err(last)
}
