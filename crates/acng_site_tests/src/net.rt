//! Origins over TCP, against a listener of the test's own.
ghost use Rattle.std.specs.Prelude.{◌≡◌, None, IfOk};

use crate::asks::{given, outcome, plain_ask};
use acng_base::Tag;
use acng_site::{Ask, Dial, NetOrigin, Origin};
use std::alloc::Global;
use std::io::{Read, Write};
use std::net::TcpListener;
use std::test::Fail;

const ANSWER: &[u8] = b"HTTP/1.1 200 OK\r\n\r\nabc";

// An ask for a path of the listener, from a place on.
fn ask_at(alloc: Global, port: u16, path: &str, from: u64) -> Result<Ask, Fail>
    ensures { IfOk result (λ ask. ask.since ≡ None) }
{
    let url = format!(in alloc; "http://127.0.0.1:{port}/{path}")?;
    Ok(plain_ask(alloc, url.as_bytes(), from)?)
}

// What the next client of the listener sends at once; then it has its answer, and the connection ends.
fn hear(alloc: Global, listener: &TcpListener) -> Result<Vec<u8>, Fail> {
    let (mut stream, _) = listener.accept()?;
    let mut request = [0; 256];
    let count = stream.read(&mut request)?;
    stream.write_all(ANSWER)?;
    Ok(Vec::from_slice(alloc, &request[..count])?)
}

#[test]
fn an_ask_goes_over_a_socket_and_its_answer_comes_back(rt: HostRuntime) -> Result<(), Fail> {
    let alloc = rt.alloc();
    let listener = TcpListener::bind(&rt, "127.0.0.1:0")?;
    let port = listener.local_addr()?.port();
    let mut ask = ask_at(alloc, port, "debian/a_1.deb", 7)?;
    ask.tag = Tag::read(b"\"t\"");
    let (origin, mut right) = NetOrigin::start(&rt);
    let dial = origin.dial(alloc, right.draw(), &ask);
    let request = hear(alloc, &listener)?;
    let wanted = format!(in alloc;
        "GET /debian/a_1.deb HTTP/1.1\r\nHost: 127.0.0.1:{port}\r\nUser-Agent: acng\r\n\
         Connection: close\r\nRange: bytes=7-\r\nIf-Range: \"t\"\r\n\r\n"
    )?;
    assert_eq!(rt; request.as_slice(), wanted.as_bytes());
    let (bytes, slip) = given(alloc, dial)?;
    assert_eq!(rt; bytes.as_slice(), ANSWER);
    assert_eq!(rt; slip, None);
    Ok(())
}

// The mirror closes with a request that it didn't read: the connection is reset.
#[test]
fn a_reset_is_a_slip_of_its_attempt(rt: HostRuntime) -> Result<(), Fail> {
    let alloc = rt.alloc();
    let listener = TcpListener::bind(&rt, "127.0.0.1:0")?;
    let ask = ask_at(alloc, listener.local_addr()?.port(), "a", 0)?;
    let (origin, mut right) = NetOrigin::start(&rt);
    let dial = origin.dial(alloc, right.draw(), &ask);
    let (stream, _) = listener.accept()?;
    drop(stream);
    assert!(rt; matches!(&dial, Dial::Up(_)), "the dial came up");
    let (bytes, slip) = given(alloc, dial)?;
    assert!(rt; bytes.is_empty());
    assert_eq!(rt; slip, Some(0));
    Ok(())
}

// Nobody listens any more.
#[test]
fn a_refused_connection_is_a_slip_of_its_attempt(rt: HostRuntime) -> Result<(), Fail> {
    let alloc = rt.alloc();
    let listener = TcpListener::bind(&rt, "127.0.0.1:0")?;
    let ask = ask_at(alloc, listener.local_addr()?.port(), "a", 0)?;
    drop(listener);
    let (origin, mut right) = NetOrigin::start(&rt);
    let (_, slip) = outcome(alloc, &origin, right.draw(), &ask)?;
    assert_eq!(rt; slip, Some(0));
    Ok(())
}

// URLs that aren't dialed.
const NOT_DIALED: &[&[u8]] = &[b"https://127.0.0.1/", b"http://[::1]/", b"a"];

#[test]
fn a_url_that_is_not_dialed_is_a_slip_of_its_attempt(rt: HostRuntime) -> Result<(), Fail> {
    let alloc = rt.alloc();
    let (origin, mut right) = NetOrigin::start(&rt);
    for url in NOT_DIALED {
        let attempt = right.next();
        assert!(rt; attempt < 9);
        let ask = plain_ask(alloc, *url, 0)?;
        let (_, slip) = outcome(alloc, &origin, right.draw(), &ask)?;
        assert_eq!(rt; slip, Some(attempt));
    }
    assert_eq!(rt; right.next(), 3);
    Ok(())
}
