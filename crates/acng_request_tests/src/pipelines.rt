//! Requests one after another in one input, read from one buffer: no byte is lost, and none is read twice.
ghost use Rattle.std.specs.Prelude.{◌≤◌};

use acng_base::MemoryLink;
use acng_request::{Got, HeadBuf, HeadFault, read_request};
use std::alloc::Global;
use std::process::Abort;
use std::test::Fail;

const TWO_AND_A_FRONT: &[u8] =
    b"GET /a HTTP/1.1\r\nHost: h\r\n\r\n\r\nHEAD /b HTTP/1.0\n\nGET /c HTTP/1.1\r\n";

// What comes in one piece, and what is read of it before the read that fails.
const HELD: &[(&[u8], &[&str])] = &[
    (
        b"GET /a HTTP/1.1\r\n\r\nGET /b HTTP/1.1\r\n\r\n",
        &["/a", "/b", "fault"],
    ),
    (
        b"GET /a HTTP/1.1\r\n\r\nGET /b HTTP/9.9\r\n\r\n",
        &["/a", "refused", "refused"],
    ),
    (
        b"GET /a HTTP/1.1\r\n\r\nPOST /b HTTP/1.1\r\n\r\n",
        &["/a", "refused"],
    ),
    (
        b"GET /a HTTP/1.1\r\n\r\nGET /b HTTP/1.1\r\nContent-Length: 1\r\n\r\n",
        &["/a", "refused"],
    ),
    (
        b"GET /a HTTP/1.1\r\n\r\nGET /b HTTP/1.1\r\n\r",
        &["/a", "fault"],
    ),
];

/// A client's link, and what is held of its bytes.
#[derive(Drop)]
struct Client {
    link: MemoryLink,
    buf: HeadBuf,
}

// A client that sends these bytes, so many a read, and whose reads of these numbers fail.
fn client_of(alloc: Global, input: &[u8], cut: usize, fail: &[u64]) -> Result<Client, Fail>
    requires { 1 ≤ cut }
{
    let link = MemoryLink::new(alloc, input, 0, cut, fail);
    let buf = HeadBuf::new(alloc);
    Ok(Client {
        link: link.ok().ok_or("memory")?,
        buf: buf.ok().ok_or("memory")?,
    })
}

// The client's next request.
fn next(alloc: Global, client: &mut Client) -> Got {
    read_request(alloc, &mut client.link, &mut client.buf)
}

// The target that was read, or a word.
fn short(got: &Got) -> &[u8] {
    match got {
        Got::Request(request) => request.target.as_bytes(),
        Got::Ended => b"ended".as_slice(),
        Got::ClientFault => b"fault".as_slice(),
        Got::Refused(HeadFault::TooLarge) => b"large".as_slice(),
        Got::Refused(_) => b"refused".as_slice(),
        Got::NoMemory => b"no memory".as_slice(),
    }
}

// Reads so many requests of the client, each of which is what is wanted.
fn read_each(
    rt: &impl Abort,
    alloc: Global,
    client: &mut Client,
    wants: &[&str],
) -> Result<(), Fail> {
    for want in wants {
        let got = next(alloc, client);
        assert_eq!(rt; short(&got), want.as_bytes(), "{want}");
    }
    Ok(())
}

#[test]
fn two_requests_and_a_front_in_one_input(rt: HostRuntime) -> Result<(), Fail> {
    for cut in [1, 2, 7, 4096] {
        let mut client = client_of(rt.alloc(), TWO_AND_A_FRONT, cut.max(1), &[])?;
        read_each(
            &rt,
            rt.alloc(),
            &mut client,
            &["/a", "/b", "ended", "ended"],
        )?;
    }
    Ok(())
}

// Requests for the targets from `/0` to `/999`.
fn a_thousand(alloc: Global) -> Result<Vec<u8>, Fail> {
    let mut input = Vec::new(alloc);
    for number in 0..1000 {
        let head = format!(in alloc;
            "GET /{number} HTTP/1.1\r\nHost: h.example\r\nAccept: */*\r\n\r\n"
        )?;
        input.extend_from_slice(head.as_bytes())?;
    }
    Ok(input)
}

// The client's next request is the one of this number.
fn read_numbered(
    rt: &impl Abort,
    alloc: Global,
    client: &mut Client,
    number: u32,
    cut: usize,
) -> Result<(), Fail> {
    let want = format!(in alloc; "/{number}")?;
    let got = next(alloc, client);
    assert_eq!(rt; short(&got), want.as_bytes(), "{number} in {cut}");
    Ok(())
}

// Reads those requests, so many bytes a read.
fn read_a_thousand(rt: &impl Abort, alloc: Global, input: &[u8], cut: usize) -> Result<(), Fail>
    requires { 1 ≤ cut }
{
    let mut client = client_of(alloc, input, cut, &[])?;
    for number in 0..1000 {
        read_numbered(rt, alloc, &mut client, number, cut)?;
    }
    let got = next(alloc, &mut client);
    assert_eq!(rt; short(&got), b"ended".as_slice(), "in {cut}");
    Ok(())
}

#[test]
fn a_thousand_requests_in_one_input(rt: HostRuntime) -> Result<(), Fail> {
    let input = a_thousand(rt.alloc())?;
    for cut in [1, 2, 7, 4096] {
        read_a_thousand(&rt, rt.alloc(), input.as_slice(), cut.max(1))?;
    }
    Ok(())
}

// A client that waits for its reply sends nothing more, so a read would hang.
#[test]
fn a_whole_head_that_is_held_is_read_without_the_link(rt: HostRuntime) -> Result<(), Fail> {
    for &(input, wants) in HELD {
        let mut client = client_of(rt.alloc(), input, 4096, &[1])?;
        read_each(&rt, rt.alloc(), &mut client, wants)?;
    }
    Ok(())
}

#[test]
fn so_many_bytes_as_decide_are_refused_without_the_link(rt: HostRuntime) -> Result<(), Fail> {
    let input = vec![in rt.alloc(); b'x'; 20_000]?;
    let mut client = client_of(rt.alloc(), input.as_slice(), 16_384, &[1])?;
    read_each(&rt, rt.alloc(), &mut client, &["large", "large"])?;
    assert_eq!(rt; client.link.faults(), 0);
    Ok(())
}

// A call that fails leaves what is held, and the next one goes on from there.
#[test]
fn a_fault_is_the_clients_and_loses_no_byte(rt: HostRuntime) -> Result<(), Fail> {
    let input = b"GET /a HTTP/1.1\r\n\r\nGET /b HTTP/1.1\r\n\r\n";
    for call in 0..13 {
        let mut client = client_of(rt.alloc(), input, 3, &[call])?;
        let wants = if call < 7 {
            ["fault", "/a", "/b", "ended"]
        } else {
            ["/a", "fault", "/b", "ended"]
        };
        read_each(&rt, rt.alloc(), &mut client, &wants)?;
    }
    Ok(())
}
