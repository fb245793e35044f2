//! The sending of a body's bytes to a client (RFC 9112, sections 6 and 7.1).
//!
//! A piece stands in a frame: a buffer with room in front of the piece for a chunk's size line, and behind it for the
//! chunk's end. So it goes out in one write however it is framed, and no byte of it is copied once more.
ghost use Rattle.std.specs.Prelude.{◌≡◌, ◌≢◌, ◌==◌, not, ◌⊎◌, ◌+◌, ◌-◌, ◌<◌, ◌≤◌, ◌++◌, ◌∷◌, List, ℕ, [], length, take, drop, OnOk, OnErr};
ghost use Rattle.std.specs.List.{position};
ghost use Rattle.std.specs.Io.KnownBytes.{Appends, Keeps};
ghost use Rattle.acng_base.specs.Causes.{HasCause, SendsAll};
ghost use Rattle.acng_grow.specs.declared.sending.Sending.TheVariants.{Length, Chunked, ToEnd};
ghost use Rattle.acng_grow.specs.Sends.{Breaks, chunk, last_text, long_line as long_line_of, piece_text, size_line, zeros};

use acng_base::{Failed, Link, copy_front, send_all, send_counted};

/// How a reply's body is framed: by its length, in chunks, or by the connection's end.
#[derive(Clone, Copy, Debug, PartialEq, Eq)]
pub enum Sending {
    Length,
    Chunked,
    ToEnd,
}

/// Where a piece begins in a frame: a size line has at most 16 digits, CR and LF.
pub const FRONT: usize = 18;
/// The CR and LF behind a chunk.
pub const BACK: usize = 2;
/// The most bytes of a piece.
pub const PIECE: usize = 65_536;
/// The bytes of a frame.
pub const FRAME: usize = FRONT + PIECE + BACK;
/// The most bytes of a small piece. So few go out by a small frame, since it takes longer to clear a large one than to send them.
pub const SMALL_PIECE: usize = 16_384;
/// The bytes of a small frame.
pub const SMALL_FRAME: usize = FRONT + SMALL_PIECE + BACK;

/// Sends the piece of so many bytes that stands in a frame. Says how many of its bytes the link took.
pub fn send_piece<L: Link>(
    sending: Sending,
    client: &mut L,
    frame: &mut [u8],
    count: usize,
) -> (usize, Result<(), Failed>)
    requires some { 0 < count }
    requires room { 20 + count ≤ length frame.old }
    ensures within { result.0 ≤ count }
    ensures count { OnOk result.1 (result.0 ≡ count) }
    ensures all { OnOk result.1
        (Appends (L.written client.old) (L.written client.new) (piece_text sending (take count (drop 18 frame.old)))) }

    // A fault of the link, and what else happens.
    ensures broke { OnErr result.1
        (Breaks sending (take count (drop 18 frame.old)) result.0 (L.written client.old) (L.written client.new)) }
    ensures others { Keeps (L.left client.old) (L.left client.new) }
    ensures cause { HasCause (L.faults client.old) (L.faults client.new) result.1 }
    ensures len { length frame.new ≡ length frame.old }
{
    match sending {
        Sending::Chunked => send_chunk(client, frame, count),
        Sending::Length => send_plain(Sending::Length, client, frame, count),
        Sending::ToEnd => send_plain(Sending::ToEnd, client, frame, count),
    }
}

/// Sends what follows a whole body.
pub fn send_last<L: Link>(sending: Sending, client: &mut L) -> Result<(), Failed>
    ensures bytes { SendsAll (L.written client.old) (L.written client.new) (last_text sending) result }
    ensures others { Keeps (L.left client.old) (L.left client.new) }
    ensures cause { HasCause (L.faults client.old) (L.faults client.new) result }
{
    match sending {
        Sending::Chunked => send_all(client, b"0\r\n\r\n"),
        Sending::Length | Sending::ToEnd => send_all(client, b""),
    }
}

// Sends the piece as it is.
fn send_plain<L: Link>(
    sending: Sending,
    client: &mut L,
    frame: &[u8],
    count: usize,
) -> (usize, Result<(), Failed>)
    requires plain { (sending ≡ Length) ⊎ (sending ≡ ToEnd) }
    requires room { 20 + count ≤ length frame.now }
    ensures within { result.0 ≤ count }
    ensures count { OnOk result.1 (result.0 ≡ count) }
    ensures all { OnOk result.1
        (Appends (L.written client.old) (L.written client.new) (take count (drop 18 frame.now))) }
    ensures broke { Breaks sending (take count (drop 18 frame.now)) result.0 (L.written client.old) (L.written client.new) }
    ensures others { Keeps (L.left client.old) (L.left client.new) }
    ensures cause { HasCause (L.faults client.old) (L.faults client.new) result.1 }
{
    let piece = piece_of(frame, count);
    send_text(client, piece)
}

// Sends a text, and says so of the whole text where all of it went out.
fn send_text<L: Link>(client: &mut L, text: &[u8]) -> (usize, Result<(), Failed>)
    ensures within { result.0 ≤ length text.now }
    ensures bytes { Appends (L.written client.old) (L.written client.new) (take result.0 text.now) }
    ensures count { OnOk result.1 (result.0 ≡ length text.now) }
    ensures all { OnOk result.1 (Appends (L.written client.old) (L.written client.new) text.now) }
    ensures others { Keeps (L.left client.old) (L.left client.new) }
    ensures cause { HasCause (L.faults client.old) (L.faults client.new) result.1 }
{
    let sent = send_counted(client, text);
    sent
}

// Sends the piece as one chunk.
fn send_chunk<L: Link>(
    client: &mut L,
    frame: &mut [u8],
    count: usize,
) -> (usize, Result<(), Failed>)
    requires room { 20 + count ≤ length frame.old }
    ensures within { result.0 ≤ count }
    ensures count { OnOk result.1 (result.0 ≡ count) }
    ensures all { OnOk result.1
        (Appends (L.written client.old) (L.written client.new) (chunk (take count (drop 18 frame.old)))) }
    ensures broke { Breaks Chunked (take count (drop 18 frame.old)) result.0 (L.written client.old) (L.written client.new) }
    ensures others { Keeps (L.left client.old) (L.left client.new) }
    ensures cause { HasCause (L.faults client.old) (L.faults client.new) result.1 }
    ensures len { length frame.new ≡ length frame.old }
{
    let start = write_chunk(frame, count);
    let (sent, outcome) = send_counted(client, between(frame, start, FRONT + count + BACK));
    (sent.saturating_sub(FRONT - start).min(count), outcome)
}

// Writes the size line in front of the piece and CR LF behind it. Says where the chunk begins.
fn write_chunk(frame: &mut [u8], count: usize) -> usize
    requires room { 20 + count ≤ length frame.old }
    ensures start { result ≤ 15 }
    ensures line { length (size_line count) ≡ 18 - result }
    ensures chunk { drop result (take (20 + count) frame.new) ≡ chunk (take count (drop 18 frame.old)) }
    ensures len { length frame.new ≡ length frame.old }
{
    let line = long_line(count as u64);
    copy_front(&line, frame);
    frame[FRONT + count] = b'\r';
    frame[FRONT + count + 1] = b'\n';
    leading_zeros(&line)
}

// Sixteen digits, CR and LF.
fn long_line(count: u64) -> [u8; 18]
    ensures { result ≡ long_line_of count }
{
    let mut line = *b"0000000000000000\r\n";
    let Ok(()) = hex::encode_to_slice(count.to_be_bytes(), &mut line[..16]) else {
        unreachable!()
    };
    line
}

// How many digits are zeros before another one; the last digit stays.
fn leading_zeros(line: &[u8; 18]) -> usize
    ensures start { result ≤ 15 }
    ensures zeros { result ≡ zeros line.now }
{
    match first_other(&line[..15]) {
        Some(at) => at,
        None => 15,
    }
}

fn first_other(digits: &[u8]) -> Option<usize>
    ensures { result ≡ position (λ d. not (d == 48)) digits.now }
{
    digits.iter().position(|d| !(*d == b'0'))
}

// The piece that stands in a frame.
fn piece_of(frame: &[u8], count: usize) -> &[u8]
    requires { 20 + count ≤ length frame.now }
    ensures piece { result.now ≡ take count (drop 18 frame.now) }
    ensures len { length result.now ≡ count }
{
    between(frame, FRONT, FRONT + count)
}

// The bytes from one place to another.
fn between(bytes: &[u8], start: usize, stop: usize) -> &[u8]
    requires order { start ≤ stop }
    requires within { stop ≤ length bytes.now }
    ensures { result.now ≡ drop start (take stop bytes.now) }
{
    &bytes[start..stop]
}
