//! The heads of the replies (RFC 9110, sections 8, 14.4 and 15; RFC 9112, sections 6 and 9.6).
ghost use Rattle.std.specs.Prelude.{◌≡◌, ◌-◌, true, Some, None};
ghost use Rattle.acng_request.specs.ReplyHeads.{is_reply_status, IsWritable};
ghost use Rattle.acng_reply.specs.Heads.{line_head, page_head, file_head, of_file as of_file_of, sending_of};
ghost use Rattle.acng_reply.specs.Lines.{total_in as total_in_of};
ghost use Rattle.acng_reply.specs.Heads.{file_framing as file_framing_of, ends_body as ends_body_of, sent_as as sent_as_of};

use crate::line::Line;
use crate::manner::Manner;
use crate::pick::Pick;
use acng_grow::{Facts, Sending};
use acng_request::{Framing, Kind, ReplyHead};

/// The head of a reply of one line.
pub fn line_head(manner: Manner, line: Line) -> ReplyHead
    ensures head { result ≡ line_head manner line }
    ensures told { is_reply_status result.status ≡ true }
{
    ReplyHead {
        status: line.status(),
        framing: Framing::Length(line.text().len() as u64),
        kind: Kind::Plain,
        part: None,
        total: total_in(line),
        modified: None,
        tag: None,
        close: manner.close,
    }
}

// The length of the whole of which no part is sent.
fn total_in(line: Line) -> Option<u64>
    ensures { result ≡ total_in_of line }
{
    match line {
        Line::NoPart { total } => Some(total),
        _ => None,
    }
}

/// The head of a page of so many bytes. The connection closes after it.
pub fn page_head(len: u64) -> ReplyHead
    ensures { result ≡ page_head len }
{
    ReplyHead {
        status: 200,
        framing: Framing::Length(len),
        kind: Kind::Html,
        part: None,
        total: None,
        modified: None,
        tag: None,
        close: true,
    }
}

/// The head over what is sent of a file with these facts. The head of a reply to HEAD is that of GET.
pub fn file_head(manner: Manner, facts: &Facts, pick: Pick) -> ReplyHead
    ensures head { result ≡ file_head manner facts.now pick }
    ensures told { is_reply_status result.status ≡ true }
    ensures dated { IsWritable facts.now.modified → IsWritable result.modified }
{
    match pick {
        Pick::Unmodified => of_file(manner, facts, 304, Framing::Length(0), None),
        Pick::NoPart { total, .. } => line_head(manner, Line::NoPart { total }),
        Pick::Section { from, stop, total } => {
            let part = (from, stop.saturating_sub(1), total);
            let framing = Framing::Length(stop.saturating_sub(from));
            of_file(manner, facts, 206, framing, Some(part))
        }
        Pick::All => {
            let framing = file_framing(manner.minor, facts.total);
            of_file(manner, facts, 200, framing, None)
        }
    }
}

/// Whether the connection closes after the whole reply that sends this of a file.
pub fn closes(manner: Manner, facts: &Facts, pick: Pick) -> bool
    ensures { result ≡ (file_head manner facts.now pick).close }
{
    match pick {
        Pick::All => manner.close || ends_body(file_framing(manner.minor, facts.total)),
        Pick::Unmodified | Pick::NoPart { .. } | Pick::Section { .. } => manner.close,
    }
}

fn of_file(
    manner: Manner,
    facts: &Facts,
    status: u16,
    framing: Framing,
    part: Option<(u64, u64, u64)>,
) -> ReplyHead
    ensures { result ≡ of_file_of manner facts.now status framing part }
{
    let Facts { modified, tag, .. } = facts.again();
    ReplyHead {
        status,
        framing,
        kind: Kind::File,
        part,
        total: None,
        modified,
        tag,
        close: manner.close || ends_body(framing),
    }
}

// A known length is told; an unknown one is sent in chunks, to HTTP/1.0 to the connection's end.
fn file_framing(minor: u8, total: Option<u64>) -> Framing
    ensures { result ≡ file_framing_of minor total }
{
    match total {
        Some(total) => Framing::Length(total),
        None if minor == 0 => Framing::ToEnd,
        None => Framing::Chunked,
    }
}

fn ends_body(framing: Framing) -> bool
    ensures { result ≡ ends_body_of framing }
{
    matches!(framing, Framing::ToEnd)
}

/// How the body behind a head is sent. Nothing follows the head of a reply to HEAD, no last chunk either.
pub fn sending_of(manner: Manner, framing: Framing) -> Sending
    ensures { result ≡ sending_of manner framing }
{
    if manner.bare {
        return Sending::Length;
    }
    match framing {
        Framing::Length(_) => Sending::Length,
        Framing::Chunked => Sending::Chunked,
        Framing::ToEnd => Sending::ToEnd,
    }
}
