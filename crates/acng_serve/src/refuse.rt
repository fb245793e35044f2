//! Replies of one line, and what is told of them.
ghost use Rattle.std.specs.Prelude.{◌≡◌, false, None};
ghost use Rattle.std.specs.Io.KnownBytes.{Keeps};
ghost use Rattle.acng_reply.specs.Manners.{unread};
ghost use Rattle.acng_reply.specs.Replies.{sent_by};
ghost use Rattle.acng_serve.specs.Causes.{is_client_fault};
ghost use Rattle.acng_serve.specs.Notes.{Gives, lined, line_or as line_or_of, LinkTold};

use crate::note::{Cause, Note};
use acng_base::Link;
use acng_desk::Entry;
use acng_head::Label;
use acng_reply::{Line, Manner, send_line};

/// Sends the line of a cause. A file that ended before its reply began has a label, and an entry.
pub(crate) fn refuse<Q: Drop, L: Link>(
    manner: Manner,
    cause: Cause<Q>,
    label: Option<Label>,
    entry: Option<Entry>,
    client: &mut L,
) -> Note<Q>
    requires { is_client_fault cause ≡ false }
    ensures gives { Gives (lined manner cause label entry) result (sent_by L.Link client.old client.new) }
    ensures others { Keeps (L.left client.old) (L.left client.new) }
    ensures fault { LinkTold result (L.faults client.old) (L.faults client.new) }
{
    let line = line_or(cause.line());
    let (sent, outcome) = send_line(manner, line, client);
    let status = line.status();
    match outcome {
        Ok(()) => told(status, cause, label, entry, sent, true),
        Err(_) => told(status, Cause::ClientFault, label, entry, sent, false),
    }
}

/// A note of a reply that no file is sent by.
pub(crate) fn told<Q>(
    status: u16,
    cause: Cause<Q>,
    label: Option<Label>,
    entry: Option<Entry>,
    sent: u64,
    whole: bool,
) -> Note<Q>
    ensures { result ≡ record { status = status; cause = cause; label = label; entry = entry; part = None; sent = sent; whole = whole } }
{
    Note {
        status,
        cause,
        label,
        entry,
        part: None,
        sent,
        whole,
    }
}

// The line of a cause; the causes without one aren't refusals.
fn line_or(line: Option<Line>) -> Line
    ensures { result ≡ line_or_of line }
{
    match line {
        Some(line) => line,
        None => Line::NoMemory,
    }
}

/// Answers what isn't a request that was read: a head that is refused, or want of memory.
pub fn answer_unread<Q: Drop, L: Link>(cause: Cause<Q>, client: &mut L) -> Note<Q>
    requires { is_client_fault cause ≡ false }
    ensures gives { Gives (lined unread cause None None) result (sent_by L.Link client.old client.new) }
    ensures others { Keeps (L.left client.old) (L.left client.new) }
    ensures fault { LinkTold result (L.faults client.old) (L.faults client.new) }
{
    refuse(Manner::unread(), cause, None, None, client)
}
