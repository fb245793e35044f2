//! Replies whose whole text is at hand: a line, a page, and a head alone.
ghost use Rattle.std.specs.Prelude.{◌≡◌, ◌+◌, ◌≤◌, ◌++◌, ℕ, List, [], true, take, length, OnOk, OnErr};
ghost use Rattle.std.specs.Io.KnownBytes.{Appends, Keeps};
ghost use Rattle.acng_base.specs.Causes.{HasCause, Rose};
ghost use Rattle.acng_request.specs.ReplyHeads.{is_reply_status, IsWritable, IsDateOf, head_text};
ghost use Rattle.acng_reply.specs.Manners.{unless_bare as unless_bare_of};
ghost use Rattle.acng_reply.specs.Replies.{HeadWent, HeadBroke, line_reply, page_reply, sent_by, WroteAll, WroteFront};

use crate::head::{line_head, page_head};
use crate::line::Line;
use crate::manner::Manner;
use acng_base::{Failed, Link, send_counted};
use acng_request::{ReplyHead, reply_head};

/// The bytes that a head and a line behind it fit in.
const ROOM: usize = 1024;

/// Sends a reply of one line, head and line in one write. Says how many bytes of the line the link took.
pub fn send_line<L: Link>(manner: Manner, line: Line, client: &mut L) -> (u64, Result<(), Failed>)
    ensures all { OnOk result.1 (WroteAll (line_reply manner line) (sent_by L.Link client.old client.new)) }
    ensures count { OnOk result.1 (result.0 ≡ length (line_reply manner line).body) }

    // A fault of the link, and what else happens.
    ensures broke { OnErr result.1 (WroteFront (line_reply manner line) result.0 (sent_by L.Link client.old client.new)) }
    ensures others { Keeps (L.left client.old) (L.left client.new) }
    ensures cause { HasCause (L.faults client.old) (L.faults client.new) result.1 }
{
    let mut out = [0; ROOM];
    let len = reply_head(&line_head(manner, line), &mut out);
    let stop = put_behind(&mut out, len, unless_bare(manner, line.text()));
    let (taken, outcome) = send_counted(client, &out[..stop]);
    (taken.saturating_sub(len) as u64, outcome)
}

/// Sends a page. Says how many of its bytes the link took.
pub fn send_page<L: Link>(manner: Manner, page: &[u8], client: &mut L) -> (u64, Result<(), Failed>)
    ensures all { OnOk result.1 (WroteAll (page_reply manner page.now) (sent_by L.Link client.old client.new)) }
    ensures count { OnOk result.1 (result.0 ≡ length (page_reply manner page.now).body) }

    // A fault of the link, and what else happens.
    ensures broke { OnErr result.1 (WroteFront (page_reply manner page.now) result.0 (sent_by L.Link client.old client.new)) }
    ensures others { Keeps (L.left client.old) (L.left client.new) }
    ensures cause { HasCause (L.faults client.old) (L.faults client.new) result.1 }
{
    if let Err(fault) = send_head(&page_head(page.len() as u64), client) {
        return (0, Err(fault));
    }
    let (taken, outcome) = send_counted(client, unless_bare(manner, page));
    (taken as u64, outcome)
}

/// Sends a head in one write.
pub fn send_head<L: Link>(head: &ReplyHead, client: &mut L) -> Result<(), Failed>
    requires status { is_reply_status head.now.status ≡ true }
    requires modified { IsWritable head.now.modified }
    ensures all { OnOk result (HeadWent head.now (sent_by L.Link client.old client.new)) }

    // A fault of the link, and what else happens.
    ensures broke { OnErr result (HeadBroke head.now (sent_by L.Link client.old client.new)) }
    ensures others { Keeps (L.left client.old) (L.left client.new) }
    ensures cause { HasCause (L.faults client.old) (L.faults client.new) result }
{
    let mut out = [0; ROOM];
    let len = reply_head(head, &mut out);
    let (_, outcome) = send_counted(client, &out[..len]);
    outcome
}

// The body of a reply, which one to HEAD doesn't have.
fn unless_bare(manner: Manner, body: &[u8]) -> &[u8]
    ensures { result.now ≡ unless_bare_of manner body.now }
{
    if manner.bare { b"" } else { body }
}

// Puts a text behind the bytes that stand in front. Says where it ends.
fn put_behind(out: &mut [u8; 1024], at: usize, text: &[u8]) -> usize
    requires room { at + length text.now ≤ 1024 }
    ensures text { take result out.new ≡ take at out.old ++ text.now }
    ensures stop { result ≡ at + length text.now }
{
    let stop = at + text.len();
    out[at..stop].copy_from_slice(text);
    stop
}
