//! What is told of replies, as lines of text.
use crate::fault::Fault;
use acng_base::{CachePath, PathFault};
use acng_cli::OnceStop;
use acng_desk::{Brim, Entry};
use acng_expire::ExpireLine;
use acng_grow::Shown;
use acng_head::Label;
use acng_keeper::{CallSlip, KeeperSlip};
use acng_request::HeadFault;
use acng_serve::{Cause, Note, SessionStop};
use std::alloc::Global;
use std::str;

/// The line of a reply.
pub fn note_line(alloc: Global, note: &Note<CallSlip>) -> Result<String, Fault> {
    let cause = cause_text(alloc, &note.cause)?;
    let label = label_text(alloc, note.label)?;
    let part = part_text(alloc, note.part)?;
    let entry = entry_text(alloc, &note.entry)?;
    let whole = if note.whole { "whole" } else { "broken" };
    let status = note.status;
    let sent = note.sent;
    Ok(format!(in alloc;
        "reply {status} {cause}; {label}; {part}; sent {sent} {whole}; {entry}\n"
    )?)
}

fn word(alloc: Global, word: &str) -> Result<String, Fault> {
    Ok(String::from_str(alloc, word)?)
}

fn cause_text(alloc: Global, cause: &Cause<CallSlip>) -> Result<String, Fault> {
    match cause {
        Cause::NoPart { from, total } => Ok(format!(in alloc; "NoPart {from} {total}")?),
        Cause::Page { page, run } => page_text(alloc, page.first(), run.as_ref()),
        Cause::Head(fault) => word(alloc, head_word(*fault)),
        Cause::BadPath(fault) => path_fault_text(alloc, *fault),
        Cause::Load(shown) => shown_text(alloc, shown),
        Cause::KeeperSlip(slip) => {
            let call = slip.call();
            Ok(format!(in alloc; "KeeperSlip {call}")?)
        }
        Cause::Offline(brim) => brim_text(alloc, "Offline", brim),
        Cause::Full(brim) => brim_text(alloc, "Full", brim),
        Cause::Worn(brim) => brim_text(alloc, "Worn", brim),
        cause => word(alloc, cause_word(cause)),
    }
}

// A page by its first text, and the moment and the slip of the run before it.
fn page_text(
    alloc: Global,
    first: &[u8],
    run: Option<&ExpireLine<CallSlip>>,
) -> Result<String, Fault> {
    let Some(run) = run else {
        let len = first.len();
        return Ok(format!(in alloc; "Page {len}")?);
    };
    let same = if run.as_bytes() == first {
        "its line"
    } else {
        "another line"
    };
    let moment = run.moment().0;
    match run.slip() {
        Some(slip) => {
            let call = slip.call();
            Ok(format!(in alloc; "Page {same} at {moment} slip {call}")?)
        }
        None => Ok(format!(in alloc; "Page {same} at {moment}")?),
    }
}

// The causes that say no more than their names.
fn cause_word(cause: &Cause<CallSlip>) -> &'static str {
    match cause {
        Cause::Served => "Served",
        Cause::NotModified => "NotModified",
        Cause::Connect => "Connect",
        Cause::Tls => "Tls",
        Cause::BadTarget => "BadTarget",
        Cause::Query => "Query",
        Cause::Forbidden => "Forbidden",
        Cause::Maint => "Maint",
        Cause::ClientFault => "ClientFault",
        _ => "NoMemory",
    }
}

fn head_word(fault: HeadFault) -> &'static str {
    match fault {
        HeadFault::BadHead => "BadHead",
        HeadFault::TooLarge => "TooLarge",
        HeadFault::Method => "Method",
        HeadFault::HasBody => "HasBody",
    }
}

fn path_fault_text(alloc: Global, fault: PathFault) -> Result<String, Fault> {
    match fault {
        PathFault::NoMemory => word(alloc, "NoMemory"),
        PathFault::Empty => word(alloc, "BadPath Empty"),
        PathFault::TooLong { len } => Ok(format!(in alloc; "BadPath TooLong {len}")?),
        PathFault::BadByte { at } => Ok(format!(in alloc; "BadPath BadByte {at}")?),
        PathFault::BadSegment { at } => Ok(format!(in alloc; "BadPath BadSegment {at}")?),
    }
}

fn shown_text(alloc: Global, shown: &Shown) -> Result<String, Fault> {
    match shown {
        Shown::Origin { attempt } => Ok(format!(in alloc; "Load Origin {attempt}")?),
        Shown::Early { attempt } => Ok(format!(in alloc; "Load Early {attempt}")?),
        Shown::Bad { attempt, at } => Ok(format!(in alloc; "Load Bad {attempt} at {at}")?),
        Shown::Status { attempt, status } => {
            Ok(format!(in alloc; "Load Status {attempt} {status}")?)
        }
        Shown::TlsRedirect { attempt } => Ok(format!(in alloc; "Load TlsRedirect {attempt}")?),
        Shown::Redirects { attempt } => Ok(format!(in alloc; "Load Redirects {attempt}")?),
        Shown::Gone { attempt } => Ok(format!(in alloc; "Load Gone {attempt}")?),
        Shown::Keeper(mark) => {
            let call = mark.call();
            let attempt = mark.attempt();
            Ok(format!(in alloc; "Load Keeper {call} {attempt}")?)
        }
        Shown::NoMemory => word(alloc, "Load NoMemory"),
    }
}

fn path_text(path: &CachePath) -> &str {
    str::from_utf8(path.as_bytes()).unwrap_or("?")
}

fn brim_text(alloc: Global, kind: &str, brim: &Brim) -> Result<String, Fault> {
    let path = path_text(brim.path());
    Ok(format!(in alloc; "{kind} {path}")?)
}

fn label_text(alloc: Global, label: Option<Label>) -> Result<String, Fault> {
    match label {
        Some(Label::Fetched { first, last }) => Ok(format!(in alloc; "fetched {first} {last}")?),
        Some(Label::Imported { size, .. }) => Ok(format!(in alloc; "imported {size}")?),
        None => word(alloc, "-"),
    }
}

fn part_text(alloc: Global, part: Option<(u64, u64)>) -> Result<String, Fault> {
    match part {
        Some((first, last)) => Ok(format!(in alloc; "part {first} {last}")?),
        None => word(alloc, "-"),
    }
}

fn entry_text(alloc: Global, entry: &Option<Entry>) -> Result<String, Fault> {
    let Some(entry) = entry else {
        return word(alloc, "-");
    };
    let kept = if entry.kept() { "kept" } else { "led" };
    let moment = entry.moment().0;
    let first = entry.asked().first_try;
    let old = label_text(alloc, entry.asked().old)?;
    let path = path_text(&entry.asked().path);
    Ok(format!(in alloc; "{kept} at {moment} from {first}, old {old}, {path}")?)
}

/// How a connection ended.
pub fn stop_word(stop: SessionStop) -> &'static str {
    match stop {
        SessionStop::ClientFault => "ClientFault",
        SessionStop::Limit => "Limit",
        SessionStop::Closed => "Closed",
        SessionStop::ClientEnded => "ClientEnded",
        SessionStop::NoMemory => "NoMemory",
    }
}

/// How a run ended.
pub fn once_word(stop: OnceStop) -> &'static str {
    match stop {
        OnceStop::Replied => "Replied",
        OnceStop::ClientEnded => "ClientEnded",
        OnceStop::ClientFault => "ClientFault",
    }
}
