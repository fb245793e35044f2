//! Which replies and notes a request for a file may get: a check of what was written and told, by the rules as
//! docs/FORMATS.md has them and by what the mirror has, and not by the cache's own functions.
use crate::bodies::{Sought, chunked, sized};
use crate::heads::{chunked_lines, file_head, line_head, part_lines, status_text, whole_lines};
use crate::mirror::Unmade;
use crate::places::{Kind, Place, is_unchanged, minute_of};
use crate::tally::{Served, Wrong};
use crate::wishes::Form;
use acng_desk::Entry;
use acng_grow::Shown;
use acng_head::Label;
use acng_serve::{Cause, Note};
use std::alloc::Global;

/// A request for a file: its place and form, its moment, and whether calls of the keeper fail.
#[derive(Clone, Copy)]
pub struct Case {
    pub place: Place,
    pub form: Form,
    pub moment: u64,
    pub fails: bool,
}

impl From<Unmade> for Wrong {
    fn from(_: Unmade) -> Wrong {
        Wrong::Memory
    }
}

/// What a reply takes of what was written, and what it counts for.
pub type Judged = Result<(usize, Served), Wrong>;

/// Checks the reply at the front of what is left of a connection, and its note.
pub fn check_file<Q>(alloc: Global, case: Case, note: &Note<Q>, rest: &[u8]) -> Judged {
    match note.status {
        200 | 206 | 304 | 416 => check_found(alloc, case, note, rest),
        _ => check_line(alloc, case, note, rest),
    }
}

impl Case {
    fn closes(self) -> bool {
        self.form == Form::Close
    }

    fn is_head(self) -> bool {
        self.form == Form::Head
    }
}

// ---- the entry and the label

// The entry of the request.
fn entry_of<Q>(case: Case, note: &Note<Q>) -> Result<&Entry, Wrong> {
    let Some(entry) = &note.entry else {
        return Err(Wrong::Entry);
    };
    if entry.asked().path.as_bytes() != case.place.path.as_bytes()
        || entry.moment().0 != case.moment
    {
        return Err(Wrong::Entry);
    }
    Ok(entry)
}

// Whether an attempt is one of the sixteen of an entry's download.
fn is_among(entry: &Entry, attempt: u64) -> bool {
    let first = entry.asked().first_try;
    first <= attempt && attempt.saturating_sub(first) < 16
}

fn is_old(entry: &Entry, first: u64, last: u64) -> bool {
    match entry.asked().old {
        Some(Label::Fetched { first: f, last: l }) => f == first && l == last,
        _ => false,
    }
}

// The attempt that found the file: a held one's, the old one's where it is as it was, or one of the download's.
fn finder_of(entry: &Entry, label: Option<Label>) -> Result<u64, Wrong> {
    let Some(Label::Fetched { first, last }) = label else {
        return Err(Wrong::Label);
    };
    let old = is_old(entry, first, last);
    let lawful = if entry.kept() {
        old
    } else {
        old || is_among(entry, last)
    };
    if first <= last && lawful {
        Ok(first)
    } else {
        Err(Wrong::Label)
    }
}

// ---- what is due

// What a request is to get of a file.
#[derive(Clone, Copy, PartialEq, Eq)]
enum Due {
    All,
    Section { first: u64, last: u64 },
    NoPart { from: u64 },
    Unmodified,
}

impl Due {
    fn status(self) -> u16 {
        match self {
            Due::All => 200,
            Due::Section { .. } => 206,
            Due::NoPart { .. } => 416,
            Due::Unmodified => 304,
        }
    }
}

// What is due of an edition whose length is known.
fn due_of(case: Case, edition: u64) -> Due {
    let total = case.place.length(edition);
    match case.form {
        Form::From(from) => range(from, u64::MAX, total),
        Form::Part(first, last) => range(first, last, total),
        Form::Since(minute) if case.place.is_dated() && minute_of(edition) <= minute => {
            Due::Unmodified
        }
        _ => Due::All,
    }
}

fn range(first: u64, last: u64, total: u64) -> Due {
    if total <= first {
        return Due::NoPart { from: first };
    }
    Due::Section {
        first,
        last: last.min(total.saturating_sub(1)),
    }
}

// What a reply of this status sends. While a file of unknown length comes, all of it may be sent whatever is asked for.
fn sent_of(case: Case, edition: u64, kept: bool, status: u16) -> Result<Due, Wrong> {
    let due = due_of(case, edition);
    if due.status() == status {
        return Ok(due);
    }
    if status == 200 && !kept && !case.place.tells_length() {
        return Ok(Due::All);
    }
    Err(Wrong::Status)
}

// ---- a file's reply

fn check_found<Q>(alloc: Global, case: Case, note: &Note<Q>, rest: &[u8]) -> Judged {
    if !case.place.has_file() {
        return Err(Wrong::Status);
    }
    let entry = entry_of(case, note)?;
    if entry.kept() && !case.place.comes_whole() {
        return Err(Wrong::Entry);
    }
    let edition = case.place.edition(finder_of(entry, note.label)?);
    match sent_of(case, edition, entry.kept(), note.status)? {
        Due::Unmodified => check_unmodified(alloc, case, edition, note, rest),
        Due::NoPart { from } => check_no_part(alloc, case, edition, from, note, rest),
        Due::Section { first, last } => {
            let sought = Sought {
                place: case.place,
                edition,
                from: first,
                stop: last.saturating_add(1),
                whole: note.whole,
            };
            if note.part != Some((first, last)) {
                return Err(Wrong::Part);
            }
            check_section(alloc, case, sought, note, rest)
        }
        Due::All => {
            let sought = Sought {
                place: case.place,
                edition,
                from: 0,
                stop: case.place.length(edition),
                whole: note.whole,
            };
            if note.part.is_some() {
                return Err(Wrong::Part);
            }
            check_all(alloc, case, sought, note, rest)
        }
    }
}

fn check_unmodified<Q>(
    alloc: Global,
    case: Case,
    edition: u64,
    note: &Note<Q>,
    rest: &[u8],
) -> Judged {
    if !matches!(note.cause, Cause::NotModified) {
        return Err(Wrong::Cause);
    }
    if note.sent != 0 || !note.whole || note.part.is_some() {
        return Err(Wrong::Sent);
    }
    let head = file_head(
        alloc,
        "304 Not Modified",
        "",
        case.place,
        edition,
        case.closes(),
    )?;
    let taken = after_head(rest, head.as_str())?;
    Ok((taken, Served::Bare))
}

fn check_no_part<Q>(
    alloc: Global,
    case: Case,
    edition: u64,
    from: u64,
    note: &Note<Q>,
    rest: &[u8],
) -> Judged {
    let total = case.place.length(edition);
    match note.cause {
        Cause::NoPart { from: f, total: t } if f == from && t == total => {}
        _ => return Err(Wrong::Cause),
    }
    let line = format_total(alloc, total)?;
    let taken = check_text(alloc, case, 416, "416 NoPart\n", line.as_str(), note, rest)?;
    Ok((taken, Served::Bare))
}

fn format_total(alloc: Global, total: u64) -> Result<String, Unmade> {
    Ok(format!(in alloc; "Content-Range: bytes */{total}\r\n")?)
}

// How many bytes a head takes.
fn after_head(rest: &[u8], head: &str) -> Result<usize, Wrong> {
    let head = head.as_bytes();
    if rest.starts_with(head) {
        Ok(head.len())
    } else {
        Err(Wrong::Head)
    }
}

fn check_section<Q>(
    alloc: Global,
    case: Case,
    sought: Sought,
    note: &Note<Q>,
    rest: &[u8],
) -> Judged {
    let total = sought.place.length(sought.edition);
    let last = sought.stop.saturating_sub(1);
    let lines = part_lines(alloc, sought.from, last, total)?;
    let lines = lines.as_str();
    let head = file_head(
        alloc,
        "206 Partial Content",
        lines,
        sought.place,
        sought.edition,
        case.closes(),
    )?;
    check_sized(case, head.as_str(), sought, note, rest)
}

// All of a file, with its length or in chunks.
fn check_all<Q>(alloc: Global, case: Case, sought: Sought, note: &Note<Q>, rest: &[u8]) -> Judged {
    let lines = whole_lines(alloc, sought.stop)?;
    let (place, edition, close) = (sought.place, sought.edition, case.closes());
    let head = file_head(alloc, "200 OK", lines.as_str(), place, edition, close)?;
    if rest.starts_with(head.as_str().as_bytes()) {
        return check_sized(case, head.as_str(), sought, note, rest);
    }
    if place.tells_length() || is_kept(note) {
        return Err(Wrong::Head);
    }
    let lines = chunked_lines(alloc)?;
    let head = file_head(alloc, "200 OK", lines.as_str(), place, edition, close)?;
    check_chunked(case, head.as_str(), sought, note, rest)
}

fn is_kept<Q>(note: &Note<Q>) -> bool {
    match &note.entry {
        Some(entry) => entry.kept(),
        None => false,
    }
}

fn check_sized<Q>(case: Case, head: &str, sought: Sought, note: &Note<Q>, rest: &[u8]) -> Judged {
    let start = after_head(rest, head)?;
    if case.is_head() {
        return check_bodiless(start, note);
    }
    let body = rest.get(start..).unwrap_or(b"");
    let found = sized(body, sought)?;
    if note.sent != found.sent {
        return Err(Wrong::Sent);
    }
    let served = check_end(case, note)?;
    Ok((start.saturating_add(found.taken), served))
}

fn check_chunked<Q>(case: Case, head: &str, sought: Sought, note: &Note<Q>, rest: &[u8]) -> Judged {
    let start = after_head(rest, head)?;
    if case.is_head() {
        return check_bodiless(start, note);
    }
    let body = rest.get(start..).unwrap_or(b"");
    let found = chunked(body, sought)?;
    if note.sent != found.sent {
        return Err(Wrong::Sent);
    }
    let served = check_end(case, note)?;
    Ok((start.saturating_add(found.taken), served))
}

// The reply to HEAD.
fn check_bodiless<Q>(start: usize, note: &Note<Q>) -> Judged {
    if !matches!(note.cause, Cause::Served) {
        return Err(Wrong::Cause);
    }
    if note.sent != 0 || !note.whole {
        return Err(Wrong::Sent);
    }
    Ok((start, Served::File))
}

// Why the body ended: it is whole, or a cause cut it that there may be for this place.
fn check_end<Q>(case: Case, note: &Note<Q>) -> Result<Served, Wrong> {
    if note.whole {
        return match note.cause {
            Cause::Served => Ok(Served::File),
            _ => Err(Wrong::Cause),
        };
    }
    match &note.cause {
        Cause::Load(shown) if may_show(case, entry_of(case, note)?, shown) => Ok(Served::Cut),
        Cause::KeeperSlip(_) if case.fails => Ok(Served::Cut),
        _ => Err(Wrong::Cause),
    }
}

// ---- causes

// Whether a download for the place may end so.
fn may_show(case: Case, entry: &Entry, shown: &Shown) -> bool {
    match shown {
        Shown::Origin { attempt } => {
            is_among(entry, *attempt) && matches!(case.place.kind, Kind::Broken | Kind::Silent)
        }
        Shown::Early { attempt } => is_among(entry, *attempt) && case.place.kind == Kind::Short,
        Shown::Status { attempt, status } => {
            is_among(entry, *attempt) && may_have(case.place, *attempt, *status)
        }
        Shown::Gone { attempt } => is_among(entry, *attempt) && case.place.kind == Kind::Missing,
        Shown::Keeper(mark) => is_among(entry, mark.attempt()) && case.fails,
        Shown::Bad { .. } | Shown::TlsRedirect { .. } | Shown::Redirects { .. } => false,
        Shown::NoMemory => false,
    }
}

// Whether the mirror answers an attempt by a status that brings nothing: a steady file is unchanged, and none is held.
fn may_have(place: Place, attempt: u64, status: u16) -> bool {
    match place.kind {
        Kind::Faulty => status == 500,
        Kind::Steady => status == 304 && is_unchanged(attempt),
        _ => false,
    }
}

// ---- lines

// Why there is no file: the text of the line.
fn text_of<Q>(case: Case, note: &Note<Q>) -> Result<&'static str, Wrong> {
    match &note.cause {
        Cause::Forbidden if case.place.kind == Kind::Forbidden && note.entry.is_none() => {
            Ok("403 Forbidden\n")
        }
        Cause::KeeperSlip(_) if case.fails && note.entry.is_none() => Ok("500 Keeper\n"),
        Cause::Load(shown) if may_show(case, entry_of(case, note)?, shown) => Ok(name_of(shown)),
        _ => Err(Wrong::Cause),
    }
}

fn name_of(shown: &Shown) -> &'static str {
    match shown {
        Shown::Origin { .. } => "502 Origin\n",
        Shown::Early { .. } => "502 Early\n",
        Shown::Status { .. } => "502 Status\n",
        Shown::Gone { .. } => "404 Gone\n",
        Shown::Keeper(_) => "500 Keeper\n",
        _ => "?",
    }
}

fn check_line<Q>(alloc: Global, case: Case, note: &Note<Q>, rest: &[u8]) -> Judged {
    let text = text_of(case, note)?;
    let taken = check_text(alloc, case, note.status, text, "", note, rest)?;
    Ok((taken, Served::Line))
}

// A reply by a line, in whose head a further line may stand.
fn check_text<Q>(
    alloc: Global,
    case: Case,
    status: u16,
    text: &str,
    line: &str,
    note: &Note<Q>,
    rest: &[u8],
) -> Result<usize, Wrong> {
    if !names(text, status) {
        return Err(Wrong::Status);
    }
    let head = line_head(alloc, status_text(status), text.len(), line, case.closes())?;
    let start = after_head(rest, head.as_str())?;
    let body = if case.is_head() { "" } else { text };
    let stop = start.saturating_add(body.len());
    if rest.get(start..stop) != Some(body.as_bytes()) {
        return Err(Wrong::Body);
    }
    if note.sent != body.len() as u64 || !note.whole || note.part.is_some() {
        return Err(Wrong::Sent);
    }
    Ok(stop)
}

// Whether a line begins with the status.
fn names(text: &str, status: u16) -> bool {
    match text.split_once(' ') {
        Some((number, _)) => number.parse::<u16>().ok() == Some(status),
        None => false,
    }
}
