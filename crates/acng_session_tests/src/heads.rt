//! The heads that replies are to have (RFC 9110 and RFC 9112), as texts.
use crate::mirror::{Unmade, marks};
use crate::places::Place;
use std::alloc::Global;

fn connection(close: bool) -> &'static str {
    if close { "close" } else { "keep-alive" }
}

/// The head of a file's reply, of which some lines are given.
pub fn file_head(
    alloc: Global,
    status: &str,
    lines: &str,
    place: Place,
    edition: u64,
    close: bool,
) -> Result<String, Unmade> {
    let marks = if place.is_dated() {
        marks(alloc, place.number, edition)?
    } else {
        String::new(alloc)
    };
    let marks = swapped(alloc, marks.as_str())?;
    let (marks, connection) = (marks.as_str(), connection(close));
    Ok(format!(in alloc; "HTTP/1.1 {status}\r\n{lines}{marks}Connection: {connection}\r\n\r\n")?)
}

// The mirror tells its tag first, and a reply its date.
fn swapped(alloc: Global, marks: &str) -> Result<String, Unmade> {
    match marks.split_once("\r\n") {
        Some((tag, date)) => Ok(format!(in alloc; "{date}{tag}\r\n")?),
        None => Ok(String::new(alloc)),
    }
}

/// The line of a file's type.
const FILE: &str = "Content-Type: application/octet-stream\r\n";

/// The lines of a whole file of so many bytes.
pub fn whole_lines(alloc: Global, len: u64) -> Result<String, Unmade> {
    Ok(format!(in alloc; "{FILE}Content-Length: {len}\r\n")?)
}

/// The lines of a file in chunks.
pub fn chunked_lines(alloc: Global) -> Result<String, Unmade> {
    Ok(format!(in alloc; "{FILE}Transfer-Encoding: chunked\r\n")?)
}

/// The lines of a part by its first and last place, of a file of so many bytes.
pub fn part_lines(alloc: Global, first: u64, last: u64, total: u64) -> Result<String, Unmade> {
    let len = last.saturating_add(1).saturating_sub(first);
    Ok(format!(in alloc;
        "{FILE}Content-Length: {len}\r\nContent-Range: bytes {first}-{last}/{total}\r\n"
    )?)
}

/// The head of a line's reply, of which a further line may be given.
pub fn line_head(
    alloc: Global,
    status: &str,
    len: usize,
    line: &str,
    close: bool,
) -> Result<String, Unmade> {
    let connection = connection(close);
    Ok(format!(in alloc;
        "HTTP/1.1 {status}\r\nContent-Type: text/plain\r\nContent-Length: {len}\r\n{line}Connection: {connection}\r\n\r\n"
    )?)
}

/// The head of a page of so many bytes.
pub fn page_head(alloc: Global, len: usize) -> Result<String, Unmade> {
    Ok(format!(in alloc;
        "HTTP/1.1 200 OK\r\nContent-Type: text/html\r\nContent-Length: {len}\r\nConnection: close\r\n\r\n"
    )?)
}

/// The status of a line with its reason.
pub fn status_text(status: u16) -> &'static str {
    match status {
        403 => "403 Forbidden",
        404 => "404 Not Found",
        416 => "416 Range Not Satisfiable",
        500 => "500 Internal Server Error",
        502 => "502 Bad Gateway",
        _ => "?",
    }
}
