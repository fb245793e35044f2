//! The text that an ask is sent as.
use crate::asks::plain_ask;
use acng_base::{Moment, Tag};
use acng_site::Request;
use std::alloc::Global;
use std::test::Fail;

// The rows of a table are one text, cut at `|`: the URL, the place, the tag, the moment, and the lines before the empty
// one. They are those of RFC 9112, section 3, and RFC 9110; the date is the example of its section 5.6.7. The last rows are
// URLs that aren't dialed.
const REQUESTS: &str = "\
http://h^9^^^GET / HTTP/1.1\r\nHost: h\r\nUser-Agent: acng\r\nConnection: close\r\n|\
http://u:p@H.example:8080/a//b/?x=1#f^9^\"t\"^784111777^GET /a//b/?x=1 HTTP/1.1\r\nHost: h.example:8080\r\n\
User-Agent: acng\r\nConnection: close\r\nRange: bytes=9-\r\nIf-Range: \"t\"\r\n\
If-Modified-Since: Sun, 06 Nov 1994 08:49:37 GMT\r\n|\
http://127.1:80/a b^0^^^GET /a%20b HTTP/1.1\r\nHost: 127.0.0.1\r\nUser-Agent: acng\r\nConnection: close\r\n|\
https://h/^0^^^|\
h/a^0^^^|\
http://256.1.1.1/a^0^^^|\
http://[::1]:80/a^0^^^";

// Whether a row of them holds.
fn holds(alloc: Global, row: &str) -> Option<bool> {
    let mut fields = row.split('^');
    let url = fields.next()?;
    let from = fields.next()?.parse::<u64>().ok()?;
    let tag = fields.next()?;
    let since = fields.next()?.parse::<u64>().ok();
    let lines = fields.next()?;
    let mut ask = plain_ask(alloc, url.as_bytes(), from).ok()?;
    ask.tag = Tag::read(tag.as_bytes());
    if let Some(seconds) = since
        && seconds < 1_000_000_000
    {
        ask.since = Some(Moment(seconds));
    }
    let request = Request::of(alloc, &ask);
    let text = request
        .as_ref()
        .map_or(b"".as_slice(), |request| request.text.as_bytes());
    Some(text.strip_suffix(b"\r\n").unwrap_or(b"") == lines.as_bytes())
}

#[test]
fn the_request_of_an_ask(rt: HostRuntime) -> Result<(), Fail> {
    for row in REQUESTS.split('|') {
        assert!(rt; holds(rt.alloc(), row) == Some(true), "{row}");
    }
    Ok(())
}
