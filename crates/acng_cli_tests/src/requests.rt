//! Requests one after another over one cache: what each gets, by the rules of replies (RFC 9110 and RFC 9112) and by hand.
//!
//! A table is one text, cut at `|`, and the fields of a row at `^`: the configuration, the moment, the request's first line, the
//! program's status, the reply's status line, and what follows its head.
use crate::cache::{Around, Cache, NEVER, run};
use acng_base::{NoMemory, Text};
use acng_site::Rule;
use std::alloc::Global;
use std::process::Abort;
use std::test::Fail;

// A package is fetched once, since its origin would answer no second time. An index that was checked at 1000 is fresh at 1027,
// and at 1028 it is asked for again: attempt 2 says that it is the same, and then it is fresh again.
const ROWS: &str = "\
^1000^GET http://a/x.deb HTTP/1.1^0^HTTP/1.1 200 OK^abc|\
^1000^GET http://a/x.deb HTTP/1.1^0^HTTP/1.1 200 OK^abc|\
^1000^GET /a//x.deb HTTP/1.0^0^HTTP/1.1 200 OK^abc|\
^1000^HEAD /a/x.deb HTTP/1.1^0^HTTP/1.1 200 OK^|\
^1000^GET http://a/InRelease HTTP/1.1^0^HTTP/1.1 200 OK^abc|\
^1027^GET http://a/InRelease HTTP/1.1^0^HTTP/1.1 200 OK^abc|\
^1028^GET http://a/InRelease HTTP/1.1^0^HTTP/1.1 200 OK^abc|\
^1055^GET http://a/InRelease HTTP/1.1^0^HTTP/1.1 200 OK^abc|\
Offlinemode: 1^9999^GET http://a/InRelease HTTP/1.1^0^HTTP/1.1 200 OK^abc|\
Offlinemode: 1^9999^GET http://a/y.deb HTTP/1.1^1^HTTP/1.1 503 Service Unavailable^503 Offline\n|\
^1000^GET http://a/y.deb HTTP/1.1^1^HTTP/1.1 404 Not Found^404 Gone\n|\
^1000^GET http://b/x.deb HTTP/1.1^1^HTTP/1.1 502 Bad Gateway^502 Origin\n|\
^1000^GET http://a/readme HTTP/1.1^1^HTTP/1.1 403 Forbidden^403 Forbidden\n|\
^1000^GET https://a/x.deb HTTP/1.1^1^HTTP/1.1 403 Forbidden^403 Tls\n|\
^1000^GET /acng-report.html HTTP/1.1^0^HTTP/1.1 200 OK^<!DOCTYPE html><html><head><title>acng report</title></head><body><pre>\n\
a/InRelease 3 volatile -\na/x.deb 3 solid -\nrows 2 bytes 6\n</pre></body></html>\n|\
^1000^GET /acng-report.html?run=expire HTTP/1.1^1^HTTP/1.1 403 Forbidden^403 Maint\n|\
^1000^POST /a/x.deb HTTP/1.1^1^HTTP/1.1 405 Method Not Allowed^405 Method\n|\
^1000^GET  / HTTP/1.1^1^HTTP/1.1 400 Bad Request^400 BadHead\n";

// The origin's answers.
pub fn rules(alloc: Global) -> Result<[Rule; 4], NoMemory> {
    Ok([
        rule(
            alloc,
            "http://a/x.deb",
            0,
            "HTTP/1.1 200 OK\r\nContent-Length: 3\r\n\r\nabc",
        )?,
        rule(
            alloc,
            "http://a/InRelease",
            1,
            "HTTP/1.1 200 OK\r\nLast-Modified: Thu, 01 Jan 1970 00:16:40 GMT\r\nContent-Length: 3\r\n\r\nabc",
        )?,
        rule(
            alloc,
            "http://a/InRelease",
            2,
            "HTTP/1.1 304 Not Modified\r\n\r\n",
        )?,
        rule(alloc, "http://a/y.deb", 2, "HTTP/1.1 404 Not Found\r\n\r\n")?,
    ])
}

// The answer of one attempt.
fn rule(alloc: Global, url: &str, attempt: u64, answer: &str) -> Result<Rule, NoMemory> {
    Ok(Rule {
        url: Text::copy(alloc, url.as_bytes())?,
        from: 0,
        first: attempt,
        last: attempt,
        bytes: Text::copy(alloc, answer.as_bytes())?,
        fault: false,
    })
}

// The fields of a row.
#[derive(Clone, Copy)]
struct Row<'a> {
    conf: &'a str,
    moment: u64,
    request: &'a str,
    status: &'a str,
    line: &'a str,
    body: &'a str,
}

fn row_of(text: &str) -> Result<Row<'_>, Fail> {
    let (conf, rest) = text.split_once('^').ok_or("a row of one field")?;
    let (moment, rest) = rest.split_once('^').ok_or("a row of two fields")?;
    let (request, rest) = rest.split_once('^').ok_or("a row of three fields")?;
    let (status, rest) = rest.split_once('^').ok_or("a row of four fields")?;
    let (line, body) = rest.split_once('^').ok_or("a row of five fields")?;
    let moment = moment.parse::<u64>().ok().ok_or("a moment that is none")?;
    Ok(Row {
        conf,
        moment,
        request,
        status,
        line,
        body,
    })
}

// Runs a row, and gives the cache back.
fn expect(
    rt: &impl Abort,
    alloc: Global,
    cache: Cache,
    rules: &[Rule],
    cut: usize,
    text: &str,
) -> Result<Cache, Fail> {
    let row = row_of(text)?;
    let around = Around {
        conf: row.conf,
        moment: row.moment,
        rules,
        cut,
        link_fails: NEVER,
        conf_fails: NEVER,
    };
    let mut request = Vec::from_slice(alloc, row.request.as_bytes())?;
    request.extend_from_slice(b"\r\n\r\n".as_slice())?;
    let ran = run(alloc, "once", cache, around, request.as_slice());
    let (outcome, cache) = ran.ok().ok_or("memory")?;
    let status = format!(in alloc; "{}", outcome.status)?;
    assert_eq!(rt; status.as_str(), row.status, "{text}");
    assert!(rt; outcome.written.starts_with(row.line.as_bytes()), "{text}");
    assert!(rt; outcome.written.ends_with(row.body.as_bytes()), "{text}");
    let end = outcome.written.len().saturating_sub(row.body.len());
    assert!(rt; outcome.written[..end].ends_with(b"\r\n\r\n"), "{text}");
    Ok(cache)
}

#[test]
fn each_request_gets_its_reply(rt: HostRuntime) -> Result<(), Fail> {
    let alloc = rt.alloc();
    let rules = rules(alloc).ok().ok_or("memory")?;
    for cut in [1, 4096] {
        let mut cache = Cache::new(alloc, &[]).ok().ok_or("memory")?;
        for row in ROWS.split('|') {
            cache = expect(&rt, alloc, cache, &rules, cut, row)?;
        }
    }
    Ok(())
}

// Words, a configuration, the program's status, and whether anything was written.
const STATUSES: &str = "\
once^^0^yes|\
--conf x once^^0^yes|\
once 3^^2^no|\
serve^^2^no|\
check-conf^^2^no|\
^^2^no|\
once^Port: 70000^3^no|\
serve^Port: 70000^2^no";

#[test]
fn a_run_that_answers_nothing_says_why(rt: HostRuntime) -> Result<(), Fail> {
    let alloc = rt.alloc();
    let rules = rules(alloc).ok().ok_or("memory")?;
    for row in STATUSES.split('|') {
        let (words, rest) = row.split_once('^').ok_or("a row of one field")?;
        let (conf, rest) = rest.split_once('^').ok_or("a row of two fields")?;
        let (status, written) = rest.split_once('^').ok_or("a row of three fields")?;
        let around = Around {
            conf,
            moment: 1000,
            rules: &rules,
            cut: 4096,
            link_fails: NEVER,
            conf_fails: NEVER,
        };
        let cache = Cache::new(alloc, &[]).ok().ok_or("memory")?;
        let ran = run(
            alloc,
            words,
            cache,
            around,
            b"GET http://a/x.deb HTTP/1.1\r\n\r\n",
        );
        let (outcome, _) = ran.ok().ok_or("memory")?;
        let got = format!(in alloc; "{}", outcome.status)?;
        assert_eq!(rt; got.as_str(), status, "{row}");
        assert_eq!(rt; outcome.written.is_empty(), written == "no", "{row}");
    }
    Ok(())
}
