//! What is told of the final head. Expected values are by hand, from RFC 9110, sections 5.6.7, 8.8 and 14.4.

use crate::hearing::feed_all;
use acng_answer::{AnswerHead, AnswerReader};
use acng_base::Moment;
use std::alloc::Global;
use std::process::Abort;
use std::test::Fail;

const HEAD: &[u8] =
    b"HTTP/1.1 206 P\r\nETag: \"x\"\r\nLast-Modified: Sun, 06 Nov 1994 08:49:37 GMT\r\ncontent-range: bytes 0-3/9\r\n\r\n";

const REDIRECT: &[u8] =
    b"HTTP/1.1 302 F\r\nLocation: http://h/a?b \r\nETag: W/\"x\"\r\nLast-Modified: today\r\nContent-Length: 0\r\n\r\n";

const TWICE: &[u8] =
    b"HTTP/1.1 302 F\r\nLocation: /a\r\nLocation: /a\r\nETag: \"x\"\r\nETag: \"x\"\r\n\r\n";

// A reader that has taken the text, in pieces of at most `cut` bytes.
fn taken(alloc: Global, text: &[u8], cut: usize) -> Result<AnswerReader, Fail> {
    let mut reader = AnswerReader::new(alloc)?;
    feed_all(alloc, &mut reader, text, cut)?;
    Ok(reader)
}

// What is told of the part, but its tag.
fn expect_part(rt: &impl Abort, head: &AnswerHead) {
    assert_eq!(rt; head.status, 206);
    assert_eq!(rt; head.length, None);
    assert_eq!(rt; head.range, Some((0, 3, 9)));
    assert_eq!(rt; head.modified, Some(Moment(784_111_777)));
}

fn expect_tag(rt: &impl Abort, head: &AnswerHead, cut: usize) {
    match &head.tag {
        Some(tag) => assert_eq!(rt; tag.as_bytes(), b"\"x\"".as_slice()),
        None => panic!(rt; "no tag in cuts of {cut}"),
    }
}

#[test]
fn a_part_is_told_with_its_validators(rt: HostRuntime) -> Result<(), Fail> {
    for cut in [1, 7, 4096] {
        let reader = taken(rt.alloc(), HEAD, cut)?;
        let Some(head) = reader.head() else {
            panic!(rt; "no head in cuts of {cut}");
        };
        expect_part(&rt, head);
        expect_tag(&rt, head, cut);
        assert_eq!(rt; reader.due(), Some(4));
        assert!(rt; reader.location().is_none());
    }
    Ok(())
}

// What is told of the redirect, but its place: neither its weak tag nor a date that is none.
fn expect_redirect(rt: &impl Abort, head: &AnswerHead) {
    assert_eq!(rt; head.status, 302);
    assert_eq!(rt; head.length, Some(0));
    assert!(rt; head.tag.is_none());
    assert_eq!(rt; head.modified, None);
}

#[test]
fn a_redirect_is_told_with_its_place(rt: HostRuntime) -> Result<(), Fail> {
    for cut in [1, 7, 4096] {
        let reader = taken(rt.alloc(), REDIRECT, cut)?;
        let Some(place) = reader.location() else {
            panic!(rt; "no place in cuts of {cut}");
        };
        assert_eq!(rt; place, b"http://h/a?b".as_slice(), "in cuts of {cut}");
        let Some(head) = reader.head() else {
            panic!(rt; "no head in cuts of {cut}");
        };
        expect_redirect(&rt, head);
    }
    Ok(())
}

#[test]
fn a_field_that_stands_twice_is_as_if_it_were_not_there(rt: HostRuntime) -> Result<(), Fail> {
    let reader = taken(rt.alloc(), TWICE, 4096)?;
    assert!(&rt; reader.location().is_none());
    let Some(head) = reader.head() else {
        assert!(&rt; false, "no head");
        return Ok(());
    };
    assert!(&rt; head.tag.is_none());
    Ok(())
}
