//! Origins over memory.
ghost use Rattle.std.specs.Prelude.{◌<◌, ◌&&◌, true, false, [], ◌∷◌, bytes_eq, codes, IfSome};
ghost use Rattle.acng_base.specs.Moments.{moment_limit};

use crate::asks::{given, outcome, plain_ask, rule};
use acng_base::{Moment, Tag, Text};
use acng_site::{Ask, Gate, MemoryOrigin, NoGate, Origin, Rule, Site, Untold};
use std::alloc::Global;
use std::sync::Arc;
use std::sync::atomic::{AtomicU64, Ordering};
use std::test::Fail;

// The rows of a table are one text, cut at `|`: URL, place and attempt; the bytes; `f` where a fault ends them.
const ANSWERS: &str = "\
http://a/f 0 0^^f|\
http://a/f 0 1^abcdefghij^|\
http://a/f 0 2^abcdefghij^|\
http://a/f 0 3^late^f|\
http://a/f 0 5^^f|\
http://a/f 6 1^ghij^|\
http://a/f 5 1^^f|\
http://a/g 0 1^^f|\
http://a/ 0 1^^f";

// What the rules answer to an ask in an attempt, with reads of so many bytes.
fn answered(
    alloc: Global,
    rules: &[Rule],
    cut: usize,
    ask: &str,
    attempt: u64,
) -> Option<(Vec<u8>, Option<u64>)> {
    let (url, from) = ask.split_once(' ')?;
    let ask = plain_ask(alloc, url.as_bytes(), from.parse::<u64>().ok()?).ok()?;
    if cut == 0 || attempt > 9 {
        return None;
    }
    let (origin, mut right) = MemoryOrigin::<Untold, NoGate>::start(
        alloc, rules, cut, NoGate,
    ).ok()?;
    right.skip_to(attempt);
    outcome(alloc, &origin, right.draw(), &ask).ok()
}

// Whether a row of them holds, with reads of so many bytes.
fn holds(alloc: Global, rules: &[Rule], row: &str, cut: usize) -> Option<bool> {
    let (asked, rest) = row.split_once('^')?;
    let (bytes, faults) = rest.split_once('^')?;
    let (ask, attempt) = asked.rsplit_once(' ')?;
    let attempt = attempt.parse::<u64>().ok()?;
    let (got, slip) = answered(alloc, rules, cut, ask, attempt)?;
    Some(got.as_slice() == bytes.as_bytes() && slip == (faults == "f").then_some(attempt))
}

// Before the first attempt of a rule and after the last one nothing answers; where two rules are for an attempt, the first
// one does; a fault comes at the first read where there are no bytes.
#[test]
fn the_first_rule_for_the_ask_answers_in_its_attempts(rt: HostRuntime) -> Result<(), Fail> {
    let alloc = rt.alloc();
    let rules = [
        rule(alloc, b"http://a/f", 0, (1, 2), b"abcdefghij", false)?,
        rule(alloc, b"http://a/f", 0, (2, 4), b"late", true)?,
        rule(alloc, b"http://a/f", 6, (0, 9), b"ghij", false)?,
        rule(alloc, b"http://a/g", 0, (0, 9), b"", true)?,
    ];
    for row in ANSWERS.split('|') {
        for cut in [1, 2, 4096] {
            assert!(rt;
                holds(alloc, &rules, row, cut) == Some(true),
                "{row} by {cut}"
            );
        }
    }
    Ok(())
}

// An ask for the rest of a file with a tag, and one for a file that is newer: a rule looks at URL and place alone.
fn answer_to(alloc: Global, from: u64, tag: Option<Tag>, since: Option<Moment>) -> Option<Vec<u8>>
    requires { IfSome since (λ moment. moment.0 < moment_limit) }
{
    let rules = [
        rule(alloc, b"http://a/f", 2, (0, 9), b"c", false).ok()?,
        rule(alloc, b"http://a/f", 0, (0, 9), b"abc", false).ok()?,
    ];
    let (origin, mut right) = MemoryOrigin::<Untold, NoGate>::start(alloc, &rules, 2, NoGate).ok()?;
    let ask = Ask {
        url: Text::copy(alloc, b"http://a/f").ok()?,
        from,
        tag,
        since,
    };
    Some(given(alloc, origin.dial(alloc, right.draw(), &ask)).ok()?.0)
}

#[test]
fn a_rule_answers_an_ask_with_a_tag_or_a_moment(rt: HostRuntime) -> Result<(), Fail> {
    let alloc = rt.alloc();
    let rest = answer_to(alloc, 2, Tag::read(b"\"x\""), None);
    assert!(rt; matches!(&rest, Some(bytes) if bytes.as_slice() == b"c".as_slice()));
    let newer = answer_to(alloc, 0, None, Some(Moment(1000)));
    assert!(rt; matches!(&newer, Some(bytes) if bytes.as_slice() == b"abc".as_slice()));
    Ok(())
}

// A site that tells: one file of three bytes, in the attempts 0 to 9.
#[derive(Drop)]
struct OneFile;

impl Site for OneFile {
    ghost use Rattle.acng_site.specs.Rules.{first_rule, bytes_of, fault_of};

    ghost tells = { true };

    ghost sent = { λ n a. bytes_of (first_rule
        (record { url = codes "http://a/f"; from = 0; first = 0; last = 9; bytes = codes "abc"; fault = false } ∷ []) n a) };

    ghost faulted = { λ n a. fault_of (first_rule
        (record { url = codes "http://a/f"; from = 0; first = 0; last = 9; bytes = codes "abc"; fault = false } ∷ []) n a) };

    ghost serves = { λ url path. bytes_eq url (codes "http://a/f") && bytes_eq path (codes "a/f") };

    ghost instance = { λ _ _. codes "abc" };
}

#[test]
fn an_origin_of_a_site_that_tells_starts(rt: HostRuntime) -> Result<(), Fail> {
    let alloc = rt.alloc();
    let rules = [Rule {
        url: Text::copy(alloc, b"http://a/f")?,
        from: 0,
        first: 0,
        last: 9,
        bytes: Text::copy(alloc, b"abc")?,
        fault: false,
    }];
    let (origin, mut right) = MemoryOrigin::<OneFile, NoGate>::start(alloc, &rules, 2, NoGate)?;
    let ask = plain_ask(alloc, b"http://a/f", 0)?;
    let (bytes, slip) = given(alloc, origin.dial(alloc, right.draw(), &ask))?;
    assert_eq!(rt; bytes.as_slice(), b"abc".as_slice());
    assert_eq!(rt; slip, None);
    Ok(())
}

// A gate that keeps the last attempt and adds up what was given.
#[derive(Drop)]
struct Tally {
    attempt: Arc<AtomicU64>,
    given: Arc<AtomicU64>,
}

impl Gate for Tally {
    fn pass(&self, attempt: u64, given: u64) {
        self.attempt.store(attempt, Ordering::SeqCst);
        self.given.fetch_add(given, Ordering::SeqCst);
    }
}

#[test]
fn a_gate_is_passed_before_each_read(rt: HostRuntime) -> Result<(), Fail> {
    let alloc = rt.alloc();
    let rules = [rule(alloc, b"http://a/f", 0, (0, 9), b"abc", false)?];
    let attempt = Arc::new(alloc, AtomicU64::new(0))?;
    let given = Arc::new(alloc, AtomicU64::new(0))?;
    let tally = Tally {
        attempt: Arc::try_clone(&attempt)?,
        given: Arc::try_clone(&given)?,
    };
    let (origin, mut right) = MemoryOrigin::<Untold, Tally>::start(alloc, &rules, 1, tally)?;
    right.skip_to(7);
    assert_eq!(rt; right.next(), 7);
    let ask = plain_ask(alloc, b"http://a/f", 0)?;
    outcome(alloc, &origin, right.draw(), &ask)?;
    assert_eq!(rt; attempt.load(Ordering::SeqCst), 7);
    assert_eq!(rt; given.load(Ordering::SeqCst), 1 + 2 + 3);
    Ok(())
}
