//! Each of a crowd gets the text that one download brings, as it comes.
use crate::crowd::{House, Patient, Tally, Unmade, Wanted, drive};
use acng_base::{CachePath, Text, Texts};
use acng_conf::read_conf;
use acng_desk::Desk;
use acng_keeper::MemoryKeeper;
use acng_site::{MemoryOrigin, Right, Rule, Untold};
use std::alloc::Global;
use std::process::Abort;
use std::sync::atomic::Ordering;
use std::sync::{Arc, Mutex, Wait};
use std::test::Fail;
use std::thread::Threads;

/// How many ask at once: one leads, and 32 join it.
const CROWD: u64 = 33;

const URL: &[u8] = b"http://h/a";

/// What an origin answers: a head, then the text from a place on, up to another one, and then a fault or the end.
#[derive(Clone, Copy)]
struct Answer<'a> {
    attempt: u64,
    head: &'a str,
    start: usize,
    stop: usize,
    fault: bool,
}

// A text of so many bytes.
fn text_of(alloc: Global, len: u32) -> Result<Vec<u8>, Fail> {
    let mut text = Vec::new(alloc);
    for at in 0..len {
        text.push((at % 251) as u8)?;
    }
    Ok(text)
}

fn rule(alloc: Global, text: &[u8], answer: Answer<'_>) -> Result<Rule, Fail> {
    let mut bytes = Vec::new(alloc);
    bytes.extend_from_slice(answer.head.as_bytes())?;
    bytes.extend_from_slice(text.get(answer.start..answer.stop).unwrap_or(b""))?;
    Ok(Rule {
        url: Text::copy(alloc, URL)?,
        from: answer.start as u64,
        first: answer.attempt,
        last: answer.attempt,
        bytes: Text::of(bytes),
        fault: answer.fault,
    })
}

// What a crowd leaves: how many led, how many got what they were to get, how many attempts were answered, and the size of
// the whole body that is held from then on.
#[derive(Debug, Drop)]
struct Outcome {
    leads: u64,
    served: u64,
    answers: u64,
    held: Option<u64>,
}

// A house over an empty keeper.
#[tactic(auto, using(crate::proofs::Empty::nothing_faithful))]
fn housed(alloc: Global, right: Right<Untold>) -> Result<House, Unmade> {
    let Ok(conf) = read_conf(alloc, b"", &[]) else {
        return Err(Unmade);
    };
    let keeper = MemoryKeeper::new(alloc, &[])?;
    match Desk::start(alloc, keeper, right, &conf, 4) {
        Ok(house) => Ok(house),
        Err(_) => Err(Unmade),
    }
}

fn tally_again(tally: &Arc<Tally>) -> Result<Arc<Tally>, Unmade> {
    match Arc::try_clone(tally) {
        Ok(tally) => Ok(tally),
        Err(_) => Err(Unmade),
    }
}

// The size of the whole body that a house holds.
fn size_of(house: &House, path: &CachePath) -> Option<u64> {
    match house.row(path) {
        Some(row) => Some(row.size),
        None => None,
    }
}

// Lets a crowd loose on what an origin answers in pieces of so many bytes, and says what is held then.
fn held_after<R: Threads + Wait + Abort + Sync>(
    rt: &R,
    alloc: Global,
    rules: &[Rule],
    cut: usize,
    wanted: &Wanted,
    tally: &Arc<Tally>,
) -> Result<Option<u64>, Unmade> {
    let gate = Patient {
        tally: tally_again(tally)?,
        crowd: CROWD - 1,
    };
    let (origin, right) = MemoryOrigin::start(alloc, rules, cut.max(1), gate)?;
    let house = Mutex::new(housed(alloc, right)?);
    drive(rt, alloc, &origin, &house, wanted, &**tally, CROWD);
    Ok(size_of(&house.into_inner(), &wanted.path))
}

fn crowd<R: Threads + Wait + Abort + Sync>(
    rt: &R,
    alloc: Global,
    rules: &[Rule],
    cut: usize,
    wanted: &Wanted,
) -> Result<Outcome, Unmade> {
    let Ok(tally) = Arc::new(alloc, Tally::new()) else {
        return Err(Unmade);
    };
    let held = held_after(rt, alloc, rules, cut, wanted, &tally)?;
    Ok(Outcome {
        leads: tally.leads.load(Ordering::SeqCst),
        served: tally.served.load(Ordering::SeqCst),
        answers: tally.answers.load(Ordering::SeqCst),
        held,
    })
}

fn wanted(alloc: Global, text: &[u8], broken: Option<u64>) -> Result<Wanted, Fail> {
    let mut origins = Texts::new(alloc);
    origins.push(alloc, URL)?;
    Ok(Wanted {
        path: CachePath::read(alloc, b"h/a")?,
        origins,
        text: Vec::from_slice(alloc, text)?,
        broken,
    })
}

// Whether each of a crowd was served by so many answers of one download, after which a body of this size is held.
fn was_served(outcome: &Outcome, answers: u64, held: Option<u64>) -> bool {
    outcome.leads == 1
        && outcome.served == CROWD
        && outcome.answers == answers
        && outcome.held == held
}

fn whole_head(alloc: Global, len: usize) -> Result<String, Fail> {
    Ok(format!(in alloc; "HTTP/1.1 200 OK\r\nContent-Length: {len}\r\nETag: \"x\"\r\n\r\n")?)
}

#[test]
fn each_of_a_crowd_gets_the_whole_text_of_one_download(rt: HostRuntime) -> Result<(), Fail> {
    let alloc = rt.alloc();
    for (cut, len) in [(1, 600), (7, 7_000), (4096, 70_000)] {
        let text = text_of(alloc, len)?;
        let head = whole_head(alloc, text.len())?;
        let answer = Answer {
            attempt: 0,
            head: head.as_str(),
            start: 0,
            stop: text.len(),
            fault: false,
        };
        let rules = [rule(alloc, text.as_slice(), answer)?];
        let wanted = wanted(alloc, text.as_slice(), None)?;
        let outcome = crowd(&rt, alloc, &rules, cut, &wanted)?;
        assert!(rt;
            was_served(&outcome, 1, Some(len as u64)),
            "pieces of {cut}: {outcome:?}"
        );
    }
    Ok(())
}

#[test]
fn a_download_that_goes_on_serves_each_of_a_crowd(rt: HostRuntime) -> Result<(), Fail> {
    let alloc = rt.alloc();
    let text = text_of(alloc, 64)?;
    let head = whole_head(alloc, 64)?;
    for place in [1, 31, 63] {
        let rest = format!(in alloc;
            "HTTP/1.1 206 Partial Content\r\nETag: \"x\"\r\nContent-Range: bytes {place}-63/64\r\n\r\n"
        )?;
        let first = Answer {
            attempt: 0,
            head: head.as_str(),
            start: 0,
            stop: place,
            fault: true,
        };
        let second = Answer {
            attempt: 1,
            head: rest.as_str(),
            start: place,
            stop: 64,
            fault: false,
        };
        let rules = [
            rule(alloc, text.as_slice(), first)?,
            rule(alloc, text.as_slice(), second)?,
        ];
        let wanted = wanted(alloc, text.as_slice(), None)?;
        let outcome = crowd(&rt, alloc, &rules, 7, &wanted)?;
        assert!(rt;
            was_served(&outcome, 2, Some(64)),
            "broken off at {place}: {outcome:?}"
        );
    }
    Ok(())
}

#[test]
fn a_body_that_breaks_off_is_the_same_for_each_of_a_crowd(rt: HostRuntime) -> Result<(), Fail> {
    let alloc = rt.alloc();
    let text = text_of(alloc, 64)?;
    for cut in [1, 7, 4096] {
        for place in 0..=64 {
            let answer = Answer {
                attempt: 0,
                head: "HTTP/1.1 200 OK\r\nContent-Length: 65\r\n\r\n",
                start: 0,
                stop: place,
                fault: true,
            };
            let rules = [rule(alloc, text.as_slice(), answer)?];
            let front = text.as_slice().get(..place).unwrap_or(b"");
            let wanted = wanted(alloc, front, Some(0))?;
            let outcome = crowd(&rt, alloc, &rules, cut, &wanted)?;
            assert!(rt;
                was_served(&outcome, 1, None),
                "broken off at {place} in pieces of {cut}: {outcome:?}"
            );
        }
    }
    Ok(())
}
