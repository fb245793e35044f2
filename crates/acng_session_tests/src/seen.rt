//! That the check sees what is wrong: one byte of a connection's replies is changed, wherever it stands.
use crate::crowd::{clock_from, converse, link_to};
use crate::judge::{Client, Plan, judge};
use crate::mirror::{Unmade, start};
use crate::tally::Tally;
use crate::tests::housed;
use crate::wishes::{REQUESTS, asks_from};
use acng_fetch::NoLoaders;
use acng_keeper::CallSlip;
use acng_serve::SessionEnd;
use std::alloc::Global;
use std::sync::{Mutex, Wait};
use std::test::Fail;

/// The requests are the last ones of a client that asks for no page.
const CLIENT: Client = Client {
    plan: Plan {
        seed: 9,
        fails: false,
    },
    number: 4,
    done: REQUESTS - 12,
};

/// Each so manieth byte is changed.
const STEP: usize = 97;

// What a connection is told, and what was written.
fn connection<R: Wait>(rt: &R, alloc: Global) -> Result<(SessionEnd<CallSlip>, Vec<u8>), Unmade> {
    let (mirror, right) = start(alloc)?;
    let house = housed(alloc, right, &[])?;
    let input = asks_from(alloc, CLIENT.plan.seed, CLIENT.number, CLIENT.done)?;
    let mut clock = clock_from(alloc, CLIENT.number, CLIENT.done)?;
    let mut link = link_to(alloc, input.as_str(), CLIENT.number)?;
    let end = converse(
        rt, alloc, &house, &mirror, &NoLoaders, &mut clock, &mut link,
    );
    Ok((end, Vec::from_slice(alloc, link.written())?))
}

// Whether the check finds nothing wrong.
fn passes<R: Wait>(rt: &R, alloc: Global, end: &SessionEnd<CallSlip>, written: &[u8]) -> bool {
    let tally = Mutex::new(Tally::new());
    judge(rt, alloc, CLIENT, end, written, &tally);
    tally.into_inner().blame.is_none()
}

// The bytes with another one at a place.
fn changed(alloc: Global, written: &[u8], at: usize) -> Result<Vec<u8>, Unmade> {
    let mut bytes = Vec::from_slice(alloc, written.get(..at).unwrap_or(b""))?;
    for byte in written.get(at..).unwrap_or(b"").iter().take(1) {
        bytes.push(*byte ^ 1)?;
    }
    bytes.extend_from_slice(written.get(at.saturating_add(1)..).unwrap_or(b""))?;
    Ok(bytes)
}

#[test]
fn a_changed_byte_is_seen(rt: HostRuntime) -> Result<(), Fail> {
    let alloc = rt.alloc();
    let (end, written) = connection(&rt, alloc)?;
    let written = written.as_slice();
    assert!(rt; passes(&rt, alloc, &end, written));
    assert!(rt; !written.is_empty());
    for i in 0..=written.len() / STEP {
        let at = i.saturating_mul(STEP);
        if at < written.len() {
            let changed = changed(alloc, written, at)?;
            let passes = passes(&rt, alloc, &end, changed.as_slice());
            assert!(rt; !passes, "byte {at}");
        }
    }
    Ok(())
}
