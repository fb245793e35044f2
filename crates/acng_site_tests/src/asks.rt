//! Asks and rules for the tests, and what an attempt gives.
ghost use Rattle.std.specs.Prelude.{◌≡◌, None, IfOk};

use acng_base::{NoMemory, Text};
use acng_site::{Ask, Conn, Dial, Origin, OriginSlip, Rule, Try, Untold};
use std::alloc::Global;

// An ask for all of a URL, or from a place on.
pub fn plain_ask(alloc: Global, url: &[u8], from: u64) -> Result<Ask, NoMemory>
    ensures { IfOk result (λ ask. ask.since ≡ None) }
{
    Ok(Ask {
        url: Text::copy(alloc, url)?,
        from,
        tag: None,
        since: None,
    })
}

// A rule for the attempts `first` to `last`.
pub fn rule(
    alloc: Global,
    url: &[u8],
    from: u64,
    (first, last): (u64, u64),
    bytes: &[u8],
    fault: bool,
) -> Result<Rule, NoMemory> {
    Ok(Rule {
        url: Text::copy(alloc, url)?,
        from,
        first,
        last,
        bytes: Text::copy(alloc, bytes)?,
        fault,
    })
}

// All that a connection gives, and the attempt of the slip that ended it.
pub fn read_all<C: Conn>(alloc: Global, mut conn: C) -> Result<(Vec<u8>, Option<u64>), NoMemory> {
    let mut all = Vec::new(alloc);
    let mut buf = [0; 8];
    for _ in 0..100 {
        match conn.read(&mut buf) {
            Ok(0) => break,
            Ok(count) => all.extend_from_slice(&buf[..count])?,
            Err(slip) => return Ok((all, Some(slip.attempt()))),
        }
    }
    Ok((all, None))
}

// What a dial gives: nothing and its slip where it faults.
pub fn given<C: Conn>(
    alloc: Global,
    dial: Dial<C, C::Slip>,
) -> Result<(Vec<u8>, Option<u64>), NoMemory> {
    match dial {
        Dial::Up(conn) => read_all(alloc, conn),
        Dial::Fault(slip) => Ok((Vec::new(alloc), Some(slip.attempt()))),
        Dial::NoMemory => Err(NoMemory),
    }
}

// What an attempt gives.
pub fn outcome<O: Origin<Untold>>(
    alloc: Global,
    origin: &O,
    attempt: Try<Untold>,
    ask: &Ask,
) -> Result<(Vec<u8>, Option<u64>), NoMemory>
    requires { ask.now.since ≡ None }
{
    given(alloc, origin.dial(alloc, attempt, ask))
}
