//! The command `expire`: one run of expiration over a cache, and its line.
//!
//! One moment of the clock is taken, and the keeper is given back whatever comes, with the slip of a call that failed.
ghost use Rattle.std.specs.Prelude.{◌≡◌, ◌++◌, ◌∷◌, List, [], ℕ, true, Some, IfOk};
ghost use Rattle.acng_grow.specs.Faithful.{IsFaithful};
ghost use Rattle.acng_desk.specs.Keeps.{IsIdle};
ghost use Rattle.acng_expire.specs.Lines.{line_of, slip_of as slip_in};
ghost use Rattle.acng_cli.specs.Expire.{run_status as run_status_of, unsaid_status as unsaid_status_of, PrintsRun, ExpiresOver};

use crate::opening::{Maint, ended};
use crate::output::{Output, print};
use crate::status::{DONE, KEEPER, NO_MEMORY, REFUSED};
use acng_base::{CachePath, Clock, NoMemory, Sink, Text};
use acng_desk::Desk;
use acng_expire::{Expired, expire, print_expired};
use acng_keeper::{Keeper, SlipOf};
use acng_site::Site;
use std::alloc::Global;

/// One run of expiration over a desk of which no ticket is out, at one moment of the clock. It prints its line: `done removed R
/// marked M`, with status 0; `aborted problems P`, with status 1, where nothing was changed; or `stopped removed R`, with status
/// 5 and the slip of the call that failed. Status 6: memory was refused, and nothing is printed; 5 goes before it.
pub(crate) fn expire_desk<S: Site, K: Keeper, C: Clock, W: Sink>(
    alloc: Global,
    desk: Desk<S, K, ()>,
    clock: &mut C,
    out: &mut W,
) -> Maint<K, SlipOf<K>>
    requires idle { IsIdle desk.plain }
    ensures over { ExpiresOver K.tells W.Sink (λ k. record { kept = K.kept k; next_id = K.next k; faults = K.faults k }) desk
        (record { out = out.old; coming = C.coming clock.old }) (record { out = out.new; coming = C.coming clock.new }) result }
    ensures still { K.tells ≡ true → IsFaithful S.Site (K.kept result.keeper) }
{
    let mut desk = desk;
    let now = clock.now();
    let failed: [CachePath; 0] = [];
    let run = expire(alloc, &mut desk, &failed, now);
    let status = print_run(alloc, &run, out);
    desk.keeps();
    ended(status, desk.into_keeper(), slip_of(run))
}

// Prints the line of a run, and gives the status.
fn print_run<P, W: Sink>(alloc: Global, run: &Expired<P>, out: &mut W) -> u8
    ensures { PrintsRun W.Sink run.now result out.old out.new }
{
    match run_line(alloc, run) {
        Ok(text) => print(
            Output {
                status: run_status(run),
                text,
            },
            out,
        ),
        Err(NoMemory) => unsaid_status(run),
    }
}

// The line with its line end.
fn run_line<P>(alloc: Global, run: &Expired<P>) -> Result<Text, NoMemory>
    ensures { IfOk result (λ text. (line : List ℕ) × (line_of run.now ≡ Some line) × (text ≡ line ++ 10 ∷ [])) }
{
    let line = print_expired(alloc, run)?;
    let mut text = Vec::new(alloc);
    text.extend_from_slice(line.as_bytes())?;
    text.push(b'\n')?;
    Ok(Text::of(text))
}

fn run_status<P>(run: &Expired<P>) -> u8
    ensures { result ≡ run_status_of run.now }
{
    match run {
        Expired::Done { .. } => DONE,
        Expired::Aborted { .. } => REFUSED,
        Expired::Stopped { .. } => KEEPER,
        Expired::NoMemory { .. } => NO_MEMORY,
    }
}

// The status where memory for the line was refused.
fn unsaid_status<P>(run: &Expired<P>) -> u8
    ensures { result ≡ unsaid_status_of run.now }
{
    match run {
        Expired::Stopped { .. } => KEEPER,
        Expired::Done { .. } | Expired::Aborted { .. } | Expired::NoMemory { .. } => NO_MEMORY,
    }
}

fn slip_of<P: Drop>(run: Expired<P>) -> Option<P>
    ensures { result ≡ slip_in run }
{
    match run {
        Expired::Stopped { slip, .. } => Some(slip),
        Expired::Done { .. } | Expired::Aborted { .. } | Expired::NoMemory { .. } => None,
    }
}
