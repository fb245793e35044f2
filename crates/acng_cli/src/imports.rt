//! The command `import`: found files enter a cache, and a line is printed for each.
//!
//! One moment of the clock is taken, and the keeper is given back whatever comes, with the slip of a call that failed.
ghost use Rattle.std.specs.Prelude.{◌≡◌, true};
ghost use Rattle.acng_grow.specs.Faithful.{IsFaithful};
ghost use Rattle.acng_desk.specs.Keeps.{IsIdle};
ghost use Rattle.acng_cli.specs.Imports.{import_status as status_in, ends_status as ends_status_of, worn_status as worn_status_of};
ghost use Rattle.acng_cli.specs.Imports.{unsaid_status as unsaid_status_of, slip_of as slip_in, PrintsImport, ImportsOver};

use crate::opening::{Maint, ended};
use crate::output::{LEFT_OUT, Output, print};
use crate::status::{DONE, FAILED, KEEPER, NO_MEMORY};
use acng_base::{Clock, NoMemory, Sink};
use acng_desk::Desk;
use acng_import::{FileEnds, Finder, Imported, import, print_imported};
use acng_keeper::{Keeper, SlipOf};
use acng_site::Site;
use std::alloc::Global;

/// Lets the found files into a desk of which no ticket is out, at one moment of the clock, and prints a line for each. Status 0:
/// all came to their ends. 4: one couldn't be read. 5: a call of the keeper failed, and its slip is handed back. 6: memory was
/// refused. 7: one was too long, or there was room for no further path, or no id was left for a body. Of several the order is
/// 5, 6, 4, 7.
pub(crate) fn import_desk<S: Site, K: Keeper, F: Finder, C: Clock, W: Sink>(
    alloc: Global,
    desk: Desk<S, K, ()>,
    finder: &mut F,
    clock: &mut C,
    out: &mut W,
) -> Maint<K, SlipOf<K>>
    requires idle { IsIdle desk.plain }
    ensures over { ImportsOver S.Site K.tells W.Sink F.Finder (λ k. record { kept = K.kept k; next_id = K.next k; faults = K.faults k })
        desk (record { out = out.old; coming = C.coming clock.old; found = finder.old })
        (record { out = out.new; coming = C.coming clock.new; found = finder.new }) result }
    ensures still { K.tells ≡ true → IsFaithful S.Site (K.kept result.keeper) }
{
    let mut desk = desk;
    let now = clock.now();
    let run = import(alloc, &mut desk, finder, now);
    let status = print_import(alloc, finder, &run, out);
    desk.keeps();
    ended(status, desk.into_keeper(), slip_of(run))
}

// Prints the lines of an import, and gives the status.
fn print_import<F: Finder, P, W: Sink>(
    alloc: Global,
    finder: &F,
    run: &Imported<P>,
    out: &mut W,
) -> u8
    ensures { PrintsImport W.Sink (F.names finder.now) run.now result out.old out.new }
{
    match print_imported(alloc, finder, run) {
        Ok(text) => print(
            Output {
                status: import_status(run),
                text,
            },
            out,
        ),
        Err(NoMemory) => unsaid_status(run),
    }
}

fn import_status<P>(run: &Imported<P>) -> u8
    ensures { result ≡ status_in run.now }
{
    match run {
        Imported::Done(ends) => ends_status(ends),
        Imported::Stopped { .. } => KEEPER,
        Imported::Worn(ends) => worn_status(ends),
        Imported::NoMemory => NO_MEMORY,
    }
}

// A file that couldn't be read goes before one that was left out.
fn ends_status(ends: &FileEnds) -> u8
    ensures { result ≡ ends_status_of ends.now }
{
    if ends.has_fault() {
        FAILED
    } else if ends.has_left_out() {
        LEFT_OUT
    } else {
        DONE
    }
}

fn worn_status(ends: &FileEnds) -> u8
    ensures { result ≡ worn_status_of ends.now }
{
    if ends.has_fault() { FAILED } else { LEFT_OUT }
}

// The status where memory for the lines was refused.
fn unsaid_status<P>(run: &Imported<P>) -> u8
    ensures { result ≡ unsaid_status_of run.now }
{
    match run {
        Imported::Stopped { .. } => KEEPER,
        Imported::Done(_) | Imported::Worn(_) | Imported::NoMemory => NO_MEMORY,
    }
}

fn slip_of<P: Drop>(run: Imported<P>) -> Option<P>
    ensures { result ≡ slip_in run }
{
    match run {
        Imported::Stopped { slip, .. } => Some(slip),
        Imported::Done(_) | Imported::Worn(_) | Imported::NoMemory => None,
    }
}
