//! The command `report`: the table of what a cache holds.
//!
//! Nothing is printed before the whole text is there, and the keeper is given back whatever comes.
ghost use Rattle.std.specs.Prelude.{◌≡◌, true};
ghost use Rattle.acng_grow.specs.Faithful.{IsFaithful};
ghost use Rattle.acng_desk.specs.Keeps.{IsIdle};
ghost use Rattle.acng_cli.specs.Maint.{PrintsUnless};
ghost use Rattle.acng_cli.specs.Report.{of_desk, PrintsTable};

use crate::opening::{Maint, ended};
use crate::output::{Output, print};
use crate::status::{DONE, NO_MEMORY};
use acng_base::{NoMemory, Sink};
use acng_desk::Desk;
use acng_keeper::{Keeper, SlipOf};
use acng_report::table;
use acng_site::Site;
use std::alloc::Global;

/// Prints the table of a desk of which no ticket is out: a line `PATH SIZE CLASS MARK` for each held path, and
/// `rows N bytes B`.
pub(crate) fn report_desk<S: Site, K: Keeper, W: Sink>(
    alloc: Global,
    desk: Desk<S, K, ()>,
    out: &mut W,
) -> Maint<K, SlipOf<K>>
    requires idle { IsIdle desk.plain }
    ensures printed { PrintsTable W.Sink (λ k. record { kept = K.kept k; next_id = K.next k; faults = K.faults k }) desk
        out.old out.new result }
    ensures still { K.tells ≡ true → IsFaithful S.Site (K.kept result.keeper) }
{
    let mut desk = desk;
    let status = print_table(alloc, &mut desk, out);
    desk.keeps();
    ended(status, desk.into_keeper(), None)
}

fn print_table<S: Site, K: Keeper, W: Sink>(
    alloc: Global,
    desk: &mut Desk<S, K, ()>,
    out: &mut W,
) -> u8
    ensures printed { PrintsUnless W.Sink (of_desk desk.old) result out.old out.new }
    ensures same { desk.new ≡ desk.old }
{
    match table(alloc, desk) {
        Ok(text) => print(Output { status: DONE, text }, out),
        Err(NoMemory) => NO_MEMORY,
    }
}
