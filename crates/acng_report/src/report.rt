//! What a desk holds, as a table and as a page. The desk stays as it is.
ghost use Rattle.std.specs.Prelude.{◌≡◌, IfOk};
ghost use Rattle.acng_report.specs.Desks.{lines_of};
ghost use Rattle.acng_report.specs.Pages.{page_of};
ghost use Rattle.acng_report.specs.Tables.{table};

use crate::html::{PageText, print_page};
use crate::print::print_table;
use crate::rows::lines_of;
use acng_base::{NoMemory, Text};
use acng_desk::{Desk, Joint};
use acng_keeper::Keeper;
use acng_site::Site;
use std::alloc::Global;

/// A line `PATH SIZE CLASS MARK` for each held path, in byte order, and then `rows N bytes B`.
pub fn table<S: Site, K: Keeper, T: Joint>(
    alloc: Global,
    desk: &mut Desk<S, K, T>,
) -> Result<Text, NoMemory>
    ensures table { IfOk result (λ text. text ≡ table (lines_of desk.old.plain)) }
    ensures same { desk.new ≡ desk.old }
{
    let lines = lines_of(alloc, desk)?;
    print_table(alloc, &lines)
}

/// The page with a first text, as a line where it isn't empty, and the table.
pub fn page<S: Site, K: Keeper, T: Joint>(
    alloc: Global,
    desk: &mut Desk<S, K, T>,
    first: &[u8],
) -> Result<PageText, NoMemory>
    ensures bytes { IfOk result (λ page. page.bytes ≡ page_of first.now (lines_of desk.old.plain)) }
    ensures first { IfOk result (λ page. page.first ≡ first.now) }
    ensures same { desk.new ≡ desk.old }
{
    let lines = lines_of(alloc, desk)?;
    print_page(alloc, first, &lines)
}
