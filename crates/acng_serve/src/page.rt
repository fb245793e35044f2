//! The report page, behind a run of expiration where one is asked for and allowed.
//!
//! Run and page are made of the desk in one call, so that the page shows what the run left. Nothing is sent meanwhile: through
//! a lock, the desk is let go before the first byte moves.
ghost use Rattle.std.specs.Prelude.{◌≡◌, [], None, IfOk, OnOk, OnErr, length};
ghost use Rattle.std.specs.Io.KnownBytes.{Keeps};
ghost use Rattle.acng_desk.specs.Keeps.{IsIdle};
ghost use Rattle.acng_expire.specs.Lines.{HasEnded};
ghost use Rattle.acng_reply.specs.Replies.{sent_by};
ghost use Rattle.acng_serve.specs.Notes.{Gives, LinkTold, paged};
ghost use Rattle.acng_serve.specs.Pages.{IsRunPage, page_at};

use crate::note::{Cause, Note};
use crate::refuse::told;
use acng_base::{Link, Moment, NoMemory};
use acng_desk::{Desk, Joint};
use acng_expire::{ExpireLine, expire_line};
use acng_keeper::{Keeper, SlipOf};
use acng_reply::{Manner, send_page};
use acng_report::{PageText, page};
use acng_site::Site;
use std::alloc::Global;

/// The status of a page.
const OK: u16 = 200;

/// A page, and the run that went before it.
pub(crate) struct Report<Q> {
    pub(crate) page: PageText,
    pub(crate) run: Option<ExpireLine<Q>>,
}

/// The page of a desk as it is.
pub(crate) fn show<S: Site, K: Keeper, T: Joint>(
    alloc: Global,
    desk: &mut Desk<S, K, T>,
) -> Result<Report<SlipOf<K>>, NoMemory>
    ensures page { IfOk result (λ report. report.page ≡ page_at [] desk.old.plain) }
    ensures run { IfOk result (λ report. report.run ≡ None) }
    ensures same { desk.new ≡ desk.old }
{
    let page = page(alloc, desk, b"")?;
    Ok(Report { page, run: None })
}

/// Makes a run of expiration at the moment, and the page of what it leaves, with its line before the table. Memory may be
/// refused after files went.
pub(crate) fn expire_and_show<S: Site, K: Keeper, T: Joint>(
    alloc: Global,
    desk: &mut Desk<S, K, T>,
    now: Moment,
) -> Result<Report<SlipOf<K>>, NoMemory>
    ensures ran { IfOk result (λ report. IsRunPage K.tells now desk.old desk.new report.page report.run) }
    ensures ended { OnErr result (HasEnded K.tells now desk.old desk.new) }
{
    let line = match expire_line(alloc, desk, now) {
        Ok(line) => line,
        Err(NoMemory) => return Err(NoMemory),
    };
    match page(alloc, desk, line.as_bytes()) {
        Ok(page) => Ok(Report {
            page,
            run: Some(line),
        }),
        Err(NoMemory) => Err(NoMemory),
    }
}

/// Sends a page.
pub(crate) fn send_report<Q: Drop, L: Link>(
    manner: Manner,
    report: Report<Q>,
    client: &mut L,
) -> Note<Q>
    ensures gives { Gives (paged manner report.page report.run) result (sent_by L.Link client.old client.new) }
    ensures others { Keeps (L.left client.old) (L.left client.new) }
    ensures fault { LinkTold result (L.faults client.old) (L.faults client.new) }
{
    let Report { page, run } = report;
    let (sent, outcome) = send_page(manner, page.as_bytes(), client);
    match outcome {
        Ok(()) => told(OK, Cause::Page { page, run }, None, None, sent, true),
        Err(_) => told(OK, Cause::ClientFault, None, None, sent, false),
    }
}
