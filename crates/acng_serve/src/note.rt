//! What is told of a reply.
ghost use Rattle.std.specs.Prelude.{◌≡◌};
ghost use Rattle.acng_serve.specs.Causes.{line_of, is_client_fault, is_page, target_cause as target_cause_of};

use acng_base::PathFault;
use acng_desk::{Brim, Entry};
use acng_expire::ExpireLine;
use acng_grow::Shown;
use acng_head::Label;
use acng_remap::TargetFault;
use acng_reply::Line;
use acng_report::PageText;
use acng_request::HeadFault;

/// Why a reply is as it is.
#[derive(Debug, Drop)]
pub enum Cause<Q> {
    /// The file or the asked part of it was sent, or to HEAD its head.
    Served,
    /// The report page was sent, or to HEAD its head. Where a run of expiration went before it, its line stands first.
    Page {
        page: PageText,
        run: Option<ExpireLine<Q>>,
    },
    /// The client has the file.
    NotModified,
    /// The range begins at the end of a file of so many bytes, or past it.
    NoPart {
        from: u64,
        total: u64,
    },
    /// The request's head was refused.
    Head(HeadFault),
    /// A tunnel is asked for.
    Connect,
    /// The origin is asked for over TLS.
    Tls,
    /// The target has no form that is taken.
    BadTarget,
    /// The target has a query.
    Query,
    /// The target names no path of the cache.
    BadPath(PathFault),
    /// Files of this class aren't passed on.
    Forbidden,
    /// A run of expiration is asked for, and none may be made over HTTP.
    Maint,
    /// The body ended before it was whole.
    Load(Shown),
    /// A call of the keeper or of a body's file failed.
    KeeperSlip(Q),
    /// The file isn't held, and no origin is asked.
    Offline(Brim),
    /// There is room for no further path.
    Full(Brim),
    /// No numbers are left.
    Worn(Brim),
    /// The client's link failed while the reply was written.
    ClientFault,
    /// Memory was refused.
    NoMemory,
}

/// What is told of a reply.
#[derive(Debug, Drop)]
pub struct Note<Q> {
    pub status: u16,
    pub cause: Cause<Q>,
    /// The attempts that the body came by, or the import.
    pub label: Option<Label>,
    /// How the request was let in.
    pub entry: Option<Entry>,
    /// The first and the last place of the part that is sent.
    pub part: Option<(u64, u64)>,
    /// How many bytes of the body the link took.
    pub sent: u64,
    /// Head and body were written out.
    pub whole: bool,
}

impl<Q> Cause<Q> {
    /// Why a target is refused.
    pub(crate) fn of_target(fault: TargetFault) -> Cause<Q>
        ensures { result ≡ target_cause_of fault }
    {
        match fault {
            TargetFault::NoMemory => Cause::NoMemory,
            TargetFault::Connect => Cause::Connect,
            TargetFault::Tls => Cause::Tls,
            TargetFault::BadTarget => Cause::BadTarget,
            TargetFault::Query => Cause::Query,
            TargetFault::BadPath(fault) => Cause::BadPath(fault),
        }
    }

    /// Whether the client's link failed.
    pub fn is_client_fault(&self) -> bool
        ensures { result ≡ is_client_fault self.now }
    {
        matches!(self, Cause::ClientFault)
    }

    /// Whether the report page was sent, behind which a connection closes.
    pub fn is_page(&self) -> bool
        ensures { result ≡ is_page self.now }
    {
        matches!(self, Cause::Page { .. })
    }

    /// The line of a reply that has one. A file's reply and a page have none, and what a link took before it failed isn't told here.
    pub fn line(&self) -> Option<Line>
        ensures { result ≡ line_of self.now }
    {
        match self {
            Cause::Served | Cause::Page { .. } | Cause::NotModified | Cause::ClientFault => None,
            Cause::NoPart { total, .. } => Some(Line::NoPart { total: *total }),
            Cause::Head(fault) => Some(Line::of_fault(*fault)),
            Cause::Connect => Some(Line::Connect),
            Cause::Tls => Some(Line::Tls),
            Cause::BadTarget => Some(Line::BadTarget),
            Cause::Query => Some(Line::Query),
            Cause::BadPath(_) => Some(Line::BadPath),
            Cause::Forbidden => Some(Line::Forbidden),
            Cause::Maint => Some(Line::Maint),
            Cause::Load(shown) => Some(Line::of_shown(shown)),
            Cause::KeeperSlip(_) => Some(Line::Keeper),
            Cause::Offline(_) => Some(Line::Offline),
            Cause::Full(_) => Some(Line::Full),
            Cause::Worn(_) => Some(Line::Worn),
            Cause::NoMemory => Some(Line::NoMemory),
        }
    }
}
