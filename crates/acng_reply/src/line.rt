//! Replies of one line: why no file is sent.
ghost use Rattle.std.specs.Prelude.{◌≡◌, ◌≤◌, true, length};
ghost use Rattle.acng_request.specs.ReplyHeads.{is_reply_status};
ghost use Rattle.acng_reply.specs.Lines.{line_status, line_text, fault_line, shown_line};

use acng_grow::Shown;
use acng_request::HeadFault;

/// A reply of one line, by the name that stands in it.
#[derive(Clone, Copy, Debug, PartialEq, Eq)]
pub enum Line {
    // 400
    BadHead,
    HasBody,
    // 403
    Connect,
    Tls,
    BadTarget,
    Query,
    BadPath,
    Forbidden,
    Maint,
    // 404
    Gone,
    // 405
    Method,
    /// 416: the range begins at the end of a file of so many bytes, or past it.
    NoPart { total: u64 },
    // 431
    TooLarge,
    // 500
    Keeper,
    // 502
    Origin,
    Early,
    Bad,
    Status,
    TlsRedirect,
    Redirects,
    // 503
    Offline,
    Full,
    Worn,
    // 507
    NoMemory,
}

impl Line {
    /// The line of a head that is refused.
    pub fn of_fault(fault: HeadFault) -> Line
        ensures { result ≡ fault_line fault }
    {
        match fault {
            HeadFault::BadHead => Line::BadHead,
            HeadFault::TooLarge => Line::TooLarge,
            HeadFault::Method => Line::Method,
            HeadFault::HasBody => Line::HasBody,
        }
    }

    /// The line of a body that ended before its reply began.
    pub fn of_shown(shown: &Shown) -> Line
        ensures { result ≡ shown_line shown.now }
    {
        match shown {
            Shown::Origin { .. } => Line::Origin,
            Shown::Early { .. } => Line::Early,
            Shown::Bad { .. } => Line::Bad,
            Shown::Status { .. } => Line::Status,
            Shown::TlsRedirect { .. } => Line::TlsRedirect,
            Shown::Redirects { .. } => Line::Redirects,
            Shown::Gone { .. } => Line::Gone,
            Shown::Keeper(_) => Line::Keeper,
            Shown::NoMemory => Line::NoMemory,
        }
    }

    pub fn status(self) -> u16
        ensures status { result ≡ line_status self }
        ensures told { is_reply_status result ≡ true }
    {
        match self {
            Line::BadHead | Line::HasBody => 400,
            Line::Connect
            | Line::Tls
            | Line::BadTarget
            | Line::Query
            | Line::BadPath
            | Line::Forbidden
            | Line::Maint => 403,
            Line::Gone => 404,
            Line::Method => 405,
            Line::NoPart { .. } => 416,
            Line::TooLarge => 431,
            Line::Keeper => 500,
            Line::Origin
            | Line::Early
            | Line::Bad
            | Line::Status
            | Line::TlsRedirect
            | Line::Redirects => 502,
            Line::Offline | Line::Full | Line::Worn => 503,
            Line::NoMemory => 507,
        }
    }

    /// The body: status, name and LF.
    pub fn text(self) -> &'static [u8]
        ensures text { result.now ≡ line_text self }
        ensures short { length result.now ≤ 16 }
    {
        match self {
            Line::BadHead => b"400 BadHead\n",
            Line::HasBody => b"400 HasBody\n",
            Line::Connect => b"403 Connect\n",
            Line::Tls => b"403 Tls\n",
            Line::BadTarget => b"403 BadTarget\n",
            Line::Query => b"403 Query\n",
            Line::BadPath => b"403 BadPath\n",
            Line::Forbidden => b"403 Forbidden\n",
            Line::Maint => b"403 Maint\n",
            Line::Gone => b"404 Gone\n",
            Line::Method => b"405 Method\n",
            Line::NoPart { .. } => b"416 NoPart\n",
            Line::TooLarge => b"431 TooLarge\n",
            Line::Keeper => b"500 Keeper\n",
            Line::Origin => b"502 Origin\n",
            Line::Early => b"502 Early\n",
            Line::Bad => b"502 Bad\n",
            Line::Status => b"502 Status\n",
            Line::TlsRedirect => b"502 TlsRedirect\n",
            Line::Redirects => b"502 Redirects\n",
            Line::Offline => b"503 Offline\n",
            Line::Full => b"503 Full\n",
            Line::Worn => b"503 Worn\n",
            Line::NoMemory => b"507 NoMemory\n",
        }
    }
}
