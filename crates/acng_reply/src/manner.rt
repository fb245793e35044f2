//! How a request wants its reply.
ghost use Rattle.std.specs.Prelude.{◌≡◌, true, false};
ghost use Rattle.acng_reply.specs.Manners.{manner_of, unread, is_head as is_head_of};

use acng_request::Request;

/// What a reply goes by besides its cause.
#[derive(Clone, Copy, Debug, PartialEq, Eq)]
pub struct Manner {
    /// The method is HEAD: no body follows the head.
    pub bare: bool,
    /// The minor number of HTTP/1.
    pub minor: u8,
    /// The connection closes after the reply.
    pub close: bool,
}

impl Manner {
    /// As the request asks for it, on a connection that may go on.
    pub fn of(request: &Request) -> Manner
        ensures { result ≡ manner_of false request.now }
    {
        Manner {
            bare: is_head(request),
            minor: request.minor,
            close: request.close,
        }
    }

    /// The same as the last reply of a connection.
    pub fn closing(self) -> Manner
        ensures { result ≡ record self { close = true } }
    {
        Manner {
            close: true,
            ..self
        }
    }

    /// For a head that isn't read as a request: whatever it looked like, the body is sent, and the connection closes.
    pub fn unread() -> Manner
        ensures { result ≡ unread }
    {
        Manner {
            bare: false,
            minor: 1,
            close: true,
        }
    }
}

fn is_head(request: &Request) -> bool
    ensures { result ≡ is_head_of request.now }
{
    request.method.as_bytes() == b"HEAD".as_slice()
}
