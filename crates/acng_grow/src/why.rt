//! Why a body ended.
//!
//! A cause of an origin or of a keeper holds the slip itself, which only a failed call hands out, so no code can make up
//! such a cause.
ghost use Rattle.std.specs.Prelude.{◌≡◌, true};
ghost use Rattle.acng_grow.specs.Causes.{shown_of, named};

use acng_keeper::KeeperSlip;
use acng_site::OriginSlip;

/// Why a body ended.
#[derive(Debug, Drop)]
pub enum Why<P, Q> {
    /// The attempt failed.
    Origin(P),
    /// The answer ended before its last byte.
    Early { attempt: u64 },
    /// A byte that no answer has came at this place of the answer.
    Bad { attempt: u64, at: u64 },
    /// The answer's status brings nothing.
    Status { attempt: u64, status: u16 },
    /// The answer leads to `https`.
    TlsRedirect { attempt: u64 },
    /// The answer leads on, and as many redirects as may be followed were followed.
    Redirects { attempt: u64 },
    /// The file isn't there.
    Gone { attempt: u64 },
    /// A call of the keeper or of the body's file failed.
    Keeper(Q),
    /// Memory was refused.
    NoMemory,
}

/// That a keeper's slip closed a body. Only a body that was closed so hands one out.
#[derive(Debug, Drop)]
pub struct KeeperMark {
    call: u64,
    attempt: u64,
}

/// Why a body ended, as it is shown: an attempt that failed is named, and a keeper's slip leaves its mark.
#[derive(Debug, Drop)]
pub enum Shown {
    Origin { attempt: u64 },
    Early { attempt: u64 },
    Bad { attempt: u64, at: u64 },
    Status { attempt: u64, status: u16 },
    TlsRedirect { attempt: u64 },
    Redirects { attempt: u64 },
    Gone { attempt: u64 },
    Keeper(KeeperMark),
    NoMemory,
}

impl KeeperMark {
    /// The number of the call that failed.
    pub fn call(&self) -> u64
        ensures { result ≡ self.now.call }
    {
        self.call
    }

    /// The last attempt of the body's label.
    pub fn attempt(&self) -> u64
        ensures { result ≡ self.now.attempt }
    {
        self.attempt
    }
}

impl Shown {
    /// Whether both are the same cause.
    pub fn same(&self, other: &Shown) -> bool
        ensures same { result ≡ true → self.now ≡ other.now }
        ensures found { self.now ≡ other.now → result ≡ true }
    {
        match (self, other) {
            (Shown::Origin { attempt: a }, Shown::Origin { attempt: b }) => a == b,
            (Shown::Early { attempt: a }, Shown::Early { attempt: b }) => a == b,
            (Shown::Bad { attempt: a, at: p }, Shown::Bad { attempt: b, at: q }) => {
                a == b && p == q
            }
            (
                Shown::Status {
                    attempt: a,
                    status: p,
                },
                Shown::Status {
                    attempt: b,
                    status: q,
                },
            ) => { a == b && p == q }
            (Shown::TlsRedirect { attempt: a }, Shown::TlsRedirect { attempt: b }) => a == b,
            (Shown::Redirects { attempt: a }, Shown::Redirects { attempt: b }) => a == b,
            (Shown::Gone { attempt: a }, Shown::Gone { attempt: b }) => a == b,
            (Shown::Keeper(a), Shown::Keeper(b)) => a.call == b.call && a.attempt == b.attempt,
            (Shown::NoMemory, Shown::NoMemory) => true,
            _ => false,
        }
    }

    /// The attempt that the cause names.
    pub fn named(&self) -> Option<u64>
        ensures { result ≡ named self.now }
    {
        match self {
            Shown::Origin { attempt }
            | Shown::Early { attempt }
            | Shown::Bad { attempt, .. }
            | Shown::Status { attempt, .. }
            | Shown::TlsRedirect { attempt }
            | Shown::Redirects { attempt }
            | Shown::Gone { attempt } => Some(*attempt),
            Shown::Keeper(mark) => Some(mark.attempt),
            Shown::NoMemory => None,
        }
    }
}

impl<P: OriginSlip, Q: KeeperSlip> Why<P, Q> {
    // The cause as it is shown of a body whose last attempt has this number.
    pub(crate) fn shown(&self, last: u64) -> Shown
        ensures { result ≡ shown_of P.number Q.number last self.now }
    {
        match self {
            Why::Origin(slip) => Shown::Origin {
                attempt: slip.attempt(),
            },
            Why::Early { attempt } => Shown::Early { attempt: *attempt },
            Why::Bad { attempt, at } => Shown::Bad {
                attempt: *attempt,
                at: *at,
            },
            Why::Status { attempt, status } => Shown::Status {
                attempt: *attempt,
                status: *status,
            },
            Why::TlsRedirect { attempt } => Shown::TlsRedirect { attempt: *attempt },
            Why::Redirects { attempt } => Shown::Redirects { attempt: *attempt },
            Why::Gone { attempt } => Shown::Gone { attempt: *attempt },
            Why::Keeper(slip) => Shown::Keeper(KeeperMark {
                call: slip.call(),
                attempt: last,
            }),
            Why::NoMemory => Shown::NoMemory,
        }
    }
}
