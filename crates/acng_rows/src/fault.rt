//! Why a call on a row was refused.
ghost use Rattle.std.specs.Prelude.{◌≡◌};
ghost use Rattle.acng_rows.specs.Calls.{row_fault};

use acng_keeper::KeepFault;

/// Why a call on the row of a path was refused, in the order of the tests.
#[derive(Debug, Drop)]
pub enum RowFault<P> {
    /// The path has no whole body.
    NotHeld,
    /// A call of the keeper failed.
    KeeperFault(P),
    /// Memory was refused.
    NoMemory,
}

impl<P> RowFault<P> {
    /// The fault of a call of the keeper.
    pub fn of(fault: KeepFault<P>) -> RowFault<P>
        ensures { result ≡ row_fault fault }
    {
        match fault {
            KeepFault::Slip(slip) => RowFault::KeeperFault(slip),
            KeepFault::NoMemory => RowFault::NoMemory,
        }
    }
}
