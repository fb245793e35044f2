//! The call that fails, and what its slip says.
use acng_keeper::{KeepFault, KeeperSlip};
use std::process::Abort;

/// The number of the call that fails, and how many calls failed so far.
#[derive(Drop)]
pub struct Failing {
    pub at: u64,
    pub count: u64,
}

impl Failing {
    /// The fault is that of the one call.
    pub fn note<P: KeeperSlip>(&mut self, rt: &impl Abort, fault: KeepFault<P>) {
        assert_eq!(rt; number_of(rt, fault), self.at);
        assert_eq!(rt; self.count, 0, "one call fails");
        self.count = 1;
    }
}

/// The number of the call that failed.
pub fn number_of<P: KeeperSlip>(rt: &impl Abort, fault: KeepFault<P>) -> u64 {
    match fault {
        KeepFault::Slip(slip) => slip.call(),
        KeepFault::NoMemory => panic!(rt; "there is memory"),
    }
}
