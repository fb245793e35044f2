//! The cache folder.
//!
//! A program that ends by itself waits for a folder that another one has, since a super-server may start several at a time.
//! One that serves ends at once.

use acng_keeper::{FolderKeeper, LOCK_SECONDS, OpenFault};

/// The keeper over the folder, which is made where it isn't there. Another program's lock is waited for, or refuses.
pub fn open_cache(
    rt: &HostRuntime,
    folder: &str,
    waits: bool,
) -> Result<FolderKeeper<HostRuntime>, OpenFault> {
    let alloc = rt.alloc();
    let seconds = if waits { LOCK_SECONDS } else { 0 };
    FolderKeeper::new_within(rt.clone()?, alloc, folder, seconds)
}
