//! The opening of a folder that another keeper has.
use acng_keeper::{FolderKeeper, OpenFault};
use std::test::Fail;
use std::time::Instant;
use std::{env, fs, process};

/// A folder that isn't there yet.
pub fn no_folder(rt: &HostRuntime, name: &str) -> Result<String, Fail> {
    let alloc = rt.alloc();
    let temporary = env::temp_dir(rt)?;
    let id = process::id(rt.process());
    let folder = format!(in alloc; "{}/acng-keeper-{id}-{name}", temporary.display())?;
    let _ = fs::remove_dir_all(rt, folder.as_str());
    Ok(folder)
}

fn is_locked<K: Drop>(opened: Result<K, OpenFault>) -> bool {
    match opened {
        Err(OpenFault::Locked) => true,
        _ => false,
    }
}

// Refused at once; refused after a second; and given once it is free.
#[test]
fn a_folder_that_another_keeper_has_is_refused(rt: HostRuntime) -> Result<(), Fail> {
    let alloc = rt.alloc();
    let folder = no_folder(&rt, "locked")?;
    let keeper = FolderKeeper::new(rt.clone()?, alloc, folder.as_str())?;
    let begun = Instant::now(&rt)?;
    assert!(rt; is_locked(FolderKeeper::new(rt.clone()?, alloc, folder.as_str())));
    assert!(rt; is_locked(FolderKeeper::new_within(rt.clone()?, alloc, folder.as_str(), 0)));
    assert!(rt; begun.elapsed(&rt)?.as_secs() < 20, "at once");
    assert!(rt; is_locked(FolderKeeper::new_within(rt.clone()?, alloc, folder.as_str(), 1)));
    assert!(rt; begun.elapsed(&rt)?.as_secs() >= 1, "a second");
    drop(keeper);
    let keeper = FolderKeeper::new_within(rt.clone()?, alloc, folder.as_str(), 1)?;
    drop(keeper);
    fs::remove_dir_all(&rt, folder.as_str())?;
    Ok(())
}
