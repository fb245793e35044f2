//! The commands of maintenance, over the cache folder or over nothing. Nobody is asked for anything.
//!
//! The import folder is `_import` in the cache folder, whose keeper passes over that name. One that isn't there has no files.

use crate::files::{is_conf_option, lists_beside, open_conf, path_of};
use acng_base::{FileFault, HostClock, NoMemory, Sink, Source, StdSink, StdSource, Text, Texts};
use acng_cli::status::{CONFIGURATION, DONE, FAILED};
use acng_cli::{Command, Words, run_maint};
use acng_conf::ListFile;
use acng_import::{Finder, FolderFinder, MemoryFinder};
use acng_keeper::{FolderKeeper, MemoryKeeper};
use acng_site::NetOrigin;
use std::alloc::Global;
use std::io;

// ---- over the cache folder

/// `report` or `expire`, by the machine's clock.
pub fn maintain<I: Source>(
    rt: &HostRuntime,
    words: &[Text],
    keeper: FolderKeeper<HostRuntime>,
    conf: &mut I,
    lists: &[ListFile],
) -> Result<u8, FileFault> {
    let mut finder = no_files(rt.alloc())?;
    over_folder(rt, words, keeper, conf, lists, &mut finder)
}

/// `import`. A folder that can't be opened is said so only where nothing is wrong with the configuration.
pub fn import<I: Source>(
    rt: &HostRuntime,
    words: &[Text],
    read: &Words,
    keeper: FolderKeeper<HostRuntime>,
    conf: &mut I,
    lists: &[ListFile],
) -> Result<u8, FileFault> {
    let alloc = rt.alloc();
    let cache = path_of(&read.cache);
    let folder = format!(in alloc; "{cache}/_import")?;
    match FolderFinder::new(rt.clone()?, alloc, folder.as_str()) {
        Ok(found) => {
            let mut finder = found;
            over_folder(rt, words, keeper, conf, lists, &mut finder)
        }
        Err(FileFault::NoMemory) => Err(FileFault::NoMemory),
        Err(FileFault::Failed) => without(rt, read, conf, lists, FAILED),
    }
}

fn over_folder<F: Finder, I: Source>(
    rt: &HostRuntime,
    words: &[Text],
    keeper: FolderKeeper<HostRuntime>,
    conf: &mut I,
    lists: &[ListFile],
    finder: &mut F,
) -> Result<u8, FileFault> {
    let (_origin, right) = NetOrigin::start(rt.clone()?);
    let mut clock = HostClock::new(rt.clone()?);
    let mut out = StdSink::new(rt.stdout());
    let ended = run_maint(
        rt.alloc(),
        words,
        keeper,
        right,
        conf,
        lists,
        finder,
        &mut clock,
        &mut out,
    );
    Ok(ended.status)
}

// No found files.
fn no_files(alloc: Global) -> Result<MemoryFinder, NoMemory> {
    let none = Texts::new(alloc);
    MemoryFinder::new(alloc, &none, &none, &[])
}

/// The status where the cache folder or the import folder can't be opened: that of a configuration that is refused goes first,
/// and a command that prints prints the refusal.
pub fn without<I: Source>(
    rt: &HostRuntime,
    read: &Words,
    conf: &mut I,
    lists: &[ListFile],
    status: u8,
) -> Result<u8, FileFault> {
    let words = [Text::copy(rt.alloc(), b"check-conf")?];
    let mut nowhere = StdSink::new(io::sink());
    match over_memory(rt, &words, conf, lists, &mut nowhere)? {
        DONE => Ok(status),
        CONFIGURATION if prints(read.command) => check_conf(rt, &words, &read.conf),
        other => Ok(other),
    }
}

fn prints(command: Command) -> bool {
    command == Command::Report || command == Command::Expire || command == Command::Import
}

// ---- over nothing

/// What is wrong with the configuration, printed to standard output.
pub fn check_conf(rt: &HostRuntime, words: &[Text], path: &Text) -> Result<u8, FileFault> {
    let path = path_of(path);
    let Some(file) = open_conf(rt, path, !words.iter().any(is_conf_option))? else {
        return over_nothing(rt, words);
    };
    let lists = lists_beside(rt, rt.alloc(), path)?;
    let mut conf = StdSource::new(file);
    let mut out = StdSink::new(rt.stdout());
    over_memory(rt, words, &mut conf, &lists, &mut out)
}

/// A command over the empty configuration; of other words what is wrong with them is printed.
pub fn over_nothing(rt: &HostRuntime, words: &[Text]) -> Result<u8, FileFault> {
    let mut conf = StdSource::new(io::empty());
    let mut out = StdSink::new(rt.stdout());
    over_memory(rt, words, &mut conf, &[], &mut out)
}

// A command that makes no desk, over a keeper that has nothing.
#[tactic(auto, using(crate::proofs::Empty::nothing_faithful))]
fn over_memory<I: Source, W: Sink>(
    rt: &HostRuntime,
    words: &[Text],
    conf: &mut I,
    lists: &[ListFile],
    out: &mut W,
) -> Result<u8, FileFault> {
    let alloc = rt.alloc();
    let keeper = MemoryKeeper::new(alloc, &[])?;
    let mut finder = no_files(alloc)?;
    let (_origin, right) = NetOrigin::start(rt.clone()?);
    let mut clock = HostClock::new(rt.clone()?);
    let ended = run_maint(
        alloc,
        words,
        keeper,
        right,
        conf,
        lists,
        &mut finder,
        &mut clock,
        out,
    );
    Ok(ended.status)
}
