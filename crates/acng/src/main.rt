//! The program `acng`.
//!
//! `acng once` reads one request from standard input, answers it from the cache folder or by asking the origins over TCP,
//! and writes the reply to standard output. `acng serve` does so for every connection to a port, many at a time. The commands
//! of maintenance print to standard output, and end: `report`, `expire`, `import`, `check-conf` and `gen`. This file and those
//! beside it only hand the words, the streams, the files, the clock and the sockets over: what is done is `run_single`'s,
//! `serve`'s and `run_maint`'s.
#![tactic(auto)]

mod cache;
mod files;
mod maint;

use acng_base::{FileFault, HostClock, NoMemory, Source, StdLink, StdSource, Text};
use acng_cli::status::{FAILED, KEEPER, NO_MEMORY};
use acng_cli::{Command, Opened, Words, WordsFault, open_desk, read_words, run_single};
use acng_conf::ListFile;
use acng_keeper::{FolderKeeper, OpenFault};
use acng_serve::{House, ServeEnd, serve};
use acng_site::NetOrigin;
use cache::open_cache;
use files::{is_conf_option, lists_beside, open_conf, path_of};
use maint::{check_conf, import, maintain, over_nothing, without};
use std::net::{Net, TcpListener, TcpStream};
use std::process::ExitCode;
use std::sync::Wait;
use std::thread::Threads;
use std::time::Clock;
use std::{env, io};

fn main(rt: HostRuntime) -> ExitCode {
    let Ok(words) = words_of(&rt) else {
        return ExitCode::from(NO_MEMORY);
    };
    ExitCode::from(run(&rt, &rt, &words))
}

// Runs the command that the words name. What is wrong with other words is printed.
fn run<R: Net<Stream = TcpStream, Listener = TcpListener> + Threads + Wait + Clock + Sync>(
    rt: &HostRuntime,
    server: &R,
    words: &[Text],
) -> u8 {
    let status = match read_words(rt.alloc(), words) {
        Ok(read) => run_read(rt, server, words, &read),
        Err(WordsFault::NoMemory) => Err(FileFault::NoMemory),
        Err(_) => over_nothing(rt, words),
    };
    match status {
        Ok(status) => status,
        Err(FileFault::Failed) => FAILED,
        Err(FileFault::NoMemory) => NO_MEMORY,
    }
}

// The same of words that were read.
fn run_read<R: Net<Stream = TcpStream, Listener = TcpListener> + Threads + Wait + Clock + Sync>(
    rt: &HostRuntime,
    server: &R,
    words: &[Text],
    read: &Words,
) -> Result<u8, FileFault> {
    match read.command {
        Command::CheckConf => check_conf(rt, words, &read.conf),
        Command::Gen(_) => over_nothing(rt, words),
        _ => over_cache(rt, server, words, read),
    }
}

// The words after the program's name. The standard library gives none where one isn't UTF-8: then a word that isn't
// stands for all of them.
fn words_of(rt: &HostRuntime) -> Result<Vec<Text>, NoMemory> {
    let alloc = rt.alloc();
    let mut words = Vec::new(alloc);
    match env::args(rt) {
        Ok(args) => for arg in args.skip(1) {
            words.push(Text::copy(alloc, arg.as_bytes())?)?;
        },
        Err(error) if error.kind() == io::ErrorKind::OutOfMemory => return Err(NoMemory),
        Err(_) => words.push(Text::copy(alloc, b"\xff")?)?,
    }
    Ok(words)
}

// ---- over the cache folder

// A command over the cache folder, by the configuration that the words name.
fn over_cache<R: Net<Stream = TcpStream, Listener = TcpListener> + Threads + Wait + Clock + Sync>(
    rt: &HostRuntime,
    server: &R,
    words: &[Text],
    read: &Words,
) -> Result<u8, FileFault> {
    let path = path_of(&read.conf);
    let Some(file) = open_conf(rt, path, !words.iter().any(is_conf_option))? else {
        return over_cache_by(rt, server, words, read, StdSource::new(io::empty()), &[]);
    };
    let lists = lists_beside(rt, rt.alloc(), path)?;
    over_cache_by(rt, server, words, read, StdSource::new(file), &lists)
}

// The same by a configuration. A folder that can't be opened is said so only where nothing is wrong with that.
fn over_cache_by<
    R: Net<Stream = TcpStream, Listener = TcpListener> + Threads + Wait + Clock + Sync,
    I: Source + Drop,
>(
    rt: &HostRuntime,
    server: &R,
    words: &[Text],
    read: &Words,
    conf: I,
    lists: &[ListFile],
) -> Result<u8, FileFault> {
    let mut conf = conf;
    let waits = read.command != Command::Serve;
    let keeper = match open_cache(rt, path_of(&read.cache), waits) {
        Ok(keeper) => keeper,
        Err(OpenFault::NoMemory) => return Err(FileFault::NoMemory),
        Err(_) => return without(rt, read, &mut conf, lists, KEEPER),
    };
    match read.command {
        Command::Once => answer(rt, words, keeper, &mut conf, lists),
        Command::Serve => serve_clients(rt, server, words, keeper, &mut conf, lists),
        Command::Import => import(rt, words, read, keeper, &mut conf, lists),
        _ => maintain(rt, words, keeper, &mut conf, lists),
    }
}

// One request of the standard streams.
fn answer<I: Source>(
    rt: &HostRuntime,
    words: &[Text],
    keeper: FolderKeeper<HostRuntime>,
    conf: &mut I,
    lists: &[ListFile],
) -> Result<u8, FileFault> {
    let (origin, right) = NetOrigin::start(rt.clone()?);
    let mut clock = HostClock::new(rt.clone()?);
    let mut client = StdLink::new(rt.stdin(), rt.stdout());
    let single = run_single(
        rt.alloc(),
        words,
        keeper,
        right,
        conf,
        lists,
        &origin,
        &mut clock,
        &mut client,
    );
    Ok(single.status)
}

// Every connection to the configured address, until the process is ended.
fn serve_clients<
    R: Net<Stream = TcpStream, Listener = TcpListener> + Threads + Wait + Clock + Sync,
    I: Source,
>(
    rt: &HostRuntime,
    server: &R,
    words: &[Text],
    keeper: FolderKeeper<HostRuntime>,
    conf: &mut I,
    lists: &[ListFile],
) -> Result<u8, FileFault> {
    let (origin, right) = NetOrigin::start(rt.clone()?);
    match open_desk(rt.alloc(), words, keeper, right, conf, lists) {
        Opened::Ready {
            words: _,
            conf,
            desk,
        } => {
            let house = House::new(conf, desk);
            match serve(server, rt.alloc(), &house, &origin) {
                ServeEnd::NotBound => Ok(FAILED),
                ServeEnd::NoMemory => Ok(NO_MEMORY),
            }
        }
        Opened::Ended(ended) => Ok(ended.status),
    }
}
