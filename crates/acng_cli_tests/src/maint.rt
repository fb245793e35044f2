//! The words of the command line, and what the commands of maintenance print. Expected values are written from the rules by hand.
use crate::cache::Cache;
use acng_base::{FixedClock, MemorySink, MemorySource, NoMemory, Text, Texts};
use acng_cli::{Command, WordsFault, read_words, run_maint};
use acng_conf::ListFile;
use acng_import::MemoryFinder;
use acng_site::{MemoryOrigin, NoGate, Untold};
use std::alloc::Global;
use std::test::Fail;

fn texts(alloc: Global, words: &[&[u8]]) -> Result<Vec<Text>, NoMemory> {
    let mut all = Vec::new(alloc);
    for word in words {
        all.push(Text::copy(alloc, *word)?)?;
    }
    Ok(all)
}

// Words, and the command that they name or what is wrong with them.
const WORDS: &[(&[&[u8]], Result<Command, WordsFault>)] = &[
    (&[b"serve"], Ok(Command::Serve)),
    (&[b"once"], Ok(Command::Once)),
    (&[b"expire"], Ok(Command::Expire)),
    (&[b"import"], Ok(Command::Import)),
    (&[b"report"], Ok(Command::Report)),
    (&[b"check-conf"], Ok(Command::CheckConf)),
    (&[b"gen", b"1"], Ok(Command::Gen(1))),
    (&[b"gen", b"+007"], Ok(Command::Gen(7))),
    (&[b"gen", b"20000"], Ok(Command::Gen(20_000))),
    (&[b"gen", b"20001"], Err(WordsFault::NotRead)),
    (&[b"gen", b"0"], Err(WordsFault::NotRead)),
    (&[b"gen", b"ten"], Err(WordsFault::NotRead)),
    (&[b"gen"], Err(WordsFault::NoNumber)),
    (&[b"expire", b"3"], Err(WordsFault::StrayNumber)),
    (&[b"Once"], Err(WordsFault::NoCommand)),
    (&[b"once", b"\xff"], Err(WordsFault::NotRead)),
    (&[b"--help"], Err(WordsFault::NotRead)),
    (&[], Err(WordsFault::NotRead)),
];

#[test]
fn words_are_read_by_their_form(rt: HostRuntime) -> Result<(), Fail> {
    let alloc = rt.alloc();
    for (words, command) in WORDS {
        let words = texts(alloc, words)?;
        let read = read_words(alloc, words.as_slice()).map(|words| words.command);
        assert_eq!(rt; read, *command);
    }
    Ok(())
}

// Words, and the configuration's file and the cache's folder that they name.
const FILES: &[(&[&[u8]], &[u8], &[u8])] = &[
    (&[b"report"], b"acng.conf", b"cache"),
    (&[b"report", b"--conf", b"a/b"], b"a/b", b"cache"),
    (&[b"--cache=/c", b"report"], b"acng.conf", b"/c"),
];

#[test]
fn files_have_defaults(rt: HostRuntime) -> Result<(), Fail> {
    let alloc = rt.alloc();
    for (words, conf, cache) in FILES {
        let words = texts(alloc, words)?;
        let Ok(read) = read_words(alloc, words.as_slice()) else {
            panic!(rt; "the words are read");
        };
        assert_eq!(rt; read.conf.as_bytes(), *conf);
        assert_eq!(rt; read.cache.as_bytes(), *cache);
    }
    Ok(())
}

// How the bytes come and go, and which calls fail.
#[derive(Clone, Copy)]
struct Streams {
    cut: usize,
    room: usize,
    failing_read: u64,
    failing_write: u64,
    failing_find: u64,
}

const NEVER: u64 = 1_000_000;

// Streams of which nothing fails, whose bytes go in one piece.
const WHOLE: Streams = Streams {
    cut: 4096,
    room: 4096,
    failing_read: NEVER,
    failing_write: NEVER,
    failing_find: NEVER,
};

// Two found files, of which no index names one.
fn found(alloc: Global, fail: u64) -> Result<MemoryFinder, NoMemory> {
    let mut names = Texts::new(alloc);
    names.push(alloc, b"new.deb")?;
    names.push(alloc, b"odd name\xff")?;
    let mut bodies = Texts::new(alloc);
    bodies.push(alloc, b"abc")?;
    bodies.push(alloc, b"")?;
    MemoryFinder::new(alloc, &names, &bodies, &[fail])
}

// The mirrors of a group, which a configuration may name.
fn list(alloc: Global) -> Result<ListFile, NoMemory> {
    Ok(ListFile {
        name: Text::copy(alloc, b"mirrors")?,
        bytes: Text::copy(alloc, b"http://ftp.example.org/debian\n")?,
    })
}

// The status of one run over a cache that has nothing.
fn status_of(
    alloc: Global,
    words: &[Text],
    source: &mut MemorySource,
    lists: &[ListFile],
    finder: &mut MemoryFinder,
    sink: &mut MemorySink,
) -> Result<u8, NoMemory> {
    let mut clock = FixedClock::new(alloc, &[1000])?;
    let cache = Cache::new(alloc, &[])?;
    let (_origin, right) = MemoryOrigin::<Untold, NoGate>::start(alloc, &[], 1, NoGate)?;
    let maint = run_maint(
        alloc,
        words,
        cache.keeper,
        right,
        source,
        lists,
        finder,
        &mut clock,
        sink,
    );
    Ok(maint.status)
}

// The same of a configuration, and what was printed.
fn printed(
    alloc: Global,
    words: &[Text],
    conf: &[u8],
    lists: &[ListFile],
    streams: Streams,
) -> Result<(u8, Vec<u8>), NoMemory> {
    let cut = streams.cut.max(1);
    let mut source = MemorySource::new(alloc, conf, cut, &[streams.failing_read])?;
    let mut finder = found(alloc, streams.failing_find)?;
    let mut sink = MemorySink::new(alloc, streams.room, cut, &[streams.failing_write])?;
    let status = status_of(alloc, words, &mut source, lists, &mut finder, &mut sink)?;
    Ok((status, Vec::from_slice(alloc, sink.written())?))
}

// The status, and what was printed.
fn run(
    alloc: Global,
    words: &[&[u8]],
    conf: &[u8],
    streams: Streams,
) -> Result<(u8, Vec<u8>), NoMemory> {
    let words = texts(alloc, words)?;
    let lists = [list(alloc)?];
    printed(alloc, words.as_slice(), conf, &lists, streams)
}

// Words and a configuration, and the program's status and what is printed.
const COMMANDS: &[(&[&[u8]], &[u8], u8, &[u8])] = &[
    (&[b"check-conf"], b"", 0, b"ok groups 0 warnings 0\n"),
    (
        &[b"check-conf"],
        b"Port: 70000\n",
        3,
        b"line 1: BadNumber\n",
    ),
    (
        &[b"check-conf"],
        b"# none\n\nPort 80",
        3,
        b"line 3: NotALine\n",
    ),
    (
        &[b"check-conf"],
        b"Foo: x\n",
        0,
        b"ok groups 0 warnings 1\nwarning line 1: Unused\n",
    ),
    (
        &[b"check-conf"],
        b"Remap-debrep: file:mirrors /debian ; http://deb.example.org/debian\n",
        0,
        b"ok groups 1 warnings 0\n",
    ),
    (&[b"serve"], b"Port: 70000\n", 2, b"words: Other\n"),
    (&[b"once"], b"", 2, b"words: Other\n"),
    (&[b"gen", b"0"], b"", 2, b"words: NotRead\n"),
    (&[b"expire", b"3"], b"", 2, b"words: StrayNumber\n"),
    (&[b"report"], b"", 0, b"rows 0 bytes 0\n"),
    (&[b"expire"], b"", 0, b"done removed 0 marked 0\n"),
    (
        &[b"import"],
        b"",
        0,
        b"unknown new.deb\nunknown odd?name?\n",
    ),
    (&[b"import"], b"Port: 70000\n", 3, b"line 1: BadNumber\n"),
    (&[b"report"], b"Port: 70000\n", 3, b"line 1: BadNumber\n"),
];

#[test]
fn commands_say_what_they_did(rt: HostRuntime) -> Result<(), Fail> {
    for (words, conf, expected, text) in COMMANDS {
        for cut in [1, 7, 4096] {
            let (status, printed) = run(rt.alloc(), words, conf, Streams { cut, ..WHOLE })?;
            assert_eq!(rt; status, *expected);
            assert_eq!(rt; printed.as_slice(), *text);
        }
    }
    Ok(())
}

// The number of the read or write that fails, the room of the output, and how much is printed.
const FAILING: &[(u64, u64, usize, usize)] = &[
    (0, NEVER, 4096, 0),
    (1, NEVER, 4096, 0),
    (NEVER, 2, 4096, 14),
    (NEVER, NEVER, 10, 10),
    (0, 0, 0, 0),
];

#[test]
fn a_stream_that_fails_is_said_to_fail(rt: HostRuntime) -> Result<(), Fail> {
    for (failing_read, failing_write, room, count) in FAILING {
        let streams = Streams {
            cut: 7,
            room: *room,
            failing_read: *failing_read,
            failing_write: *failing_write,
            failing_find: NEVER,
        };
        let (status, printed) = run(rt.alloc(), &[b"check-conf"], b"# none", streams)?;
        assert_eq!(rt; status, 4);
        assert_eq!(rt; printed.as_slice(), &b"ok groups 0 warnings 0\n"[..*count]);
    }
    Ok(())
}

// Words and a configuration, and the status where the output is full.
const FULL: &[(&[&[u8]], &[u8], u8)] = &[
    (&[b"check-conf"], b"", 4),
    (&[b"serve"], b"", 2),
    (&[b"once", b"3"], b"", 2),
    (&[b"check-conf"], b"Port: 70000\n", 3),
    (&[b"import"], b"", 4),
    (&[b"import"], b"Port: 70000\n", 3),
];

// Of several statuses those of the words and of the configuration go before that of a full output.
#[test]
fn a_full_output_hides_no_other_status(rt: HostRuntime) -> Result<(), Fail> {
    for (words, conf, expected) in FULL {
        let (status, printed) = run(rt.alloc(), words, conf, Streams { room: 5, ..WHOLE })?;
        assert_eq!(rt; status, *expected);
        assert_eq!(rt; printed.len(), 5);
    }
    Ok(())
}

// A found file that can't be read is said to be so; the next one is read.
#[test]
fn a_found_file_that_fails_is_said_to(rt: HostRuntime) -> Result<(), Fail> {
    let streams = Streams {
        failing_find: 0,
        ..WHOLE
    };
    let (status, printed) = run(rt.alloc(), &[b"import"], b"", streams)?;
    assert_eq!(rt; status, 4);
    assert_eq!(rt;
        printed.as_slice(),
        b"fault new.deb\nunknown odd?name?\n".as_slice()
    );
    Ok(())
}
