//! What no clause says: that the calls succeed with ample memory, and values from outside.
ghost use Rattle.std.specs.Prelude.{◌≡◌, IfOk};

use acng_base::{
    CachePath, Clock, Failed, FixedClock, Hash, HashSoFar, HostClock, LineState, Link, MemoryLink,
    MemorySink, MemorySource, Moment, NoMemory, PathFault, Scan, Sink, Source, StdLink, StdSink,
    StdSource, Tag, Text, Texts, Unread, base_name, copy_at_most, copy_front, cut_last, find_byte,
    first_bytes, read_digits, read_length, scan_block, send_all, send_counted, trim, without_cr,
    words,
};
use std::alloc::Global;
use std::io::{Error, ErrorKind, Read, Write};
use std::test::Fail;

// Each text with what is wrong with it as a path.
const PATHS: &[(&[u8], Option<PathFault>)] = &[
    (b"debrep/pool/a_1.deb", None),
    (b"a", None),
    (b"...", None),
    (b"a/.b/c..", None),
    (b"", Some(PathFault::Empty)),
    (b"a b", Some(PathFault::BadByte { at: 1 })),
    (b"a/../\x7f", Some(PathFault::BadByte { at: 5 })),
    (b"debian/../etc", Some(PathFault::BadSegment { at: 7 })),
    (b"/a", Some(PathFault::BadSegment { at: 0 })),
    (b"a//b", Some(PathFault::BadSegment { at: 2 })),
    (b"a/.", Some(PathFault::BadSegment { at: 2 })),
    (b"a/", Some(PathFault::BadSegment { at: 2 })),
];

// What is wrong with a text that is read as a path, or that a path is made of; none where it is the path's text.
fn fault_of_copy(alloc: Global, text: &[u8]) -> Result<Option<PathFault>, Fail> {
    match CachePath::read(alloc, text) {
        Ok(path) => {
            let again = path.again(alloc).map_err(|_| "memory")?;
            if again.as_bytes() == text {
                Ok(None)
            } else {
                Err("another path")?
            }
        }
        Err(fault) => Ok(Some(fault)),
    }
}

fn fault_of_own(alloc: Global, text: &[u8]) -> Result<Option<PathFault>, Fail> {
    match CachePath::of(Vec::from_slice(alloc, text)?) {
        Ok(path) => if path.as_bytes() == text {
            Ok(None)
        } else {
            Err("another path")?
        },
        Err(fault) => Ok(Some(fault)),
    }
}

#[test]
fn a_path_names_one_file(rt: HostRuntime) -> Result<(), Fail> {
    for (text, fault) in PATHS {
        assert_eq!(rt; CachePath::refusal(text), *fault);
        assert_eq!(rt; fault_of_copy(rt.alloc(), text)?, *fault);
        assert_eq!(rt; fault_of_own(rt.alloc(), text)?, *fault);
    }
    Ok(())
}

#[test]
fn a_path_has_at_most_1024_bytes(rt: HostRuntime) -> Result<(), Fail> {
    let long = vec![in rt.alloc(); b'a'; 1025]?;
    assert_eq!(rt; CachePath::refusal(&long[..1024]), None);
    assert_eq!(rt;
        CachePath::refusal(&long),
        Some(PathFault::TooLong { len: 1025 })
    );
    Ok(())
}

// Each text, and whether it is a strong tag.
const TAGS: &[(&[u8], bool)] = &[
    (b"\"\"", true),
    (b"\"x\"", true),
    (b"\"!#~\"", true),
    (b"\"", false),
    (b"", false),
    (b"W/\"x\"", false),
    (b"\"x", false),
    (b"x\"", false),
    (b"\"a\"b\"", false),
    (b"\"a b\"", false),
    (b"\"\x7f\"", false),
];

// Whether the text is read as a tag, which then has this text.
fn is_tag(text: &[u8]) -> bool {
    Tag::read(text).is_some_and(|tag| tag.again().as_bytes() == text)
}

#[test]
fn a_strong_tag_is_read_and_a_weak_one_is_not(rt: HostRuntime) -> Result<(), Fail> {
    for (text, strong) in TAGS {
        assert_eq!(rt; is_tag(text), *strong);
        assert_eq!(rt; Tag::read(text).is_some(), *strong);
    }
    Ok(())
}

#[test]
fn a_tag_has_at_most_256_bytes(rt: HostRuntime) -> Result<(), Fail> {
    let mut long = vec![in rt.alloc(); b'a'; 257]?;
    long[0] = b'"';
    long[255] = b'"';
    long[256] = b'"';
    assert!(rt; is_tag(&long[..256]));
    assert!(rt; Tag::read(&long).is_none());
    Ok(())
}

// Whether `abcde` goes out over a link of this room, cut and failing call, how much of it, and after how many faults.
fn sent(alloc: Global, room: usize, cut: usize, fail: u64) -> Result<(bool, usize, u64), NoMemory> {
    let mut link = MemoryLink::new(alloc, b"", room, cut.max(1), &[fail])?;
    let whole = send_all(&mut link, b"abcde").is_ok();
    let front = b"abcde".starts_with(link.written());
    Ok((whole && front, link.written().len(), link.faults()))
}

// The room, the cut, the number of the call that fails, whether the piece goes out whole, and how much of it.
const PIECES: &[(usize, usize, u64, bool, usize)] = &[
    (9, 9, 9, true, 5),
    (5, 1, 9, true, 5),
    (4, 9, 9, false, 4),
    (0, 9, 9, false, 0),
    (9, 9, 0, false, 0),
    (9, 2, 1, false, 2),
    (9, 2, 2, false, 4),
];

#[test]
fn a_piece_goes_out_whole_or_a_front_of_it(rt: HostRuntime) -> Result<(), Fail> {
    for (room, cut, fail, whole, count) in PIECES {
        let outcome = sent(rt.alloc(), *room, *cut, *fail).map_err(|_| "memory")?;
        assert_eq!(rt; outcome, (*whole, *count, u64::from(!*whole)));
    }
    let mut link = MemoryLink::new(rt.alloc(), b"", 3, 2, &[]).map_err(|_| "memory")?;
    assert_eq!(rt; send_counted(&mut link, b"abcde"), (3, Err(Failed)));
    Ok(())
}

// The room of each read in turn, and what is read: the second call fails.
const READS: &[(usize, Result<&[u8], Failed>)] = &[
    (4, Ok(b"abc")),
    (4, Err(Failed)),
    (2, Ok(b"de")),
    (4, Ok(b"f")),
    (4, Ok(b"")),
];

#[test]
fn a_read_is_cut_and_ends(rt: HostRuntime) -> Result<(), Fail> {
    let mut link = MemoryLink::new(rt.alloc(), b"abcdef", 0, 3, &[1]).map_err(|_| "memory")?;
    for (room, read) in READS {
        let mut buf = [0; 4];
        let count = link.read(&mut buf[..*room]);
        assert_eq!(rt; count, read.map(|bytes| bytes.len()));
        assert!(rt; buf.starts_with(read.unwrap_or(b"")));
    }
    Ok(())
}

#[test]
fn a_source_fails_where_it_is_said_to_and_goes_on(rt: HostRuntime) -> Result<(), Fail> {
    let mut buf = [0; 4];
    let mut source = MemorySource::new(rt.alloc(), b"ab", 1, &[0]).map_err(|_| "memory")?;
    assert_eq!(rt; source.read(&mut buf), Err(Failed));
    assert_eq!(rt; source.read(&mut buf), Ok(1));
    Ok(())
}

#[test]
fn a_sink_takes_what_it_has_room_for(rt: HostRuntime) -> Result<(), Fail> {
    let mut sink = MemorySink::new(rt.alloc(), 2, 9, &[]).map_err(|_| "memory")?;
    assert_eq!(rt; sink.write(b"abc"), Ok(2));
    assert!(rt; sink.written() == b"ab".as_slice());
    Ok(())
}

#[test]
fn the_last_moment_repeats(rt: HostRuntime) -> Result<(), Fail> {
    let mut clock = FixedClock::new(rt.alloc(), &[5, 3]).map_err(|_| "memory")?;
    for moment in [5, 3, 3] {
        assert_eq!(rt; clock.now(), Moment(moment));
    }
    // 2020-01-01: the system's clock is set.
    assert!(rt; Moment(1_577_836_800) < HostClock::new(rt).now());
    Ok(())
}

// Where the block ends when its text comes in pieces of a length.
fn block_end(text: &[u8], cut: usize) -> Option<usize> {
    let mut state = LineState::Before;
    let mut before = 0usize;
    for piece in text.chunks(cut.max(1)) {
        match scan_block(state, piece) {
            Scan::End(count) => return Some(before.saturating_add(count)),
            Scan::Incomplete(next) => state = next,
        }
        before = before.saturating_add(piece.len());
    }
    None
}

// Each text, and where its block ends.
const BLOCKS: &[(&[u8], Option<usize>)] = &[
    (b"GET / HTTP/1.1\r\n\r\nrest", Some(18)),
    (b"a\n\nrest", Some(3)),
    (b"\r\n\na\r\nb\n\r\n", Some(10)),
    (b"a\r\r\n\r\n", Some(6)),
    (b"a\n\ra\n\n", Some(6)),
    (b"\n\r\n\n", None),
    (b"a\r\n\r", None),
    (b"", None),
];

#[test]
fn a_block_ends_at_its_first_empty_line_in_any_cutting(rt: HostRuntime) {
    for (text, end) in BLOCKS {
        for cut in [1, 2, 4096] {
            assert_eq!(rt; block_end(text, cut), *end, "cut {cut}");
        }
    }
}

#[test]
fn texts_keep_their_order(rt: HostRuntime) -> Result<(), Fail> {
    let mut texts = Texts::new(rt.alloc());
    assert!(rt; texts.is_empty());
    for text in [b"b".as_slice(), b"".as_slice()] {
        texts.push(rt.alloc(), text).map_err(|_| "memory")?;
    }
    assert_eq!(rt; texts.len(), 2);
    assert!(rt; texts.get(0) == b"b".as_slice() && texts.get(1).is_empty());
    Ok(())
}

#[test]
fn a_text_is_pushed_as_it_is(rt: HostRuntime) -> Result<(), Fail> {
    let text = Text::copy(rt.alloc(), b"abc").map_err(|_| "memory")?;
    assert!(rt; text.as_bytes() == b"abc".as_slice());
    let mut texts = Texts::new(rt.alloc());
    texts.push(rt.alloc(), b"b").map_err(|_| "memory")?;
    texts.push_text(text).map_err(|_| "memory")?;
    assert!(rt; texts.len() == 2 && texts.get(1) == b"abc".as_slice());
    Ok(())
}

#[test]
fn the_adapters_pass_the_bytes_on(rt: HostRuntime) -> Result<(), Fail> {
    let mut buf = [0; 4];
    let mut link = StdLink::new(b"ab".as_slice(), Vec::new(rt.alloc()));
    assert_eq!(rt; link.read(&mut buf), Ok(2));
    assert_eq!(rt; link.read(&mut buf), Ok(0));
    assert_eq!(rt; link.write(b"abc"), Ok(3));
    assert_eq!(rt; StdSource::new(b"ab".as_slice()).read(&mut buf), Ok(2));
    assert_eq!(rt; StdSink::new(Vec::new(rt.alloc())).write(b"abc"), Ok(3));
    Ok(())
}

#[test]
fn bytes_are_found_and_copied(rt: HostRuntime) {
    let mut room = *b"....";
    assert_eq!(rt; find_byte(b"a/b/c", b'/'), Some(1));
    assert_eq!(rt; find_byte(b"abc", b'/'), None);
    assert!(rt;
        first_bytes(b"abc", 2) == b"ab".as_slice() && first_bytes(b"abc", 9) == b"abc".as_slice()
    );
    assert_eq!(rt; copy_front(b"abcdef", &mut room[1..3]), 2);
    assert!(rt; room == *b".ab.");
    assert_eq!(rt; copy_at_most(b"xyz", &mut room, 1), 1);
    assert!(rt; room == *b"xab.");
}

// Each text, and the length that it says: 1 to 13 digits, and at most 2^41.
const LENGTHS: &[(&[u8], Option<u64>)] = &[
    (b"0", Some(0)),
    (b"0000000000017", Some(17)),
    (b"2199023255552", Some(2_199_023_255_552)),
    (b"2199023255553", None),
    (b"00000000000017", None),
    (b"", None),
    (b"+1", None),
];

// 19 digits always fit 64 bits.
#[test]
fn a_number_has_few_digits(rt: HostRuntime) {
    for (text, length) in LENGTHS {
        assert_eq!(rt; read_length(text), *length);
    }
    assert_eq!(rt;
        read_digits(b"9999999999999999999", 19),
        Some(9_999_999_999_999_999_999)
    );
    assert_eq!(rt; read_digits(b"10000000000000000000", 19), None);
}

// Each line, and what is between its blanks at both ends.
const LINES: &[(&[u8], &[u8])] = &[(b" \ta b\t ", b"a b"), (b"\t ", b""), (b"a\r", b"a\r")];

#[test]
fn a_line_loses_its_ends_and_has_words(rt: HostRuntime) -> Result<(), Fail> {
    for (text, inner) in LINES {
        assert!(rt; trim(text) == *inner);
    }
    assert!(rt; without_cr(b"a\r\r") == b"a\r".as_slice() && without_cr(b"").is_empty());
    let found = words(rt.alloc(), b" a  bc\td ").map_err(|_| "memory")?;
    assert_eq!(rt; found.len(), 3);
    assert!(rt; found[1].as_bytes() == b"bc".as_slice());
    Ok(())
}

// Each path, its folder, and its name without a packed ending.
const NAMES: &[(&[u8], &[u8], &[u8])] = &[
    (b"dists/sid/Packages.xz", b"dists/sid", b"Packages"),
    (b"a.gz.bz2", b"", b"a.gz"),
    (b"a/b.zst/c", b"a/b.zst", b"c"),
    (b"a/", b"a", b""),
];

#[test]
fn a_packed_file_has_its_name(rt: HostRuntime) {
    for (path, folder, name) in NAMES {
        let (before, _) = cut_last(path);
        assert!(rt; before == *folder && base_name(path) == *name);
    }
}

// What is used after each read of three bytes, and what is then held. Where all room is taken nothing is read.
const USED: &[(usize, &[u8])] = &[(1, b"bc"), (3, b"ef"), (0, b"efghi"), (0, b"efghijkl")];

// Reads once where there is room, and uses so many bytes.
fn read_and_use(unread: &mut Unread<8>, link: &mut MemoryLink, used: usize) -> bool {
    let is_read = unread.is_full() || unread.fill(link) == Ok(3);
    if used <= unread.as_bytes().len() {
        unread.use_up(used);
    }
    is_read
}

#[test]
fn unread_bytes_stay_in_order(rt: HostRuntime) -> Result<(), Fail> {
    let mut link = MemoryLink::new(rt.alloc(), b"abcdefghijkl", 0, 3, &[]).map_err(|_| "memory")?;
    let mut unread = Unread::<8>::new(rt.alloc()).map_err(|_| "memory")?;
    assert!(rt; unread.is_empty());
    for (used, held) in USED {
        assert!(rt; !unread.is_full());
        assert!(rt; read_and_use(&mut unread, &mut link, *used));
        assert!(rt; unread.as_bytes() == *held);
    }
    assert!(rt; unread.is_full());
    Ok(())
}

#[test]
fn unread_bytes_end_where_the_link_fails_or_ends(rt: HostRuntime) -> Result<(), Fail> {
    let mut link = MemoryLink::new(rt.alloc(), b"abc", 0, 3, &[1]).map_err(|_| "memory")?;
    let mut unread = Unread::<8>::new(rt.alloc()).map_err(|_| "memory")?;
    assert_eq!(rt; unread.fill(&mut link), Ok(3));
    unread.use_up(unread.as_bytes().len());
    assert!(rt; unread.is_empty());
    assert_eq!(rt; unread.fill(&mut link), Err(Failed));
    assert_eq!(rt; unread.fill(&mut link), Ok(0));
    Ok(())
}

// A stream whose first calls are interrupted, and which then fails or is at its end.
#[derive(Drop)]
struct Stutter {
    interrupted: u8,
    fails: bool,
}

impl Stutter {
    fn call(&mut self) -> std::io::Result<usize>
        ensures { IfOk result (λ n. n ≡ 0) }
    {
        if self.interrupted > 0 {
            self.interrupted -= 1;
            return Err(Error::from(ErrorKind::Interrupted));
        }
        if self.fails {
            return Err(Error::from(ErrorKind::BrokenPipe));
        }
        Ok(0)
    }
}

impl Read for Stutter {
    fn read(&mut self, _: &mut [u8]) -> std::io::Result<usize> {
        self.call()
    }
}

impl Write for Stutter {
    fn write(&mut self, _: &[u8]) -> std::io::Result<usize> {
        self.call()
    }

    fn flush(&mut self) -> std::io::Result<()> {
        Ok(())
    }
}

#[test]
fn an_interrupted_call_is_made_again(rt: HostRuntime) {
    let mut buf = [0; 4];
    for (interrupted, fails, read) in [
        (0, false, Ok(0)),
        (3, false, Ok(0)),
        (2, true, Err(Failed)),
    ] {
        assert_eq!(rt;
            StdSource::new(Stutter { interrupted, fails }).read(&mut buf),
            read
        );
        // a write that takes no byte fails
        assert_eq!(rt;
            StdSink::new(Stutter { interrupted, fails }).write(b"a"),
            Err(Failed)
        );
    }
}

// The SHA-256 hash of `abc` (FIPS 180-4).
const ABC: [u8; 32] = [
    0xba, 0x78, 0x16, 0xbf, 0x8f, 0x01, 0xcf, 0xea, 0x41, 0x41, 0x40, 0xde, 0x5d, 0xae, 0x22, 0x23,
    0xb0, 0x03, 0x61, 0xa3, 0x96, 0x17, 0x7a, 0x9c, 0xb4, 0x10, 0xff, 0x61, 0xf2, 0x00, 0x15, 0xad,
];

#[test]
fn a_hash_is_that_of_all_pieces(rt: HostRuntime) -> Result<(), Fail> {
    let mut hash = HashSoFar::new();
    hash.add(b"a");
    assert!(rt; hash.so_far() != Hash(ABC));
    hash.add(b"bc");
    assert!(rt; hash.so_far() == Hash(ABC));
    assert!(rt; hash.end() == Hash(ABC));
    Ok(())
}
