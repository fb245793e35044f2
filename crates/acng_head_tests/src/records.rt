//! What no clause says: the text itself, by records that were written by hand, and that memory is enough.
ghost use Rattle.std.specs.Prelude.{◌<◌, ◌^◌, IfOk};
ghost use Rattle.acng_head.specs.Records.{IsBounded};

use acng_base::{CachePath, Moment};
use acng_head::{Hash, Head, Label, Tag, read_head, write_head};
use std::alloc::Global;
use std::test::Fail;

const FETCHED: &[u8] =
    b"acng-head 1\npath ftp.example.org/debian/pool/main/a/a_1_all.deb\norigin fetched 0 0\nsize 3\nchecked 1000\nend\n";

// With each line, the last moment that `modified` may have, and the SHA-256 hash of `abc` (FIPS 180-4).
const IMPORTED: &[u8] = b"acng-head 1\npath h/a.deb\n\
    origin imported ba7816bf8f01cfea414140de5dae2223b00361a396177a9cb410ff61f20015ad\nsize 3\n\
    tag \"x\"\nmodified 253402300799\nchecked 18446744073709551615\nmark 0\nend\n";

const ABC: [u8; 32] = [
    0xba, 0x78, 0x16, 0xbf, 0x8f, 0x01, 0xcf, 0xea, 0x41, 0x41, 0x40, 0xde, 0x5d, 0xae, 0x22, 0x23,
    0xb0, 0x03, 0x61, 0xa3, 0x96, 0x17, 0x7a, 0x9c, 0xb4, 0x10, 0xff, 0x61, 0xf2, 0x00, 0x15, 0xad,
];

// Each text with what is special in it: those that are one record, and those that are none.
const LAWFUL: &[(&str, &[u8])] = &[
    (
        "the shortest",
        b"acng-head 1\npath a\norigin fetched 0 0\nsize 3\nchecked 9\nend\n",
    ),
    (
        "the last attempt, and the greatest size",
        b"acng-head 1\npath a\norigin fetched 9223372036854775807 9223372036854775807\n\
            size 2199023255552\nchecked 9\nend\n",
    ),
    (
        "zeros",
        b"acng-head 1\npath a\norigin fetched 0 0\nsize 0\nchecked 0\nmark 0\nend\n",
    ),
];

const UNLAWFUL: &[(&str, &[u8])] = &[
    (
        "a leading zero",
        b"acng-head 1\npath a\norigin fetched 0 0\nsize 03\nchecked 9\nend\n",
    ),
    (
        "a sign",
        b"acng-head 1\npath a\norigin fetched 0 0\nsize +3\nchecked 9\nend\n",
    ),
    (
        "no digit",
        b"acng-head 1\npath a\norigin fetched 0 0\nsize \nchecked 9\nend\n",
    ),
    (
        "more than 64 bits",
        b"acng-head 1\npath a\norigin fetched 0 0\nsize 3\nchecked 18446744073709551616\nend\n",
    ),
    (
        "a line missing",
        b"acng-head 1\npath a\norigin fetched 0 0\nchecked 9\nend\n",
    ),
    (
        "a line twice",
        b"acng-head 1\npath a\norigin fetched 0 0\nsize 3\nsize 3\nchecked 9\nend\n",
    ),
    (
        "two lines in another order",
        b"acng-head 1\npath a\norigin fetched 0 0\nsize 3\nmodified 5\ntag \"x\"\nchecked 9\nend\n",
    ),
    (
        "CR LF",
        b"acng-head 1\r\npath a\r\norigin fetched 0 0\r\nsize 3\r\nchecked 9\r\nend\r\n",
    ),
    (
        "no last LF",
        b"acng-head 1\npath a\norigin fetched 0 0\nsize 3\nchecked 9\nend",
    ),
    (
        "bytes after the end",
        b"acng-head 1\npath a\norigin fetched 0 0\nsize 3\nchecked 9\nend\n\n",
    ),
    (
        "no path of the cache",
        b"acng-head 1\npath a/../b\norigin fetched 0 0\nsize 3\nchecked 9\nend\n",
    ),
    (
        "the first attempt above the last",
        b"acng-head 1\npath a\norigin fetched 2 1\nsize 3\nchecked 9\nend\n",
    ),
    (
        "an attempt of 2^63",
        b"acng-head 1\npath a\norigin fetched 0 9223372036854775808\nsize 3\nchecked 9\nend\n",
    ),
    (
        "one attempt",
        b"acng-head 1\npath a\norigin fetched 0\nsize 3\nchecked 9\nend\n",
    ),
    (
        "another origin",
        b"acng-head 1\npath a\norigin copied 0 0\nsize 3\nchecked 9\nend\n",
    ),
    (
        "a hash in upper case",
        b"acng-head 1\npath a\n\
            origin imported BA7816BF8F01CFEA414140DE5DAE2223B00361A396177A9CB410FF61F20015AD\nsize 3\nchecked 9\nend\n",
    ),
    (
        "a hash of 63 digits",
        b"acng-head 1\npath a\n\
            origin imported ba7816bf8f01cfea414140de5dae2223b00361a396177a9cb410ff61f20015a\nsize 3\nchecked 9\nend\n",
    ),
    (
        "a hash of 65 digits",
        b"acng-head 1\npath a\n\
            origin imported ba7816bf8f01cfea414140de5dae2223b00361a396177a9cb410ff61f20015ad0\nsize 3\nchecked 9\nend\n",
    ),
    (
        "an import with a size of its own",
        b"acng-head 1\npath a\n\
            origin imported ba7816bf8f01cfea414140de5dae2223b00361a396177a9cb410ff61f20015ad 3\nsize 3\nchecked 9\nend\n",
    ),
    (
        "a size above 2^41",
        b"acng-head 1\npath a\norigin fetched 0 0\nsize 2199023255553\nchecked 9\nend\n",
    ),
    (
        "a weak tag",
        b"acng-head 1\npath a\norigin fetched 0 0\nsize 3\ntag W/\"x\"\nchecked 9\nend\n",
    ),
    (
        "modified in the year 10000",
        b"acng-head 1\npath a\norigin fetched 0 0\nsize 3\nmodified 253402300800\nchecked 9\nend\n",
    ),
    (
        "modified with no moment",
        b"acng-head 1\npath a\norigin fetched 0 0\nsize 3\nmodified \nchecked 9\nend\n",
    ),
    (
        "version 2",
        b"acng-head 2\npath a\norigin fetched 0 0\nsize 3\nchecked 9\nend\n",
    ),
    ("nothing", b""),
];

fn fetched(alloc: Global, path: &[u8], last: u64) -> Result<Head, Fail>
    requires { last < 2 ^ 63 }
    ensures { IfOk result IsBounded }
{
    Ok(Head {
        path: CachePath::read(alloc, path).map_err(|_| "no path")?,
        label: Label::Fetched { first: 0, last },
        size: 3,
        tag: None,
        modified: None,
        checked: Moment(1000),
        mark: None,
    })
}

fn imported(alloc: Global) -> Result<Head, Fail>
    ensures { IfOk result IsBounded }
{
    Ok(Head {
        path: CachePath::read(alloc, b"h/a.deb").map_err(|_| "no path")?,
        label: Label::Imported {
            sha256: Hash(ABC),
            size: 3,
        },
        size: 3,
        tag: Tag::read(b"\"x\""),
        modified: Some(Moment(253_402_300_799)),
        checked: Moment(18_446_744_073_709_551_615),
        mark: Some(Moment(0)),
    })
}

// Whether the head's record is this text, of this length, and the text reads back as a head with this record.
fn is_record(alloc: Global, head: &Head, text: &[u8], len: usize) -> Result<bool, Fail>
    requires { IsBounded head.now }
{
    let mut out = [0; 2048];
    let end = write_head(head, &mut out);
    let Some(read) = read_head(alloc, text).map_err(|_| "no memory")? else {
        return Ok(false);
    };
    Ok(end == len && &out[..end] == text && is_same(&read, head))
}

fn is_same(a: &Head, b: &Head) -> bool {
    let tags = match (&a.tag, &b.tag) {
        (Some(tag), Some(other)) => tag.as_bytes() == other.as_bytes(),
        (None, None) => true,
        _ => false,
    };
    let dates = a.modified == b.modified && a.checked == b.checked && a.mark == b.mark;
    tags && dates && a.path == b.path && a.label == b.label && a.size == b.size
}

#[test]
fn a_record_is_written_and_read_back(rt: HostRuntime) -> Result<(), Fail> {
    let path = b"ftp.example.org/debian/pool/main/a/a_1_all.deb";
    assert!(rt; is_record(rt.alloc(), &fetched(rt.alloc(), path, 0)?, FETCHED, 107)?);
    assert!(rt; is_record(rt.alloc(), &imported(rt.alloc())?, IMPORTED, 183)?);
    Ok(())
}

// Whether the text is read as a record.
fn is_read(alloc: Global, text: &[u8]) -> Result<bool, Fail> {
    Ok(read_head(alloc, text).map_err(|_| "no memory")?.is_some())
}

#[test]
fn a_text_is_one_record_or_none(rt: HostRuntime) -> Result<(), Fail> {
    for (why, text) in LAWFUL {
        assert!(rt; is_read(rt.alloc(), text)?, "{why}");
    }
    for (why, text) in UNLAWFUL {
        assert!(rt; !is_read(rt.alloc(), text)?, "{why}");
    }
    Ok(())
}

// 1,024 bytes of a path, a hash, 2^41 bytes, 256 bytes of a tag, and the last moments.
#[test]
fn the_longest_record_fits(rt: HostRuntime) -> Result<(), Fail> {
    let path = vec![in rt.alloc(); b'a'; 1024]?;
    let mut tag = vec![in rt.alloc(); b'a'; 256]?;
    tag[0] = b'"';
    tag[255] = b'"';
    let mut head = imported(rt.alloc())?;
    head.path = CachePath::read(rt.alloc(), &path).map_err(|_| "no path")?;
    head.label = Label::Imported {
        sha256: Hash(ABC),
        size: 1 << 41,
    };
    head.size = 1 << 41;
    head.tag = Tag::read(&tag);
    head.mark = Some(Moment(18_446_744_073_709_551_615));
    let mut out = [0; 2048];
    let len = write_head(&head, &mut out);
    let read = read_head(rt.alloc(), &out[..len]).map_err(|_| "no memory")?;
    assert_eq!(rt; len, 1484);
    assert!(rt; read.is_some_and(|read| is_same(&read, &head)));
    Ok(())
}
