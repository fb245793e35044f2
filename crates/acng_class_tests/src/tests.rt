//! The table of classes by its rows: each line on both sides.
//!
//! A table is one text, cut at `|`, and the fields of a row at `^`.
use acng_base::{CachePath, NoMemory};
use acng_class::{Class, ClassFault, Classes};
use acng_conf::read_conf;
use std::alloc::Global;
use std::process::Abort;
use std::test::Fail;

// Named by a hash: any length, either case, one of four hashes, and before the installer's line.
const HASHES: &str = "\
h/dists/s/main/by-hash/SHA256/00^Solid|\
by-hash/MD5Sum/0123456789abcdef^Solid|\
h/by-hash/SHA1/AF^Solid|\
h/by-hash/SHA512/9^Solid|\
h/by-hash/SHA384/00^Forbidden|\
h/by-hash/sha256/00^Forbidden|\
h/by-hash/SHA256/0g^Forbidden|\
h/by-hash/SHA256/00/00^Forbidden|\
h/xby-hash/SHA256/00^Forbidden|\
SHA256/00^Forbidden|\
00^Forbidden|\
h/installer-amd64/by-hash/SHA256/00^Solid";

// A difference of two indexes, and the list of them.
const DIFFERENCES: &str = "\
h/Packages.diff/Index^Volatile|\
h/Packages.diff/Index.gz^Volatile|\
h/Packages.diff/2020-01-01.gz^Solid|\
h/Packages.diff/2020-01-01-0000^Solid|\
h/Packages.diff/Packages^Solid|\
h/.diff/Index.gz.gz^Solid|\
Packages.diff^Forbidden|\
h/Packages.diff/x/y^Forbidden|\
h/Packages.difff/y^Forbidden";

// Files that a repository writes anew.
const INDEXES: &str = "\
h/dists/s/InRelease^Volatile|\
h/dists/s/Release^Volatile|\
h/dists/s/Release.gpg^Volatile|\
h/Packages^Volatile|\
h/Packages.xz^Volatile|\
h/Packages.gz.xz^Solid|\
h/Sources.bz2^Volatile|\
h/Index.lzma^Volatile|\
ls-lR.zst^Volatile|\
h/MD5SUMS^Volatile|\
h/SHA256SUMS^Volatile|\
h/SHA512SUMS^Forbidden|\
h/Packages.deb^Solid|\
h/packages^Forbidden|\
h/Release/x^Forbidden";

// How others of them begin.
const FRONTS: &str = "\
h/Contents-amd64.gz^Volatile|\
h/Translation-en^Volatile|\
h/Components-amd64.yml.xz^Volatile|\
h/Commands-amd64^Volatile|\
h/icons-64x64.tar.gz^Volatile|\
h/Contents^Forbidden|\
h/xicons-64^Forbidden|\
h/Contents-amd64/x^Forbidden";

// An installer's folder, wherever it stands.
const INSTALLERS: &str = "\
installer-amd64/current/images/x.deb^Volatile|\
h/main/installer-arm64/x^Volatile|\
h/installer-^Volatile|\
h/my-installer-x/y^Forbidden|\
h/installer/x^Forbidden";

// Files that never change.
const ENDINGS: &str = "\
h/pool/main/a/a_1_all.deb^Solid|\
h/a.udeb^Solid|\
h/a.ddeb^Solid|\
h/a.dsc^Solid|\
h/a.tar.gz^Solid|\
h/a.tar.xz^Solid|\
h/a.tar.bz2^Solid|\
h/a.lzma^Solid|\
h/.zst^Solid|\
h/a.asc^Solid|\
h/a.changes^Solid|\
h/a.buildinfo^Solid|\
h/a.DEB^Forbidden|\
h/a.tar^Forbidden|\
h/a.deb/x^Forbidden|\
h/adeb^Forbidden|\
h/readme^Forbidden";

// Further files, by the pattern of solid ones, the pattern of volatile ones (`-` for none), a path and its class. The
// volatile pattern is asked before the endings and before the other one, and after the table's names; an empty pattern is
// found in every path.
const PATTERNS: &str = "\
-^readme$^h/readme^Volatile|\
-^readme$^h/readme/x^Forbidden|\
\\.iso$^-^h/a.iso^Solid|\
\\.iso$^-^h/a.img^Forbidden|\
-^\\.deb$^h/a.deb^Volatile|\
x^x^h/x^Volatile|\
-^by-hash^h/by-hash/SHA1/0^Solid|\
Release^-^h/Release^Volatile|\
^-^h/readme^Solid|\
-^^h/a.deb^Volatile";

fn word(class: Class) -> &'static str {
    match class {
        Class::Solid => "Solid",
        Class::Volatile => "Volatile",
        Class::Forbidden => "Forbidden",
    }
}

// The class of the path, under the two patterns.
fn class_of(
    rt: &impl Abort,
    alloc: Global,
    solid: Option<&[u8]>,
    volatile: Option<&[u8]>,
    path: &[u8],
) -> Class {
    let Ok(path) = CachePath::read(alloc, path) else {
        panic!(rt; "no path");
    };
    let Ok(mut classes) = Classes::by_patterns(alloc, solid, volatile) else {
        panic!(rt; "no classes");
    };
    let Ok(class) = classes.class_of(alloc, &path) else {
        panic!(rt; "no memory");
    };
    class
}

fn expect_all(rt: &impl Abort, alloc: Global, rows: &str) -> Result<(), Fail> {
    for row in rows.split('|') {
        let (path, class) = row.split_once('^').ok_or("a row without its class")?;
        let got = class_of(rt, alloc, None, None, path.as_bytes());
        assert_eq!(rt; word(got), class, "{path}");
    }
    Ok(())
}

#[test]
fn the_first_line_that_fits_decides(rt: HostRuntime) -> Result<(), Fail> {
    expect_all(&rt, rt.alloc(), HASHES)?;
    expect_all(&rt, rt.alloc(), DIFFERENCES)?;
    expect_all(&rt, rt.alloc(), INDEXES)?;
    Ok(())
}

#[test]
fn fronts_and_endings_tell_a_class(rt: HostRuntime) -> Result<(), Fail> {
    expect_all(&rt, rt.alloc(), FRONTS)?;
    expect_all(&rt, rt.alloc(), INSTALLERS)?;
    expect_all(&rt, rt.alloc(), ENDINGS)?;
    Ok(())
}

fn some_pattern(field: &str) -> Option<&[u8]> {
    if field == "-" {
        None
    } else {
        Some(field.as_bytes())
    }
}

#[test]
fn patterns_name_further_files(rt: HostRuntime) -> Result<(), Fail> {
    for row in PATTERNS.split('|') {
        let (solid, rest) = row.split_once('^').ok_or("a row of one field")?;
        let (volatile, rest) = rest.split_once('^').ok_or("a row of two fields")?;
        let (path, class) = rest.split_once('^').ok_or("a row of three fields")?;
        let (solid, volatile) = (some_pattern(solid), some_pattern(volatile));
        let got = class_of(&rt, rt.alloc(), solid, volatile, path.as_bytes());
        assert_eq!(rt; word(got), class, "{row}");
    }
    Ok(())
}

// Why no table is made with these two patterns.
fn refusal(alloc: Global, solid: Option<&[u8]>, volatile: Option<&[u8]>) -> Option<ClassFault> {
    match Classes::by_patterns(alloc, solid, volatile) {
        Ok(_) => None,
        Err(fault) => Some(fault),
    }
}

#[test]
fn a_text_that_is_no_pattern_is_refused(rt: HostRuntime) {
    let (solid, volatile) = (Some(ClassFault::BadSolid), Some(ClassFault::BadVolatile));
    let bad = Some(b"[".as_slice());
    assert_eq!(rt; refusal(rt.alloc(), None, None), None);
    assert_eq!(rt; refusal(rt.alloc(), Some(b""), Some(b"")), None);
    assert_eq!(rt; refusal(rt.alloc(), bad, None), solid);
    assert_eq!(rt; refusal(rt.alloc(), None, bad), volatile);
    assert_eq!(rt; refusal(rt.alloc(), Some(b"("), bad), solid);
    assert_eq!(rt; refusal(rt.alloc(), Some(b"\xff"), None), solid);
    assert_eq!(rt; refusal(rt.alloc(), Some(b"a"), Some(b"a\xc3")), volatile);
}

// The class of `h/readme` under a configuration, and the same by its rules.
fn by_text(rt: &impl Abort, alloc: Global, text: &[u8]) -> (Class, Class) {
    let Ok(conf) = read_conf(alloc, text, &[]) else {
        panic!(rt; "no configuration");
    };
    let Ok(rules) = conf.rules(alloc) else {
        panic!(rt; "no rules");
    };
    (
        readme(rt, alloc, Classes::of(alloc, &conf)),
        readme(rt, alloc, Classes::by_rules(alloc, &rules)),
    )
}

fn readme(rt: &impl Abort, alloc: Global, classes: Result<Classes, NoMemory>) -> Class {
    let Ok(path) = CachePath::read(alloc, b"h/readme") else {
        panic!(rt; "no path");
    };
    let Ok(mut classes) = classes else {
        panic!(rt; "no classes");
    };
    let Ok(class) = classes.class_of(alloc, &path) else {
        panic!(rt; "no memory");
    };
    class
}

#[test]
fn a_configuration_gives_the_patterns(rt: HostRuntime) {
    for (text, class) in [
        (b"".as_slice(), Class::Forbidden),
        (b"VfilePatternEx: readme$", Class::Volatile),
        (b"PfilePatternEx: readme$", Class::Solid),
        (b"PfilePatternEx:", Class::Solid),
    ] {
        let (whole, copied) = by_text(&rt, rt.alloc(), text);
        assert_eq!(rt; whole, class, "{text:?}");
        assert_eq!(rt; copied, class, "{text:?}");
    }
}
