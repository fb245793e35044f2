//! What no clause says: that the calls succeed with ample memory, and values from outside.
use acng_base::{NoMemory, PathFault, Text, Texts};
use acng_conf::{Conf, ListFile, read_conf};
use acng_remap::{Target, TargetFault, read_target};
use std::alloc::Global;
use std::process::Abort;
use std::test::Fail;

// The configuration of the text, with a list file of one line.
fn conf_of(rt: &impl Abort, alloc: Global, text: &[u8]) -> Conf {
    let Ok(name) = Text::copy(alloc, b"backends_debian") else {
        panic!(rt; "no memory");
    };
    let Ok(bytes) = Text::copy(alloc, b"http://deb.debian.org/debian/\n") else {
        panic!(rt; "no memory");
    };
    let Ok(lists) = vec![in alloc; ListFile { name, bytes }] else {
        panic!(rt; "no memory");
    };
    let Ok(conf) = read_conf(alloc, text, lists.as_slice()) else {
        panic!(rt; "no configuration");
    };
    conf
}

// The path and the origins with a blank before each, or `?` and a query, or the refusal's name.
fn shown(alloc: Global, conf: &Conf, method: &[u8], target: &[u8]) -> Result<Vec<u8>, NoMemory> {
    match read_target(alloc, conf, method, target) {
        Ok(Target::File { path, origins }) => {
            let mut text = Vec::from_slice(alloc, path.as_bytes())?;
            push_all(&mut text, &origins)?;
            Ok(text)
        }
        Ok(Target::Page(query)) => {
            let mut text = Vec::from_slice(alloc, b"?")?;
            text.extend_from_slice(query.as_bytes())?;
            Ok(text)
        }
        Err(fault) => Ok(Vec::from_slice(alloc, word(fault))?),
    }
}

fn push_all(text: &mut Vec<u8>, origins: &Texts) -> Result<(), NoMemory> {
    for i in 0..origins.len() {
        text.push(b' ')?;
        text.extend_from_slice(origins.get(i))?;
    }
    Ok(())
}

fn word(fault: TargetFault) -> &'static [u8] {
    match fault {
        TargetFault::NoMemory => b"NoMemory",
        TargetFault::Connect => b"Connect",
        TargetFault::Tls => b"Tls",
        TargetFault::BadTarget => b"BadTarget",
        TargetFault::Query => b"Query",
        TargetFault::BadPath(PathFault::Empty) => b"Empty",
        TargetFault::BadPath(PathFault::TooLong { len: 1025 }) => b"TooLong 1025",
        TargetFault::BadPath(PathFault::BadByte { at: 8 }) => b"BadByte 8",
        TargetFault::BadPath(PathFault::BadSegment { at: 2 }) => b"BadSegment 2",
        TargetFault::BadPath(PathFault::BadSegment { at: 7 }) => b"BadSegment 7",
        TargetFault::BadPath(_) => b"BadPath",
    }
}

const NO_GROUPS: &[u8] = b"";

// M: two mirrors and a prefix. `lone` has no target; `Big` and `two` merge places of one host, `two` deeper ones.
const GROUPS: &[u8] =
    b"Remap-debrep: ftp.de.example.org/debian http://ftp.example.org/debian /debian ; http://deb.example.org/debian\nRemap-lone: /lone lone.example:8080/x\nRemap-one: m.example ; o.example p.example:81/q%22r/\nRemap-two: m.example/a/b ; t.example\nRemap-pre: /debian/deep /m.example/zz ; d.example";

// Targets and their readings, by hand from the rules: a row a line, with a tab between.

// Mirrors and prefixes of one group.
const MIRRORS_AND_PREFIXES_OF_ONE_GROUP: &[u8] =
    b"/debian/P\tdebrep/P http://deb.example.org/debian/P\nhttp://ftp.de.example.org/debian/P\tdebrep/P http://deb.example.org/debian/P\n/ftp.example.org//debian/P\tdebrep/P http://deb.example.org/debian/P\nHTTP://FTP.example.ORG:080/%64ebian//P/\tdebrep/P http://deb.example.org/debian/P\n/debrep/P\tdebrep/P http://deb.example.org/debian/P\n///debrep/P\tdebrep/P http://deb.example.org/debian/P\n//debian/P\tdebrep/P http://deb.example.org/debian/P\nhttp://debrep:80/P\tdebrep/P http://deb.example.org/debian/P\nhttp://debrep:81/P\tdebrep:81/P http://debrep:81/P";

// Whole segments.
const WHOLE_SEGMENTS: &[u8] =
    b"/debian-security/x.deb\tdebian-security/x.deb http://debian-security/x.deb\nhttp://ftp.example.org/debia/P\tftp.example.org/debia/P http://ftp.example.org/debia/P\nhttp://debian/P\tdebian/P http://debian/P";

// Paths that aren't.
const PATHS_THAT_AREN_T: &[u8] =
    b"/debian/../etc\tBadSegment 7\n/debian/%2e%2e/etc\tBadSegment 7\n/debian/.\tBadSegment 7\n/debian\tEmpty\n/debian/\tEmpty\n/debian/..\tBadSegment 7\n/debian/x%00\tBadByte 8\n/debian/x y\tBadByte 8\n/h/%2e%2e/x\tBadSegment 2\n/../x\tBadPath";

// The longest entry decides.
const THE_LONGEST_ENTRY_DECIDES: &[u8] =
    b"/m.example/x\tone/x http://o.example/x http://p.example:81/q%22r/x\n/m.example/a/x\tone/a/x http://o.example/a/x http://p.example:81/q%22r/a/x\n/m.example/a/b/x\ttwo/x http://t.example/x\n/m.example/a%2fb/x\ttwo/x http://t.example/x\n/m.example/a%2fbx/x\tone/a/bx/x http://o.example/a/bx/x http://p.example:81/q%22r/a/bx/x\n/m.example/zz/x\tpre/x http://d.example/x\nhttp://m.example/zz/x\tone/zz/x http://o.example/zz/x http://p.example:81/q%22r/zz/x\n/m.example:8080/x\tm.example:8080/x http://m.example:8080/x\n/debian/deep/x\tpre/x http://d.example/x\n/debian/deepx\tdebrep/deepx http://deb.example.org/debian/deepx\n/debian/deep\tEmpty\n/m.example\tEmpty";

// A group without a target.
const A_GROUP_WITHOUT_A_TARGET: &[u8] =
    b"/lone/x\tBadTarget\n/lone\tBadTarget\n/lone:8080/x\tlone:8080/x http://lone:8080/x\n/lone.example:8080/x/y\tlone/y http://lone.example:8080/x/y\n/lone.example:08080/x/y%25\tlone/y% http://lone.example:8080/x/y%25";

// Escapes.
const ESCAPES: &[u8] =
    b"/h.example/libstdc%2b%2b6_1_all.deb\th.example/libstdc++6_1_all.deb http://h.example/libstdc++6_1_all.deb\n/h.example/%zz%4\th.example/%zz%4 http://h.example/%25zz%254\n/h.example/%2541\th.example/%41 http://h.example/%2541\n/h.example/~a\"b\th.example/~a\"b http://h.example/~a%22b\n/h.example/%ff\tBadPath";

// Hosts and ports.
const HOSTS_AND_PORTS: &[u8] =
    b"http://H.example:8080/a.deb\th.example:8080/a.deb http://h.example:8080/a.deb\n/H_1-:00443/a\th_1-:443/a http://h_1-:443/a\nhttp://h.example:65535/a\th.example:65535/a http://h.example:65535/a\nhttp://h.example:65536/a\tBadTarget\nhttp://h.example:000080/a\tBadTarget\nhttp://h.example:0/a\tBadTarget\nhttp://h.example:/a\tBadTarget\nhttp://h.example:8x/a\tBadTarget\nhttp://h.example:80:80/a\tBadTarget\nhttp://u@h.example/a\tBadTarget\nhttp://%68.example/a\tBadTarget\nhttp://[::1]/a\tBadTarget\nhttp:///h.example/a\tBadTarget\nhttp://\tBadTarget\n/\tBadTarget\nhttp://h.example\tEmpty\nhttp://h.example//\tEmpty";

// Forms.
const FORMS: &[u8] =
    b"\tBadTarget\n*\tBadTarget\nh.example/a\tBadTarget\nftp://h.example/a\tBadTarget\nhttps://h.example/a\tTls\nHttpS://h.example/a?b#c\tTls\n/HTTPS///h.example/a\tTls\n/https///h.example/a\thttps/h.example/a http://https/h.example/a\n/HTTPS//h.example/a\thttps/h.example/a http://https/h.example/a\n/h.example/a?b\tQuery\n/h.example/a?\tQuery\n/?q\tQuery\n/h.example/a#b\tBadTarget\n/h.example/a?b#c\tBadTarget\n/h.example/a%3fb%23c\th.example/a?b#c http://h.example/a%3Fb%23c";

// The report page.
const THE_REPORT_PAGE: &[u8] =
    b"/acng-report.html\t?\n/acng-report.html?\t?\n/acng-report.html?run=expire&#\t?run=expire&#\n/acng-report.html/x\tacng-report.html/x http://acng-report.html/x\n/acng-report.htmlx\tEmpty\n//acng-report.html\tEmpty\nhttp://acng-report.html\tEmpty";

const READINGS: &[&[u8]] = &[
    MIRRORS_AND_PREFIXES_OF_ONE_GROUP,
    WHOLE_SEGMENTS,
    PATHS_THAT_AREN_T,
    THE_LONGEST_ENTRY_DECIDES,
    A_GROUP_WITHOUT_A_TARGET,
    ESCAPES,
    HOSTS_AND_PORTS,
    FORMS,
    THE_REPORT_PAGE,
];

fn expect_all(rt: &impl Abort, alloc: Global, conf: &Conf, rows: &[u8]) -> Result<(), Fail> {
    for row in rows.split(|b| *b == b'\n') {
        expect_row(rt, alloc, conf, row)?;
    }
    Ok(())
}

fn expect_row(rt: &impl Abort, alloc: Global, conf: &Conf, row: &[u8]) -> Result<(), Fail> {
    let Some(at) = row.iter().position(|b| *b == b'\t') else {
        panic!(rt; "no tab");
    };
    let (target, reading) = row.split_at(at);
    let text = shown(alloc, conf, b"GET", target)?;
    assert_eq!(rt; text.as_slice(), &reading[1..]);
    let text = shown(alloc, conf, b"CONNECT", target)?;
    assert_eq!(rt; text.as_slice(), b"Connect".as_slice());
    Ok(())
}

#[test]
fn a_target_has_one_reading(rt: HostRuntime) -> Result<(), Fail> {
    let alloc = rt.alloc();
    let conf = conf_of(&rt, alloc, GROUPS);
    for rows in READINGS {
        expect_all(&rt, alloc, &conf, rows)?;
    }
    Ok(())
}

// An administrator's line with a list file.
#[test]
fn a_group_by_lists_asks_the_listed_mirror(rt: HostRuntime) -> Result<(), Fail> {
    let alloc = rt.alloc();
    let conf = conf_of(
        &rt,
        alloc,
        b"Remap-debrep: file:deb_mirror*.gz /debian ; file:backends_debian # Debian Archives",
    );
    let text = shown(alloc, &conf, b"GET", b"/debian/a.deb")?;
    assert_eq!(rt;
        text.as_slice(),
        b"debrep/a.deb http://deb.debian.org/debian/a.deb".as_slice()
    );
    Ok(())
}

// What is read of a path of one segment with so many bytes behind its host.
fn shown_of_length(alloc: Global, conf: &Conf, len: usize) -> Result<Vec<u8>, NoMemory> {
    let mut target = Vec::from_slice(alloc, b"/h/")?;
    for _ in 0..len {
        target.push(b'a')?;
    }
    shown(alloc, conf, b"GET", target.as_slice())
}

// 1,024 bytes are a path, and one more is too long.
#[test]
fn a_path_of_the_cache_has_at_most_1024_bytes(rt: HostRuntime) -> Result<(), Fail> {
    let alloc = rt.alloc();
    let conf = conf_of(&rt, alloc, NO_GROUPS);
    let text = shown_of_length(alloc, &conf, 1022)?;
    assert_eq!(rt; text.len(), 1024 + 8 + 1024);
    let text = shown_of_length(alloc, &conf, 1023)?;
    assert_eq!(rt; text.as_slice(), b"TooLong 1025".as_slice());
    Ok(())
}
