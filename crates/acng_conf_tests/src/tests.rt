//! What no clause says: that the calls succeed with ample memory, and values from outside.
//!
//! The rows of a table are one text, cut at `|`, and the fields of a row at `^`.
use acng_base::{NoMemory, Text, Texts};
use acng_conf::{Conf, Group, ListFile, fits, print_conf, print_fault, read_conf};
use std::alloc::Global;
use std::process::Abort;
use std::test::Fail;

// What `check-conf` prints of a text.
fn checked(alloc: Global, text: &[u8], lists: &[ListFile]) -> Result<Text, NoMemory> {
    match read_conf(alloc, text, lists) {
        Ok(conf) => print_conf(alloc, &conf),
        Err(fault) => print_fault(alloc, fault),
    }
}

// Whether that is this text and a line feed.
fn prints(alloc: Global, text: &[u8], lists: &[ListFile], printed: &[u8]) -> bool {
    match checked(alloc, text, lists) {
        Ok(got) => got.as_bytes().strip_suffix(b"\n") == Some(printed),
        Err(NoMemory) => false,
    }
}

// The configuration of a text.
fn conf_of(rt: &impl Abort, alloc: Global, text: &[u8]) -> Conf {
    let Ok(conf) = read_conf(alloc, text, &[]) else {
        panic!(rt; "no configuration");
    };
    conf
}

const LINES: &str = "\
^ok groups 0 warnings 0|\
\n\n^ok groups 0 warnings 0|\
# a comment^ok groups 0 warnings 0|\
\x20\t# a comment\r\n^ok groups 0 warnings 0|\
Port: 1^ok groups 0 warnings 0|\
Port: 65535^ok groups 0 warnings 0|\
Port: 0^line 1: BadNumber|\
Port: 65536^line 1: BadNumber|\
Port: 70000\n^line 1: BadNumber|\
Port: 000000080^ok groups 0 warnings 0|\
Port: 0000000080^line 1: BadNumber|\
Port: +80^line 1: BadNumber|\
Port: 8 0^line 1: BadNumber|\
Port:^line 1: BadNumber|\
Port: 80\r\n^ok groups 0 warnings 0|\
Port: 80\r^line 1: BadNumber|\
Port: 80\r\r\n^line 1: BadNumber|\
pOrT:80 # a comment^ok groups 0 warnings 0|\
Port:80#1^line 1: BadNumber|\
Port: 80 #1\nPort: x\nPort: y^line 2: BadNumber|\
Port : 80^line 1: NotALine|\
Port^line 1: NotALine|\
Port #: 80^line 1: NotALine|\
: 80^line 1: NotALine|\
1Port: 80^line 1: NotALine|\
Po/rt: 80^line 1: NotALine|\
P-o_r.t9: 80^ok groups 0 warnings 1\nwarning line 1: Unused|\
LocalDirs: x^ok groups 0 warnings 1\nwarning line 1: Unused|\
\nProxy:^ok groups 0 warnings 1\nwarning line 2: Unused|\
Remap: x^ok groups 0 warnings 1\nwarning line 1: Unused|\
BindAddress: 127.0.0.1^ok groups 0 warnings 0|\
BindAddress: a b c^ok groups 0 warnings 1\nwarning line 1: ExtraBind|\
BindAddress: ^line 1: NotALine|\
ReportPage: a-b_c.D9^ok groups 0 warnings 0|\
ReportPage: a/b^line 1: NotALine|\
ReportPage:^line 1: NotALine|\
ReportPage: 0123456789012345678901234567890123456789012345678901234567890123^ok groups 0 warnings 0|\
ReportPage: 01234567890123456789012345678901234567890123456789012345678901234^line 1: NotALine|\
ExThreshold: 36500^ok groups 0 warnings 0|\
ExThreshold: 36501^line 1: BadNumber|\
ExAbortOnProblems: 1000000^ok groups 0 warnings 0|\
ExAbortOnProblems: 1000001^line 1: BadNumber|\
Offlinemode: 2^line 1: BadNumber|\
FreshIndexMaxAge: 31536000^ok groups 0 warnings 0|\
FreshIndexMaxAge: 31536001^line 1: BadNumber|\
RedirMax: 15^ok groups 0 warnings 0|\
RedirMax: 16^line 1: BadNumber|\
MaintOverHttp: 01^ok groups 0 warnings 0|\
MaintOverHttp: yes^line 1: BadNumber|\
VfilePatternEx: readme$^ok groups 0 warnings 0|\
PfilePatternEx:^ok groups 0 warnings 0|\
PfilePatternEx: [^line 1: BadPattern|\
Remap-: http://h^line 1: NotALine|\
Remap-.x: http://h^line 1: NotALine|\
Remap-a/b: http://h^line 1: NotALine|\
remap-X.y: http://h^ok groups 1 warnings 0|\
Remap-0123456789012345678901234567890123456789012345678901234567890123: h^ok groups 1 warnings 0|\
Remap-01234567890123456789012345678901234567890123456789012345678901234: h^line 1: NotALine|\
Remap-x:^line 1: NoMerge|\
Remap-x: ; http://h^line 1: NoMerge|\
Remap-x: ; http://h:x^line 1: BadUrl|\
Remap-x: http://h:70000^line 1: BadUrl|\
Remap-x: http://h:0/^ok groups 1 warnings 0|\
Remap-x: https://h/^line 1: BadUrl|\
Remap-x: http://[::1]/^line 1: BadUrl|\
Remap-x: http://u@h/^line 1: BadUrl|\
Remap-x: http://u:p@h/^line 1: BadUrl|\
Remap-x: http://@h/^ok groups 1 warnings 0|\
Remap-x: http://h/a?q^line 1: BadUrl|\
Remap-x: http://h/a?^line 1: BadUrl|\
Remap-x: http://h/a#f^line 1: BadUrl|\
Remap-x: http://h/a%20b^line 1: BadUrl|\
Remap-x: /^line 1: BadUrl|\
Remap-x: /a/../b ; h^line 1: BadUrl|\
Remap-x: /a%2e ; h^ok groups 1 warnings 0|\
Remap-x: h ; g ; f ; e^ok groups 1 warnings 1\nwarning line 1: Flags|\
Remap-x: h;g^ok groups 1 warnings 0|\
Remap-x: h ; g ;^ok groups 1 warnings 0|\
Remap-x: /a h^ok groups 1 warnings 1\nwarning line 1: NoTarget|\
Remap-x: file:none^ok groups 1 warnings 1\nwarning line 1: NoList|\
Remap-x: /a file:z.gz ; ; f\nJunk: 1\nRemap-x: file:q\nJunk: 2^ok groups 1 warnings 6\nwarning line 1: GzList\nwarning line 1: Flags\nwarning line 2: Unused\nwarning line 3: NoList\nwarning line 3: NoTarget\nwarning line 4: Unused|\
Remap-x: /a\nRemap-x: h ; g^ok groups 1 warnings 0|\
Remap-x: h h H:80 http://h//^ok groups 1 warnings 0|\
Remap-x: h\nRemap-y: H^line 2: TwiceMerged|\
Remap-x: h\nRemap-X: g/a http://h:80^line 2: TwiceMerged|\
Remap-x: h\nRemap-y: h/a^ok groups 2 warnings 0|\
Remap-x: h\nRemap-y: h h:x^line 2: BadUrl";

#[test]
fn lines_are_taken_or_refused(rt: HostRuntime) -> Result<(), Fail> {
    for row in LINES.split('|') {
        let (text, printed) = row.split_once('^').ok_or("a row without its printed text")?;
        assert!(rt;
            prints(rt.alloc(), text.as_bytes(), &[], printed.as_bytes()),
            "{text:?}"
        );
    }
    Ok(())
}

#[test]
fn bytes_beyond_ascii_are_refused(rt: HostRuntime) {
    for (text, printed) in [
        (
            b"VfilePatternEx: \xFF".as_slice(),
            b"line 1: BadPattern".as_slice(),
        ),
        (b"Remap-x: http://h/\xC3\xA4", b"line 1: BadUrl"),
        (b"Remap-x: h\xFF", b"line 1: BadUrl"),
    ] {
        assert!(rt; prints(rt.alloc(), text, &[], printed));
    }
}

// The port, the days, the problems, the seconds and the redirects.
fn numbers(conf: &Conf) -> [u64; 5] {
    [
        u64::from(conf.port()),
        u64::from(conf.threshold_days()),
        u64::from(conf.abort_limit()),
        conf.fresh_age(),
        u64::from(conf.redir_max()),
    ]
}

#[test]
fn a_key_that_is_missing_has_its_default(rt: HostRuntime) {
    let none = conf_of(&rt, rt.alloc(), b"");
    assert!(rt; numbers(&none) == [3142, 4, 1, 27, 5]);
    assert!(rt; !none.offline() && !none.maint_over_http());
    assert!(rt; none.bind() == b"0.0.0.0".as_slice());
    assert!(rt; none.report_page() == b"acng-report.html".as_slice());
    assert!(rt; none.pfile_pattern().is_none() && none.vfile_pattern().is_none());
}

#[test]
fn the_last_value_of_a_key_counts(rt: HostRuntime) {
    let text = b"Port: 1\nport: 0099\nBindAddress: a b\nReportPage: r\nExThreshold: 0\n\
        ExAbortOnProblems: 7\nOfflinemode: 1\nFreshIndexMaxAge: 0\nRedirMax: 0\nMaintOverHttp: 1\n\
        PfilePatternEx: a b  # c\nVfilePatternEx:\n";
    let conf = conf_of(&rt, rt.alloc(), text);
    assert!(rt; numbers(&conf) == [99, 0, 7, 0, 0]);
    assert!(rt; conf.offline() && conf.maint_over_http());
    assert!(rt; conf.bind() == b"a".as_slice());
    assert!(rt; conf.report_page() == b"r".as_slice());
    assert!(rt; conf.pfile_pattern() == Some(b"a b".as_slice()));
    assert!(rt; conf.vfile_pattern() == Some(b"".as_slice()));
}

// A configuration and its rules may be shared between threads: this is shown where the call is checked.
fn is_shared<T: Send + Sync>(_value: &T) -> bool {
    true
}

#[test]
fn rules_are_those_of_the_configuration(rt: HostRuntime) {
    let text =
        b"ExThreshold: 9\nExAbortOnProblems: 7\nOfflinemode: 1\nFreshIndexMaxAge: 8\nRedirMax: 6\n\
        VfilePatternEx: readme$\n";
    let conf = conf_of(&rt, rt.alloc(), text);
    let Ok(rules) = conf.rules(rt.alloc()) else {
        panic!(rt; "no memory");
    };
    assert!(rt; rules.threshold_days() == 9 && rules.abort_limit() == 7);
    assert!(rt; rules.fresh_age() == 8 && rules.redir_max() == 6 && rules.offline());
    assert!(rt; rules.pfile_pattern().is_none());
    assert!(rt; rules.vfile_pattern() == Some(b"readme$".as_slice()));
    assert!(rt; is_shared(&conf) && is_shared(&rules));
}

#[test]
fn a_star_stands_for_any_bytes(rt: HostRuntime) {
    for (pattern, name, fit) in [
        (b"".as_slice(), b"".as_slice(), true),
        (b"*", b"", true),
        (b"a*c", b"abc", true),
        (b"a*c", b"acb", false),
        (b"a*b*c", b"abxbc", true),
        (b"a?c", b"abc", false), // no other byte stands for another
        (b"ab", b"abc", false),
    ] {
        assert_eq!(rt; fits(pattern, name), fit, "{pattern:?} {name:?}");
    }
}

fn list(alloc: Global, name: &[u8], bytes: &[u8]) -> Result<ListFile, NoMemory> {
    Ok(ListFile {
        name: Text::copy(alloc, name)?,
        bytes: Text::copy(alloc, bytes)?,
    })
}

fn three_lists(alloc: Global) -> Result<Vec<ListFile>, NoMemory> {
    let mut lists = Vec::new(alloc);
    lists.push(list(
        alloc,
        b"backends_debian",
        b"http://deb.debian.org/debian/\n",
    )?)?;
    lists.push(list(
        alloc,
        b"deb_a",
        b"# a comment\r\n\r\n  http://A.example/x \r\nhttp://h/a b\nftp://h\n/b.example/y#z\n/b.example/y",
    )?)?;
    lists.push(list(alloc, b"deb_b.gz", b"http://c.example")?)?;
    Ok(lists)
}

// The texts, each with a blank after it.
fn push_joined(all: &mut Vec<u8>, texts: &Texts) -> Result<(), NoMemory> {
    for i in 0..texts.len() {
        all.extend_from_slice(texts.get(i))?;
        all.push(b' ')?;
    }
    Ok(())
}

// Whether the group holds these entries.
fn holds(alloc: Global, group: &Group, entries: &[u8]) -> Result<bool, NoMemory> {
    let mut all = Vec::new(alloc);
    push_joined(&mut all, group.merging())?;
    all.extend_from_slice(b"; ")?;
    push_joined(&mut all, group.targets())?;
    Ok(all.as_slice() == entries && group.name() == b"debrep".as_slice())
}

// Whether the text makes one group that holds these entries.
fn groups_as(alloc: Global, text: &[u8], lists: &[ListFile], entries: &[u8]) -> bool {
    let Ok(conf) = read_conf(alloc, text, lists) else {
        return false;
    };
    let groups = conf.groups();
    groups.len() == 1 && matches!(holds(alloc, &groups[0], entries), Ok(true))
}

const GROUPS: &str = "\
Remap-debrep: http://ftp.example.org/debian http://ftp.de.example.org/debian /debian ; http://deb.example.org/debian^\
ok groups 1 warnings 0^\
ftp.example.org/debian ftp.de.example.org/debian /debian ; http://deb.example.org/debian |\
Remap-debrep: file:deb_mirror*.gz /debian ; file:backends_debian # Debian Archives^\
ok groups 1 warnings 1\nwarning line 1: GzList^\
/debian ; http://deb.debian.org/debian |\
Remap-debrep: H.Example:80//a//b/ 127.0.0.1:8080 //x%2f/y%2b%41 ; g:81/%7e%25// /i.example/a//^\
ok groups 1 warnings 0^\
h.example/a/b 127.0.0.1:8080 /x/y+A ; http://g:81/~%25 http://i.example/a |\
Remap-debrep: file:deb_* ; file:*e*d*^\
ok groups 1 warnings 1\nwarning line 1: BadListLine^\
a.example/x b.example/y c.example ; http://deb.debian.org/debian |\
Remap-debrep: h ; file:deb_a file:deb?a file: file:*b_a^\
ok groups 1 warnings 4\nwarning line 1: BadListLine\nwarning line 1: NoList\nwarning line 1: NoList\nwarning line 1: BadListLine^\
h ; http://a.example/x http://b.example/y http://a.example/x http://b.example/y |\
Remap-debrep: a /p b/c a ; t\nRemap-debrep: /q ; u^\
ok groups 1 warnings 0^\
a /p b/c /q ; http://t http://u \
";

#[test]
fn groups_hold_canonical_entries(rt: HostRuntime) -> Result<(), Fail> {
    let alloc = rt.alloc();
    let Ok(lists) = three_lists(alloc) else {
        panic!(rt; "no memory");
    };
    for row in GROUPS.split('|') {
        let (text, rest) = row.split_once('^').ok_or("a row without its printed text")?;
        let (printed, entries) = rest.split_once('^').ok_or("a row without its entries")?;
        assert!(rt;
            prints(alloc, text.as_bytes(), lists.as_slice(), printed.as_bytes()),
            "{text}"
        );
        assert!(rt;
            groups_as(alloc, text.as_bytes(), lists.as_slice(), entries.as_bytes()),
            "{text}"
        );
    }
    Ok(())
}

// What the text prints with one list file.
fn prints_with(alloc: Global, text: &[u8], name: &[u8], bytes: &[u8], printed: &[u8]) -> bool {
    match list(alloc, name, bytes) {
        Ok(file) => prints(alloc, text, &[file], printed),
        Err(NoMemory) => false,
    }
}

// Trying each star again at each place wouldn't end.
#[test]
fn a_pattern_of_many_stars_is_matched_in_time(rt: HostRuntime) {
    let name = b"aaaaaaaaaaaaaaaaaaaaaaaaaaaaaaaaaaaaaaaaaaaaaaaaaaaaaaaaaaaaaaaaaaaaaaaaaaaaaaaa";
    for (text, printed) in [
        (
            b"Remap-x: file:*a*a*a*a*a*a*a*a*a*a*a*a*a*a*a*a*a*a*a*a*b".as_slice(),
            b"ok groups 1 warnings 1\nwarning line 1: NoList".as_slice(),
        ),
        (
            b"Remap-x: file:*a*a*a*a*a*a*a*a*a*a*a*a*a*a*a*a*a*a*a*aa",
            b"ok groups 1 warnings 0",
        ),
    ] {
        assert!(rt; prints_with(rt.alloc(), text, name, b"/x", printed));
    }
}

// What a line `Port: 1` of so many bytes, and its end, prints behind a first text.
fn prints_long(alloc: Global, first: &[u8], length: usize, printed: &[u8]) -> bool {
    match long_line(alloc, first, length) {
        Ok(text) => prints(alloc, text.as_slice(), &[], printed),
        Err(NoMemory) => false,
    }
}

fn long_line(alloc: Global, first: &[u8], length: usize) -> Result<Vec<u8>, NoMemory> {
    let mut text = Vec::from_slice(alloc, first)?;
    text.extend_from_slice(b"Port:")?;
    for _ in 6..length {
        text.push(b' ')?;
    }
    text.extend_from_slice(b"1\r\n")?;
    Ok(text)
}

#[test]
fn a_line_has_at_most_8192_bytes(rt: HostRuntime) {
    for (first, length, printed) in [
        (b"".as_slice(), 8_192, b"ok groups 0 warnings 0".as_slice()),
        (b"", 8_193, b"line 1: TooLong"),
        (b"#", 8_193, b"ok groups 0 warnings 0"), // a comment
    ] {
        assert!(rt; prints_long(rt.alloc(), first, length, printed));
    }
}

// So many times the three pieces, with the numbers from 0 in the two gaps, and then the last one.
fn counted(
    alloc: Global,
    count: u32,
    pieces: [&[u8]; 3],
    last: &[u8],
) -> Result<Vec<u8>, NoMemory> {
    let [a, b, c] = pieces;
    let mut text = Vec::new(alloc);
    for i in 0..count {
        let number = i.to_string(alloc)?;
        text.extend_from_slice(a)?;
        text.extend_from_slice(number.as_bytes())?;
        text.extend_from_slice(b)?;
        text.extend_from_slice(number.as_bytes())?;
        text.extend_from_slice(c)?;
    }
    text.extend_from_slice(last)?;
    Ok(text)
}

// What such a text prints.
fn prints_counted(
    alloc: Global,
    count: u32,
    pieces: [&[u8]; 3],
    last: &[u8],
    printed: &[u8],
) -> bool {
    match counted(alloc, count, pieces, last) {
        Ok(text) => prints(alloc, text.as_slice(), &[], printed),
        Err(NoMemory) => false,
    }
}

#[test]
fn groups_and_their_targets_are_counted(rt: HostRuntime) {
    let groups = [b"Remap-x".as_slice(), b": h", b"\n"];
    let targets = [b"Remap-x: a ; t".as_slice(), b".example/", b"\n"];
    for (count, pieces, last, printed) in [
        (
            256,
            groups,
            b"".as_slice(),
            b"ok groups 256 warnings 0".as_slice(),
        ),
        (257, groups, b"", b"line 257: TooMany"),
        (64, targets, b"", b"ok groups 1 warnings 0"),
        (
            64,
            targets,
            b"Remap-x: b ; u v",
            b"ok groups 1 warnings 2\nwarning line 65: ExtraTarget\nwarning line 65: ExtraTarget",
        ),
    ] {
        assert!(rt; prints_counted(rt.alloc(), count, pieces, last, printed));
    }
}

// What a group prints that merges so many entries of a list file.
fn merges(alloc: Global, entries: u32, printed: &[u8]) -> bool {
    match counted(alloc, entries, [b"http://mirror", b".example/", b"\n"], b"") {
        Ok(bytes) => prints_with(
            alloc,
            b"Remap-x: file:all",
            b"all",
            bytes.as_slice(),
            printed,
        ),
        Err(NoMemory) => false,
    }
}

#[test]
fn at_most_20000_entries_merge(rt: HostRuntime) {
    assert!(rt; merges(rt.alloc(), 20_000, b"ok groups 1 warnings 0"));
    assert!(rt; merges(rt.alloc(), 20_001, b"line 1: TooMany"));
}

#[test]
fn a_text_has_at_most_4194304_bytes(rt: HostRuntime) -> Result<(), Fail> {
    let mut text = vec![in rt.alloc(); b'#'; 4_194_304]?;
    text[4_194_299] = b'\n';
    assert!(rt; prints(rt.alloc(), text.as_slice(), &[], b"ok groups 0 warnings 0"));
    text.push(b'#')?;
    assert!(rt; prints(rt.alloc(), text.as_slice(), &[], b"line 2: TooLong"));
    Ok(())
}
