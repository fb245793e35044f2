//! What a folder has after each call. Its files are looked at too.
use crate::open::no_folder;
use crate::steps::{append, created, flush, lists, put_head, seal};
use crate::stops::can_be_sent;
use acng_keeper::{BodyFile, BodyId, FolderKeeper, KeepFault, Keeper};
use std::alloc::Global;
use std::fs;
use std::process::Abort;
use std::test::Fail;

// A sealed body 0 with its head, and an unsealed body 1. What is flushed is in the file before it is sealed.
fn fill<K: Keeper>(rt: &impl Abort, alloc: Global, keeper: &mut K) {
    let mut body = created(rt, alloc, keeper);
    append(rt, alloc, &mut body, b"abc");
    flush(rt, &mut body);
    append(rt, alloc, &mut body, b"def");
    append(rt, alloc, &mut body, b"ghi");
    flush(rt, &mut body);
    assert_eq!(rt; body.len(), 9);
    reads(rt, &mut body, 4, b"efghi");
    reads(rt, &mut body, 9, b"");
    assert_eq!(rt; body.id(), BodyId(0));
    seal(rt, alloc, keeper, body);
    put_head(rt, alloc, keeper, b"a head");
    put_head(rt, alloc, keeper, b"the head");
    let mut body = created(rt, alloc, keeper);
    assert_eq!(rt; body.id(), BodyId(1));
    append(rt, alloc, &mut body, b"xyz");
}

// The body has these bytes from a place on.
fn reads<B: BodyFile>(rt: &impl Abort, body: &mut B, from: u64, bytes: &[u8]) {
    let mut buf = [0u8; 16];
    match body.read_at(from, &mut buf) {
        Ok(count) => assert_eq!(rt; &buf[..count], bytes),
        Err(_) => panic!(rt; "read_at"),
    }
}

// The head and the bodies that `fill` left.
fn finds_all(rt: &impl Abort, alloc: Global, keeper: &mut FolderKeeper<HostRuntime>) {
    assert_eq!(rt; keeper.next_id(), 2);
    has_the_head(rt, alloc, keeper);
    match keeper.list_bodies(alloc) {
        Ok(bodies) => {
            assert_eq!(rt; bodies.len(), 2);
            assert_eq!(rt; bodies.get(0), BodyId(0));
            assert_eq!(rt; bodies.get(1), BodyId(1));
        }
        Err(_) => panic!(rt; "bodies"),
    }
    match keeper.fetch_body(alloc, BodyId(0)) {
        Ok(mut body) => reads(rt, &mut body, 0, b"abcdefghi"),
        Err(_) => panic!(rt; "fetch"),
    }
}

// The one head is whole.
fn has_the_head<K: Keeper>(rt: &impl Abort, alloc: Global, keeper: &mut K) {
    match keeper.list_heads(alloc) {
        Ok(heads) => {
            assert_eq!(rt; heads.len(), 1);
            let (id, bytes) = heads.get(0);
            assert_eq!(rt; id, BodyId(0));
            assert_eq!(rt; bytes, b"the head".as_slice());
        }
        Err(_) => panic!(rt; "heads"),
    }
}

// What `fill` left goes.
fn remove_all<K: Keeper>(rt: &impl Abort, alloc: Global, keeper: &mut K) {
    assert!(rt; keeper.remove_body(alloc, BodyId(1)).is_ok());
    assert!(rt; keeper.remove_head(alloc, BodyId(0)).is_ok());
    assert!(rt; keeper.remove_body(alloc, BodyId(0)).is_ok());
    lists(rt, alloc, keeper, 0, 0);
}

// Names that are no file's of the folder; the last isn't UTF-8.
fn add_foreign(rt: &HostRuntime, folder: &str) -> Result<(), Fail> {
    let alloc = rt.alloc();
    for name in [
        "README",
        "draft",
        "b-1",
        "b-000000000000000A",
        "h-00000000000000000",
        "b-8000000000000000",
        "h-8000000000000000",
    ] {
        fs::write(rt, format!(in alloc; "{folder}/{name}")?, "foreign")?;
    }
    let mut bytes = Vec::from_slice(alloc, folder.as_bytes())?;
    bytes.extend_from_slice(b"/b-\xff")?;
    if os::mkdir(bytes.as_slice()) != 0 {
        return Err(Fail::from("the last name"));
    }
    Ok(())
}

// The bytes of a file of the folder.
fn file_of(rt: &HostRuntime, folder: &str, name: &str) -> Result<Vec<u8>, Fail> {
    Ok(fs::read(rt, format!(in rt.alloc(); "{folder}/{name}")?)?)
}

fn count_files(rt: &HostRuntime, folder: &str) -> Result<u64, Fail> {
    let mut count = 0u64;
    for entry in fs::read_dir(rt, folder)? {
        if entry.is_ok() {
            count = count.saturating_add(1);
        }
    }
    Ok(count)
}

// The files have the bytes of the body and of the head. tests/folder_syncs.sh counts the syncs of body 0: two.
#[test]
fn a_folder_keeps_what_was_sealed_and_put(rt: HostRuntime) -> Result<(), Fail> {
    let alloc = rt.alloc();
    let folder = no_folder(&rt, "keeps")?;
    let mut keeper = FolderKeeper::new(rt.clone()?, alloc, folder.as_str())?;
    assert_eq!(rt; keeper.next_id(), 0);
    can_be_sent(&keeper);
    fill(&rt, alloc, &mut keeper);
    finds_all(&rt, alloc, &mut keeper);
    assert_eq!(rt; count_files(&rt, folder.as_str())?, 3);
    let body = file_of(&rt, folder.as_str(), "b-0000000000000000")?;
    assert_eq!(rt; body.as_slice(), b"abcdefghi".as_slice());
    let head = file_of(&rt, folder.as_str(), "h-0000000000000000")?;
    assert_eq!(rt; head.as_slice(), b"the head".as_slice());
    drop(keeper);
    fs::remove_dir_all(&rt, folder.as_str())?;
    Ok(())
}

// Eight foreign names, one of which isn't UTF-8 and isn't counted, stay after all is removed.
#[test]
fn foreign_names_are_passed_over(rt: HostRuntime) -> Result<(), Fail> {
    let alloc = rt.alloc();
    let folder = no_folder(&rt, "foreign")?;
    let mut keeper = FolderKeeper::new(rt.clone()?, alloc, folder.as_str())?;
    fill(&rt, alloc, &mut keeper);
    drop(keeper);
    add_foreign(&rt, folder.as_str())?;
    let mut keeper = FolderKeeper::new(rt.clone()?, alloc, folder.as_str())?;
    finds_all(&rt, alloc, &mut keeper);
    remove_all(&rt, alloc, &mut keeper);
    assert_eq!(rt; count_files(&rt, folder.as_str())?, 7);
    drop(keeper);
    fs::remove_dir_all(&rt, folder.as_str())?;
    Ok(())
}

fn put_head_fails<K: Keeper>(rt: &impl Abort, alloc: Global, keeper: &mut K) {
    assert!(rt; 0 < keeper.next_id());
    match keeper.put_head(alloc, BodyId(0), b"another head".as_slice()) {
        Err(KeepFault::Slip(_)) => {}
        _ => panic!(rt; "the head isn't drafted"),
    }
}

// A head written in place would be torn by a stop. Where the name that it is drafted under is taken by a folder, the
// call fails and the head before it stands.
#[test]
fn a_head_is_never_written_in_place(rt: HostRuntime) -> Result<(), Fail> {
    let alloc = rt.alloc();
    let folder = no_folder(&rt, "draft")?;
    let mut keeper = FolderKeeper::new(rt.clone()?, alloc, folder.as_str())?;
    fill(&rt, alloc, &mut keeper);
    fs::create_dir(&rt, format!(in alloc; "{folder}/draft")?)?;
    put_head_fails(&rt, alloc, &mut keeper);
    has_the_head(&rt, alloc, &mut keeper);
    drop(keeper);
    fs::remove_dir_all(&rt, folder.as_str())?;
    Ok(())
}
