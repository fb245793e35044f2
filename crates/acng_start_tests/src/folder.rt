//! Heads and bodies that are stored in a folder before a start.
ghost use Rattle.std.specs.Prelude.{◌≡◌, ◌<◌, true};

use acng_base::{CachePath, Moment};
use acng_head::{Head, Label, write_head};
use acng_keeper::{BodyFile, BodyId, FolderKeeper, Keeper};
use std::alloc::Global;
use std::process::Abort;
use std::test::Fail;
use std::{env, fs, process};

pub type Folder = FolderKeeper<HostRuntime>;

/// A head for a path, or none, over a body: `s` is sealed, `o` isn't, `n` is gone, and of `t` the head is torn.
#[derive(Drop)]
struct Stored<'a> {
    name: char,
    size: u64,
    text: &'a [u8],
    kind: char,
    attempt: u64,
}

// `PATH:SIZE:TEXT:KIND:ATTEMPT`; a path `-` has no head.
fn stored_of(words: &str) -> Option<Stored<'_>> {
    let mut words = words.split(':');
    Some(Stored {
        name: words.next()?.chars().next()?,
        size: words.next()?.parse::<u64>().ok()?,
        text: words.next()?.as_bytes(),
        kind: words.next()?.chars().next()?,
        attempt: words.next()?.parse::<u64>().ok()?,
    })
}

/// The path of a letter.
pub fn path_of(rt: &impl Abort, alloc: Global, name: char) -> CachePath {
    let text: &[u8] = match name {
        'a' => b"h/a",
        'b' => b"h/b",
        _ => b"h/c",
    };
    match CachePath::read(alloc, text) {
        Ok(path) => path,
        Err(_) => panic!(rt; "the path reads"),
    }
}

fn created<K: Keeper>(rt: &impl Abort, alloc: Global, keeper: &mut K) -> (BodyId, K::Body)
    ensures id { (K.Body.handle result.1).number ≡ result.0.0 }
    ensures below { result.0.0 < K.next keeper.new }
    ensures writable { (K.Body.handle result.1).writable ≡ true }
{
    assert!(rt; keeper.next_id() < 1 << 62);
    match keeper.create(alloc) {
        Ok(made) => made,
        Err(_) => panic!(rt; "create"),
    }
}

// Stores a body, and its head where it has one.
fn store<K: Keeper>(rt: &impl Abort, alloc: Global, keeper: &mut K, stored: &Stored<'_>) {
    let (id, body) = created(rt, alloc, keeper);
    let mut body = body;
    assert!(rt; body.append(alloc, stored.text).is_ok());
    if stored.kind != 'o' {
        assert!(rt; body.id().0 == id.0 && id.0 < keeper.next_id());
        assert!(rt; keeper.seal(alloc, id, body).is_ok());
    }
    if stored.name != '-' {
        put_head(rt, alloc, keeper, id, stored);
    }
    if stored.kind == 'n' {
        assert!(rt; keeper.remove_body(alloc, id).is_ok());
    }
}

fn put_head<K: Keeper>(
    rt: &impl Abort,
    alloc: Global,
    keeper: &mut K,
    id: BodyId,
    stored: &Stored<'_>,
) {
    let size = stored.size;
    let attempt = stored.attempt;
    assert!(rt; size < 1_000 && attempt < 1 << 63 && id.0 < keeper.next_id());
    let head = Head {
        path: path_of(rt, alloc, stored.name),
        label: Label::Fetched {
            first: attempt,
            last: attempt,
        },
        size,
        tag: None,
        modified: None,
        checked: Moment(10),
        mark: None,
    };
    let mut bytes = [0; 2048];
    let len = write_head(&head, &mut bytes);
    let len = if stored.kind == 't' { len / 2 } else { len };
    assert!(rt; keeper.put_head(alloc, id, &bytes[..len]).is_ok());
}

/// A folder that isn't there yet.
pub fn no_folder(host: &HostRuntime) -> Result<String, Fail> {
    let alloc = host.alloc();
    let temporary = env::temp_dir(host)?;
    let id = process::id(host.process());
    let folder = format!(in alloc; "{}/acng-start-{id}", temporary.display())?;
    let _ = fs::remove_dir_all(host, folder.as_str());
    Ok(folder)
}

pub fn opened(host: &HostRuntime, folder: &str) -> Result<Folder, Fail> {
    Ok(FolderKeeper::new(host.clone()?, host.alloc(), folder)?)
}

/// Stores what a line says.
pub fn fill(rt: &impl Abort, alloc: Global, keeper: &mut Folder, items: &str) {
    for words in items.split(' ') {
        if let Some(stored) = stored_of(words) {
            store(rt, alloc, keeper, &stored);
        }
    }
}

/// How many heads and bodies a keeper has.
pub fn counts(rt: &impl Abort, alloc: Global, keeper: &mut Folder) -> (usize, usize) {
    match (keeper.list_heads(alloc), keeper.list_bodies(alloc)) {
        (Ok(heads), Ok(bodies)) => (heads.len(), bodies.len()),
        _ => panic!(rt; "the lists"),
    }
}
