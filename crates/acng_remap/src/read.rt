//! A target's reading: the tests in their order, and the file that a place stands for.
//!
//! One buffer holds the place while it is looked up, and then becomes the file's path. Beside it a request takes no
//! memory but that of its origins.
ghost use Rattle.std.specs.Prelude.{◌≡◌, ◌≢◌, ◌≤◌, ◌<◌, ◌+◌, ◌++◌, ◌∷◌, [], Some, Ok, Err, IfOk, IfErr, IfSome, length, take, drop, map, codes, true};
ghost use Rattle.acng_base.specs.Cuts.{slash};
ghost use Rattle.acng_remap.specs.Forms.{is_tls};
ghost use Rattle.acng_remap.specs.Hosts.{host_name, host_text};
ghost use Rattle.acng_remap.specs.Readings.{Gives, GivesPath, HasOrigin, reading, form_of, target_file, host_file, of_host, place_file, entry_file, named_file, named_group, file_outside_groups, group_file, file, asked, url_of};

use crate::decide::{EntryMatch, has_target, longest_entry};
use crate::form::{after_start, has, has_slash, is_absolute, is_tls, page_query, slash_at};
use crate::host::{host_port, push_host};
use crate::target::{Target, TargetFault};
use acng_base::{CachePath, NoMemory, PathFault, Text, Texts};
use acng_conf::{Conf, Group, push_escaped, push_plain};
use std::alloc::Global;

/// What a method and a target ask for. The first rule that fits decides.
#[tactic(auto, unfolding(crate::specs::Readings::reading))]
pub fn read_target(
    alloc: Global,
    conf: &Conf,
    method: &[u8],
    target: &[u8],
) -> Result<Target, TargetFault>
    ensures target { IfOk result (λ t. reading conf.now method.now target.now ≡ Ok t) }
    ensures origins { IfOk result HasOrigin }

    // Each refusal, exactly; want of memory is free, but the first two take none.
    ensures connect { method.now ≡ codes "CONNECT" → result ≡ Err TargetFault.Connect }
    ensures tls { method.now ≢ codes "CONNECT" → is_tls target.now ≡ true → result ≡ Err TargetFault.Tls }
    ensures refused { IfErr result (λ fault. fault ≢ TargetFault.NoMemory → reading conf.now method.now target.now ≡ Err fault) }
{
    if method == b"CONNECT".as_slice() {
        return Err(TargetFault::Connect);
    }
    if is_tls(target) {
        return Err(TargetFault::Tls);
    }
    match page_query(conf.report_page(), target) {
        Some(query) => Ok(Target::Page(Text::copy(alloc, query)?)),
        None => read_form(alloc, conf, target),
    }
}

fn read_form(alloc: Global, conf: &Conf, target: &[u8]) -> Result<Target, TargetFault>
    ensures { Gives (form_of conf.now.groups target.now) result }
{
    if !(is_absolute(target) || has_slash(target)) || has(b'#', target) {
        return Err(TargetFault::BadTarget);
    }
    if has(b'?', target) {
        return Err(TargetFault::Query);
    }
    read_place_target(alloc, conf, target)
}

// A path prefix goes before a host. The room is enough for either place: no more than a slash comes to the target.
#[tactic(auto, unfolding(crate::specs::Readings::target_file))]
fn read_place_target(alloc: Global, conf: &Conf, target: &[u8]) -> Result<Target, TargetFault>
    ensures { Gives (target_file conf.now.groups target.now) result }
{
    let mut room = Vec::with_capacity(alloc, target.len().saturating_add(1))?;
    if !has_slash(target) {
        return read_host(alloc, conf, room, after_start(target));
    }
    push_plain(&mut room, target)?;
    match longest_entry(conf, room.as_slice()) {
        Some(found) => entry_file(alloc, conf, room, found),
        None => read_host(alloc, conf, room, after_start(target)),
    }
}

// A host's text and a path. The room is memory to fill anew.
#[tactic(auto, unfolding(crate::specs::Readings::host_file))]
fn read_host(alloc: Global, conf: &Conf, room: Vec<u8>, text: &[u8]) -> Result<Target, TargetFault>
    ensures { Gives (host_file conf.now.groups text.now) result }
{
    let len = slash_at(text);
    let host = &text[..len];
    match host_port(host) {
        Some(port) => read_place(alloc, conf, room, host, port, &text[len..]),
        None => Err(TargetFault::BadTarget),
    }
}

fn read_place(
    alloc: Global,
    conf: &Conf,
    room: Vec<u8>,
    host: &[u8],
    port: u32,
    path: &[u8],
) -> Result<Target, TargetFault>
    ensures { Gives (of_host conf.now.groups (host_text (host_name host.now) port) port path.now) result }
{
    let mut place = room;
    place.clear();
    push_host(&mut place, host, port)?;
    let len = place.len();
    push_plain(&mut place, path)?;
    place_file(alloc, conf, place, len, port)
}

// The file of a place: its host, of this length, and its segments with a slash before each.
#[tactic(auto, unfolding(crate::specs::Readings::place_file))]
fn place_file(
    alloc: Global,
    conf: &Conf,
    place: Vec<u8>,
    len: usize,
    port: u32,
) -> Result<Target, TargetFault>
    requires { len ≤ length place.items }
    ensures { Gives (place_file conf.now.groups place.items (take len place.items) port) result }
{
    match longest_entry(conf, place.as_slice()) {
        Some(found) => entry_file(alloc, conf, place, found),
        None => named_file(alloc, conf, place, len, port),
    }
}

// What follows the entry is the rest.
fn entry_file(
    alloc: Global,
    conf: &Conf,
    place: Vec<u8>,
    found: EntryMatch,
) -> Result<Target, TargetFault>
    requires { (found.len ≤ length place.items) × (found.group < length conf.now.groups) }
    ensures { Gives (entry_file conf.now.groups place.items (take found.len place.items) (Some found.group)) result }
{
    group_file(alloc, &conf.groups()[found.group], place, found.len)
}

// A group's name is a place too.
fn named_file(
    alloc: Global,
    conf: &Conf,
    place: Vec<u8>,
    len: usize,
    port: u32,
) -> Result<Target, TargetFault>
    requires { len ≤ length place.items }
    ensures { Gives (named_file conf.now.groups place.items (take len place.items)
        (named_group conf.now.groups (take len place.items) port)) result }
{
    match named_group(conf, &place[..len], port) {
        Some(k) => {
            let group = &conf.groups()[k];
            if has_target(group) {
                group_file(alloc, group, place, len)
            } else {
                Err(TargetFault::BadTarget)
            }
        }
        None => file_outside_groups(alloc, place, len),
    }
}

fn named_group(conf: &Conf, name: &[u8], port: u32) -> Option<usize>
    ensures group { result ≡ named_group conf.now.groups name.now port }
    ensures within { IfSome result (λ k. k < length conf.now.groups) }
{
    if port == 80 { conf.named(name) } else { None }
}

// A file of a place that belongs to no group.
#[tactic(auto, unfolding(crate::specs::Readings::file_outside_groups))]
fn file_outside_groups(alloc: Global, place: Vec<u8>, len: usize) -> Result<Target, TargetFault>
    requires { len ≤ length place.items }
    ensures { Gives (file_outside_groups place.items (take len place.items)) result }
{
    if place.len() == len {
        return Err(TargetFault::BadPath(PathFault::Empty));
    }
    let path = path_of(place)?;
    let origins = own_origin(alloc, path.as_bytes())?;
    Ok(Target::File { path, origins })
}

// A file of a group: what stands behind a front of the place, and the byte after it, is the rest.
#[tactic(auto, unfolding(crate::specs::Readings::group_file, crate::specs::Readings::group_origins))]
fn group_file(
    alloc: Global,
    group: &Group,
    place: Vec<u8>,
    len: usize,
) -> Result<Target, TargetFault>
    requires { len ≤ length place.items }
    ensures { Gives (group_file group.now (drop (len + 1) place.items) place.items) result }
{
    if place.len() - len <= 1 {
        return Err(TargetFault::BadPath(PathFault::Empty));
    }
    if has_target(group) {
        file_of_targets(alloc, group, place, len)
    } else {
        file_without_targets(alloc, group, place, len)
    }
}

// Each target of the group is asked for the rest.
fn file_of_targets(
    alloc: Global,
    group: &Group,
    place: Vec<u8>,
    len: usize,
) -> Result<Target, TargetFault>
    requires { len < length place.items }
    ensures { Gives (file (group.now.name ++ slash ∷ drop (len + 1) place.items)
        (map (asked (drop (len + 1) place.items)) group.now.targets)) result }
{
    let path = path_of(renamed(group.name(), place, len)?)?;
    let rest = behind(path.as_bytes(), group.name());
    let origins = asked_all(alloc, group.targets(), rest)?;
    Ok(Target::File { path, origins })
}

// Without a target the place itself is asked.
fn file_without_targets(
    alloc: Global,
    group: &Group,
    place: Vec<u8>,
    len: usize,
) -> Result<Target, TargetFault>
    requires { len < length place.items }
    ensures { Gives (file (group.now.name ++ slash ∷ drop (len + 1) place.items) (url_of place.items ∷ [])) result }
{
    let origins = own_origin(alloc, place.as_slice())?;
    let path = path_of(renamed(group.name(), place, len)?)?;
    Ok(Target::File { path, origins })
}

// The place with a name and a slash for its front and the byte after it, in the same memory.
fn renamed(name: &[u8], place: Vec<u8>, len: usize) -> Result<Vec<u8>, NoMemory>
    requires { len < length place.items }
    ensures { IfOk result (λ path. path.items ≡ name.now ++ slash ∷ drop (len + 1) place.items) }
{
    let mut path = place;
    let rest = path.len() - (len + 1);
    path.rotate_left(len + 1);
    path.truncate(rest);
    path.extend_from_slice(name)?;
    path.push(b'/')?;
    path.rotate_left(rest);
    Ok(path)
}

fn path_of(bytes: Vec<u8>) -> Result<CachePath, TargetFault>
    ensures { GivesPath bytes.items result }
{
    match CachePath::of(bytes) {
        Ok(path) => Ok(path),
        Err(fault) => Err(TargetFault::BadPath(fault)),
    }
}

// What stands in the path behind the name and a slash.
fn behind<'p>(path: &'p [u8], name: &[u8]) -> &'p [u8]
    requires { length name.now < length path.now }
    ensures { result.now ≡ drop (length name.now + 1) path.now }
{
    &path[name.len() + 1..]
}

fn asked_all(alloc: Global, targets: &Texts, rest: &[u8]) -> Result<Texts, NoMemory>
    ensures { IfOk result (λ origins. origins ≡ map (asked rest.now) targets.now) }
{
    let mut origins = Texts::new(alloc);
    for i in 0..targets.len() {
        origins.push_text(asked(alloc, targets.get(i), rest)?)?;
    }
    Ok(origins)
}

// A target of a group, a slash and the rest. The room is enough where no byte is escaped.
fn asked(alloc: Global, target: &[u8], rest: &[u8]) -> Result<Text, NoMemory>
    ensures { IfOk result (λ text. text ≡ asked rest.now target.now) }
{
    let room = target.len().saturating_add(rest.len()).saturating_add(1);
    let mut bytes = Vec::with_capacity(alloc, room)?;
    bytes.extend_from_slice(target)?;
    bytes.push(b'/')?;
    push_escaped(&mut bytes, rest)?;
    Ok(Text::of(bytes))
}

// The URL of a place, and no other.
fn own_origin(alloc: Global, place: &[u8]) -> Result<Texts, NoMemory>
    ensures { IfOk result (λ origins. origins ≡ url_of place.now ∷ []) }
{
    let mut bytes = Vec::with_capacity(alloc, place.len().saturating_add(7))?;
    bytes.extend_from_slice(b"http://")?;
    push_escaped(&mut bytes, place)?;
    let mut origins = Texts::new(alloc);
    origins.push_text(Text::of(bytes))?;
    Ok(origins)
}
