//! The command `gen`: a repository from a number, held by a cache of its own, and two runs of expiration over that.
//!
//! The cache is in memory, and so is the mirror that it asks; nothing outside is read or written. What is printed is counted
//! of this run: no number is printed that the cache or an expiration didn't give. Where a file isn't sent whole, or an
//! expiration isn't done, no line is made.
ghost use Rattle.std.specs.Prelude.{◌≡◌, ◌++◌, ◌∷◌, [], Ok, IfOk, OnOk, true, false, decimal};
ghost use Rattle.acng_site.specs.Honest.{IsHonest};
ghost use Rattle.acng_conf.specs.Settings.{rules_of};
ghost use Rattle.acng_conf.specs.Readings.{reading};
ghost use Rattle.acng_remap.specs.Origins.{ServesTargets};
ghost use Rattle.acng_keeper.specs.Kept.{nothing};
ghost use Rattle.acng_desk.specs.Keeps.{IsIdle};
ghost use Rattle.acng_desk.specs.Starts.{IsStarted, most_rows};
ghost use Rattle.acng_expire.specs.Expirations.{IsDoneBy};
ghost use Rattle.acng_cli.specs.Generated.{url_of as url_of_file, answer_of as answer_of_file, rule_of as rule_of_file, request_of as request_of_file};
ghost use Rattle.acng_cli.specs.Generated.{is_sent as is_sent_note, IsAsked, AreAsked, IsFetched, IsCounted, IsGenerated, gen_line as gen_line_of};
ghost use Rattle.acng_cli.specs.Maint.{PrintsGen};

use crate::output::{Output, print};
use crate::repository::{RepositoryFile, push, push_number, repository};
use crate::status::{DONE, NO_MEMORY};
use acng_base::{CachePath, FixedClock, MemoryLink, Moment, NoMemory, Sink, Text};
use acng_conf::{Conf, read_conf};
use acng_desk::Desk;
use acng_expire::{Expired, expire};
use acng_keeper::{CallSlip, Keeper, MemoryKeeper};
use acng_request::Request;
use acng_serve::{Note, answer_one};
use acng_site::{MemoryOrigin, NoGate, Origin, Right, Rule, Site, Untold};
use std::alloc::Global;

/// The moment of the requests and of the first expiration.
const FIRST_MOMENT: u64 = 1_000_000;

/// The first moment at which what is marked since then goes: four days and a second later.
const LAST_MOMENT: u64 = 1_345_601;

/// The most paths of the cache.
const MOST_ROWS: u32 = 1_048_576;

/// The most bytes of a read or a write.
const PIECE: usize = 65_536;

/// Room for a reply's head.
const HEAD_ROOM: usize = 1_024;

/// The cache.
type Cache = Desk<Untold, MemoryKeeper, ()>;

/// What is counted in a run.
#[derive(Clone, Copy, Debug, PartialEq, Eq)]
pub struct Counts {
    /// The files before.
    pub rows: u32,
    /// Those with a mark after the first expiration.
    pub marked: u64,
    /// Those that the second one removed.
    pub removed: u64,
    /// The files after.
    pub left: u32,
}

/// Prints the line of a run for the number, and gives the program's status.
///
/// Status 4: the output failed. 6: memory was refused, and nothing is printed.
pub(crate) fn print_gen<W: Sink>(alloc: Global, number: u32, out: &mut W) -> u8
    ensures { PrintsGen ⟦<Untold as Site>⟧ W.Sink number result out.old out.new }
{
    match generate(alloc, number) {
        Ok(text) => print(Output { status: DONE, text }, out),
        Err(NoMemory) => NO_MEMORY,
    }
}

// The line of a run for the number.
fn generate(alloc: Global, number: u32) -> Result<Text, NoMemory>
    ensures { IfOk result (λ text. IsGenerated ⟦<Untold as Site>⟧ number text) }
{
    let conf = plain_conf(alloc)?;
    let files = repository(alloc, number)?;
    let cache = fetched(alloc, &conf, files.as_slice())?;
    let counts = counted(alloc, cache)?;
    let text = gen_line(alloc, number, counts)?;
    Ok(text)
}

// What an empty configuration says.
fn plain_conf(alloc: Global) -> Result<Conf, NoMemory>
    ensures { IfOk result (λ conf. reading [] [] ≡ Ok conf) }
{
    match read_conf(alloc, b"", &[]) {
        Ok(conf) => Ok(conf),
        Err(_) => Err(NoMemory),
    }
}

// ---- the mirror

// The place of a file, and the target that asks for it.
fn url_of(alloc: Global, file: &RepositoryFile) -> Result<Text, NoMemory>
    ensures { IfOk result (λ url. url ≡ url_of_file file.now) }
{
    let mut url = Vec::new(alloc);
    push(&mut url, b"http://gen.example/")?;
    push(&mut url, file.path.as_bytes())?;
    Ok(Text::of(url))
}

fn answer_of(alloc: Global, file: &RepositoryFile) -> Result<Text, NoMemory>
    ensures { IfOk result (λ answer. answer ≡ answer_of_file file.now) }
{
    let bytes = file.bytes.as_bytes();
    let mut answer = Vec::new(alloc);
    push(&mut answer, b"HTTP/1.1 200 OK\r\nContent-Length: ")?;
    push_number(&mut answer, bytes.len() as u64)?;
    push(&mut answer, b"\r\n\r\n")?;
    push(&mut answer, bytes)?;
    Ok(Text::of(answer))
}

// The file is told at each attempt.
fn rule_of(alloc: Global, file: &RepositoryFile) -> Result<Rule, NoMemory>
    ensures { IfOk result (λ rule. rule ≡ rule_of_file file.now) }
{
    Ok(Rule {
        url: url_of(alloc, file)?,
        from: 0,
        first: 0,
        last: u64::MAX,
        bytes: answer_of(alloc, file)?,
        fault: false,
    })
}

// A mirror of one file: a mirror of all would be walked from its first file on at each request.
fn mirror<S: Site>(
    alloc: Global,
    file: &RepositoryFile,
) -> Result<MemoryOrigin<S, NoGate>, NoMemory>
    requires untold { S.tells ≡ false }
    ensures { IfOk result (λ mirror. mirror ≡ record { rules = rule_of_file file.now ∷ []; cut = 65536 }) }
{
    let rules = [rule_of(alloc, file)?];
    let (mirror, _) = MemoryOrigin::start(alloc, &rules, PIECE, NoGate)?;
    Ok(mirror)
}

// ---- the requests

fn request_of(alloc: Global, file: &RepositoryFile) -> Result<Request, NoMemory>
    ensures { IfOk result (λ request. request ≡ request_of_file file.now) }
{
    Ok(Request {
        method: Text::copy(alloc, b"GET")?,
        target: url_of(alloc, file)?,
        part: None,
        if_range: None,
        since: None,
        close: false,
        minor: 1,
    })
}

// Asks for a file, which has to be sent whole.
fn ask<S: Site, O: Origin<S>>(
    alloc: Global,
    conf: &Conf,
    origin: &O,
    cache: &mut Desk<S, MemoryKeeper, ()>,
    file: &RepositoryFile,
) -> Result<(), NoMemory>
    requires idle { IsIdle cache.old.plain }
    requires rules { cache.old.plain.rules ≡ rules_of conf.now }
    requires serves { S.tells ≡ true → ServesTargets conf.now S.serves }
    requires honest { S.tells ≡ true → IsHonest S.Site }
    ensures asked { OnOk result (IsAsked S.Site conf.now file.now cache.old cache.new) }
    ensures idle { IsIdle cache.new.plain }
    ensures rules { cache.new.plain.rules ≡ cache.old.plain.rules }
{
    let request = request_of(alloc, file)?;
    let mut clock = FixedClock::new(alloc, &[FIRST_MOMENT])?;
    let room = file.bytes.as_bytes().len().saturating_add(HEAD_ROOM);
    let mut client = MemoryLink::new(alloc, b"", room, PIECE, &[])?;
    let note = answer_one(
        alloc,
        cache,
        conf,
        origin,
        &mut clock,
        &request,
        &mut client,
    );
    if is_sent(&note) {
        Ok(())
    } else {
        Err(NoMemory)
    }
}

fn is_sent(note: &Note<CallSlip>) -> bool
    ensures { result ≡ is_sent_note note.now }
{
    note.status == 200 && note.whole
}

// Asks for one file after another, each at a mirror of it.
fn ask_all<S: Site>(
    alloc: Global,
    conf: &Conf,
    cache: &mut Desk<S, MemoryKeeper, ()>,
    files: &[RepositoryFile],
) -> Result<(), NoMemory>
    requires idle { IsIdle cache.old.plain }
    requires rules { cache.old.plain.rules ≡ rules_of conf.now }
    requires untold { S.tells ≡ false }
    ensures { OnOk result (AreAsked S.Site conf.now files.now cache.old cache.new) }
{
    for i in 0..files.len() {
        let file = &files[i];
        let mirror = mirror::<S>(alloc, file)?;
        ask(alloc, conf, &mirror, cache, file)?;
    }
    Ok(())
}

// A cache that was empty, once each file was asked for.
fn fetched(alloc: Global, conf: &Conf, files: &[RepositoryFile]) -> Result<Cache, NoMemory>
    ensures { IfOk result (λ cache. IsFetched ⟦<Untold as Site>⟧ conf.now files.now cache) }
{
    let right = first_right(alloc)?;
    let mut cache = started(alloc, conf, right)?;
    ask_all(alloc, conf, &mut cache, files)?;
    Ok(cache)
}

// The right to attempts on a site that tells nothing.
fn first_right(alloc: Global) -> Result<Right<Untold>, NoMemory>
    ensures { IfOk result (λ right. right.next ≡ 0) }
{
    let (_, right) = MemoryOrigin::<Untold, NoGate>::start(alloc, &[], PIECE, NoGate)?;
    Ok(right)
}

// An empty cache.
#[tactic(auto, using(crate::proofs::Nothing::nothing_faithful))]
fn started(alloc: Global, conf: &Conf, right: Right<Untold>) -> Result<Cache, NoMemory>
    ensures { IfOk result (λ cache. IsStarted true nothing 0 right.next most_rows (rules_of conf.now) cache) }
{
    let keeper = MemoryKeeper::new(alloc, &[])?;
    match Desk::start(alloc, keeper, right, conf, MOST_ROWS) {
        Ok(cache) => Ok(cache),
        Err(_) => Err(NoMemory),
    }
}

// ---- the expirations

// What an expiration at the moment gives: so many were removed, and so many have a mark.
fn expired(alloc: Global, cache: &mut Cache, moment: u64) -> Result<(u64, u64), NoMemory>
    ensures { IfOk result (λ r. IsDoneBy true [] moment cache.old cache.new r.0 r.1) }
{
    let failed: [CachePath; 0] = [];
    match expire(alloc, cache, &failed, Moment(moment)) {
        Expired::Done { removed, marked } => Ok((removed, marked)),
        _ => Err(NoMemory),
    }
}

fn counted(alloc: Global, cache: Cache) -> Result<Counts, NoMemory>
    ensures { IfOk result (λ counts. IsCounted cache counts) }
{
    let mut cache = cache;
    let rows = cache.count();
    let (_, marked) = expired(alloc, &mut cache, FIRST_MOMENT)?;
    let (removed, _) = expired(alloc, &mut cache, LAST_MOMENT)?;
    Ok(Counts {
        rows,
        marked,
        removed,
        left: cache.count(),
    })
}

// ---- the line

// `gen N: rows R, marked M, removed D, left L`
fn gen_line(alloc: Global, number: u32, counts: Counts) -> Result<Text, NoMemory>
    ensures { IfOk result (λ text. text ≡ gen_line_of number counts) }
{
    let mut line = Vec::new(alloc);
    push_word(&mut line, b"gen ", u64::from(number))?;
    push_word(&mut line, b": rows ", u64::from(counts.rows))?;
    push_word(&mut line, b", marked ", counts.marked)?;
    push_word(&mut line, b", removed ", counts.removed)?;
    push_word(&mut line, b", left ", u64::from(counts.left))?;
    line.push(b'\n')?;
    Ok(Text::of(line))
}

// A word and a number behind it.
fn push_word(out: &mut Vec<u8>, word: &[u8], n: u64) -> Result<(), NoMemory>
    ensures { OnOk result (out.new.items ≡ out.old.items ++ (word.now ++ decimal n)) }
{
    push(out, word)?;
    push_number(out, n)
}
