//! The command `once`: one request of a link, and the status that the program ends with.
ghost use Rattle.std.specs.Prelude.{◌≡◌, ◌⊎◌, true, Some, None, IfOk, IfErr};
ghost use Rattle.acng_site.specs.Honest.{IsHonest};
ghost use Rattle.acng_conf.specs.Settings.{Settings, rules_of};
ghost use Rattle.acng_remap.specs.Origins.{ServesTargets};
ghost use Rattle.acng_grow.specs.Faithful.{IsFaithful};
ghost use Rattle.acng_desk.specs.Keeps.{IsIdle};
ghost use Rattle.acng_cli.specs.Words.{words_of};
ghost use Rattle.acng_cli.specs.Maint.{ReadsFew};
ghost use Rattle.acng_cli.specs.Opens.{MaySay};
ghost use Rattle.acng_cli.specs.Single.{RanSingle, RunsOver, once_in, is_once as is_once_of, once_status, cause_status as cause_status_of};
ghost use Rattle.acng_cli.specs.Single.{sent_status as sent_status_of, shown_status as shown_status_of, stop_status as stop_status_of};

use crate::once::{Once, OnceStop, run_once};
use crate::opening::{Maint, Opened, open_by};
use crate::status::{CLIENT_ENDED, DONE, FAILED, KEEPER, NO_MEMORY, REFUSED, WORDS};
use crate::words::{Command, Words, WordsFault, read_words};
use acng_base::{Clock, Link, Source, Text};
use acng_conf::{Conf, ListFile};
use acng_desk::Desk;
use acng_grow::Shown;
use acng_keeper::{Keeper, SlipOf};
use acng_serve::Cause;
use acng_site::{Origin, Right, Site};
use std::alloc::Global;

/// What a run of `once` gives back: the program's status, the keeper, the slip of a start that failed, and what is told of
/// the request, where one was waited for.
#[derive(Drop)]
pub struct Single<K: Drop, Q> {
    pub status: u8,
    pub keeper: K,
    pub slip: Option<Q>,
    pub once: Option<Once<Q>>,
}

/// Runs the command that the words name, the program's name left out: `once`.
///
/// Words that aren't read, or that name another command, give status 2, and nothing is done. Else a desk is opened over the
/// keeper, one request of the client answered, and the keeper given back. The status is 0 where the reply went out whole
/// and sent the file or the report page, or said that there is nothing to send of a file; 7 where the client ended before its
/// request was whole; 4 where the client's link failed; 5 where a call of the keeper failed; 6 where memory was refused; and 1
/// for every other reply. A desk that isn't opened has the statuses of `open_desk`.
pub fn run_single<S: Site, K: Keeper, O: Origin<S>, C: Clock, I: Source, L: Link>(
    alloc: Global,
    words: &[Text],
    keeper: K,
    right: Right<S>,
    conf: &mut I,
    lists: &[ListFile],
    origin: &O,
    clock: &mut C,
    client: &mut L,
) -> Single<K, SlipOf<K>>
    requires faithful { K.tells ≡ true → IsFaithful S.Site (K.kept keeper) }
    requires told { S.tells ≡ true → K.tells ≡ true }
    requires serves { S.tells ≡ true → (settings : Settings) → MaySay (I.left conf.old) lists.now settings
        → ServesTargets settings S.serves }
    requires honest { S.tells ≡ true → IsHonest S.Site }
    ensures ran { RanSingle S.Site K.tells L.Link (λ k. record { kept = K.kept k; next_id = K.next k; faults = K.faults k })
        (record {
          text = I.left conf.old;
          lists = lists.now;
          store = record { kept = K.kept keeper; next_id = K.next keeper; faults = K.faults keeper };
          next_try = right.next;
        })
        (I.faults conf.old) (I.faults conf.new) keeper
        (record { client = client.old; coming = C.coming clock.old }) (record { client = client.new; coming = C.coming clock.new })
        (once_in (words_of words.now)) result }
    ensures still { K.tells ≡ true → IsFaithful S.Site (K.kept result.keeper) }
    ensures unread { once_in (words_of words.now) ≡ None → conf.new ≡ conf.old }
    ensures reads { ReadsFew (I.left conf.old) (I.left conf.new) }
{
    let words = match once_words(alloc, words) {
        Ok(words) => words,
        Err(status) => return never_ran(Maint {
            status,
            keeper,
            slip: None,
        }),
    };
    match open_by::<S, K, (), I>(alloc, words, keeper, right, conf, lists) {
        Opened::Ready {
            words: _,
            conf,
            desk,
        } => run_over(alloc, desk, &conf, origin, clock, client),
        Opened::Ended(ended) => never_ran(ended),
    }
}

// The words that name `once`; else the status.
fn once_words(alloc: Global, words: &[Text]) -> Result<Words, u8>
    ensures words { IfOk result (λ read. once_in (words_of words.now) ≡ Some read) }
    ensures refused { IfErr result (λ status. (status ≡ 6) ⊎ ((status ≡ 2) × (once_in (words_of words.now) ≡ None))) }
{
    match read_words(alloc, words) {
        Ok(words) if is_once(words.command) => Ok(words),
        Ok(_) => Err(WORDS),
        Err(WordsFault::NoMemory) => Err(NO_MEMORY),
        Err(_) => Err(WORDS),
    }
}

fn is_once(command: Command) -> bool
    ensures { result ≡ is_once_of command }
{
    matches!(command, Command::Once)
}

// One request over a desk of which no ticket is out.
fn run_over<S: Site, K: Keeper, O: Origin<S>, C: Clock, L: Link>(
    alloc: Global,
    desk: Desk<S, K, ()>,
    conf: &Conf,
    origin: &O,
    clock: &mut C,
    client: &mut L,
) -> Single<K, SlipOf<K>>
    requires idle { IsIdle desk.plain }
    requires rules { desk.plain.rules ≡ rules_of conf.now }
    requires serves { S.tells ≡ true → ServesTargets conf.now S.serves }
    requires honest { S.tells ≡ true → IsHonest S.Site }
    ensures ran { RunsOver S.Site K.tells L.Link (λ k. record { kept = K.kept k; next_id = K.next k; faults = K.faults k }) conf.now desk
        (record { client = client.old; coming = C.coming clock.old }) (record { client = client.new; coming = C.coming clock.new }) result }
{
    let mut desk = desk;
    let once = run_once(alloc, &mut desk, conf, origin, clock, client);
    desk.keeps();
    Single {
        status: status_of(&once),
        keeper: desk.into_keeper(),
        slip: None,
        once: Some(once),
    }
}

// What is told where no request was waited for.
fn never_ran<K: Drop, P: Drop>(ended: Maint<K, P>) -> Single<K, P>
    ensures { result ≡ record { status = ended.status; keeper = ended.keeper; slip = ended.slip; once = None } }
{
    let Maint {
        status,
        keeper,
        slip,
    } = ended;
    Single {
        status,
        keeper,
        slip,
        once: None,
    }
}

// ---- the status

fn status_of<Q>(once: &Once<Q>) -> u8
    ensures { result ≡ once_status once.now }
{
    match &once.note {
        Some(note) => cause_status(&note.cause, note.whole),
        None => stop_status(once.stop),
    }
}

fn cause_status<Q>(cause: &Cause<Q>, whole: bool) -> u8
    ensures { result ≡ cause_status_of cause.now whole }
{
    match cause {
        Cause::Served | Cause::Page { .. } | Cause::NotModified | Cause::NoPart { .. } => {
            sent_status(whole)
        }
        Cause::Load(shown) => shown_status(shown),
        Cause::KeeperSlip(_) => KEEPER,
        Cause::ClientFault => FAILED,
        Cause::NoMemory => NO_MEMORY,
        _ => REFUSED,
    }
}

fn sent_status(whole: bool) -> u8
    ensures { result ≡ sent_status_of whole }
{
    if whole { DONE } else { REFUSED }
}

// The status of a body that broke off.
fn shown_status(shown: &Shown) -> u8
    ensures { result ≡ shown_status_of shown.now }
{
    match shown {
        Shown::Keeper(_) => KEEPER,
        Shown::NoMemory => NO_MEMORY,
        _ => REFUSED,
    }
}

fn stop_status(stop: OnceStop) -> u8
    ensures { result ≡ stop_status_of stop }
{
    match stop {
        OnceStop::Replied => REFUSED,
        OnceStop::ClientEnded => CLIENT_ENDED,
        OnceStop::ClientFault => FAILED,
    }
}
