//! Opening a desk: the words are read, then the configuration to its end, and the desk is started over the keeper.
ghost use Rattle.std.specs.Prelude.{◌≡◌, ℕ, true, false, is_ok};
ghost use Rattle.acng_grow.specs.Faithful.{IsFaithful};
ghost use Rattle.acng_cli.specs.Words.{words_of};
ghost use Rattle.acng_cli.specs.Maint.{ReadsFew};
ghost use Rattle.acng_cli.specs.Opens.{Given, MaySay, OpensAs, OpensBy, stopped as stopped_of};

use crate::source::read_settings;
use crate::status::{CONFIGURATION, FAILED, KEEPER, NO_MEMORY, WORDS};
use crate::words::{Words, WordsFault, read_words};
use acng_base::{FileFault, Source, Text};
use acng_conf::{Conf, ListFile};
use acng_desk::{Desk, Joint, StartCause, StartFault};
use acng_keeper::{Keeper, SlipOf};
use acng_site::{Right, Site};
use std::alloc::Global;

/// The most paths of a cache.
const MOST_ROWS: u32 = 1_048_576;

/// What a run gives back: the program's status, the keeper, and the slip of a call of the keeper that failed.
#[derive(Drop)]
pub struct Maint<K: Drop, Q> {
    pub status: u8,
    pub keeper: K,
    pub slip: Option<Q>,
}

/// What an opening gives.
pub enum Opened<S: Site, K: Keeper, T: Joint> {
    Ready {
        words: Words,
        conf: Conf,
        desk: Desk<S, K, T>,
    },
    /// No desk was started, and why, by the status.
    Ended(Maint<K, SlipOf<K>>),
}

/// Reads the words and the configuration, and starts a desk of at most 1,048,576 paths over the keeper.
///
/// Status 2: the words aren't read; then the configuration isn't. 4: the configuration couldn't be read. 3: it is refused,
/// or the keeper holds too many paths. 5: a call of the keeper failed, and its slip is handed back. 6: memory was refused.
pub fn open_desk<S: Site, K: Keeper, T: Joint, I: Source>(
    alloc: Global,
    words: &[Text],
    keeper: K,
    right: Right<S>,
    conf: &mut I,
    lists: &[ListFile],
) -> Opened<S, K, T>
    requires faithful { K.tells ≡ true → IsFaithful S.Site (K.kept keeper) }
    requires told { S.tells ≡ true → K.tells ≡ true }
    ensures opened { OpensAs S.Site K.tells (λ k. record { kept = K.kept k; next_id = K.next k; faults = K.faults k })
        (record {
          text = I.left conf.old;
          lists = lists.now;
          store = record { kept = K.kept keeper; next_id = K.next keeper; faults = K.faults keeper };
          next_try = right.next;
        })
        (I.faults conf.old) (I.faults conf.new) keeper (words_of words.now) result }
    ensures unread { is_ok (words_of words.now) ≡ false → conf.new ≡ conf.old }
    ensures reads { ReadsFew (I.left conf.old) (I.left conf.new) }
{
    match read_words(alloc, words) {
        Ok(words) => open_by(alloc, words, keeper, right, conf, lists),
        Err(WordsFault::NoMemory) => Opened::Ended(ended(NO_MEMORY, keeper, None)),
        Err(_) => Opened::Ended(ended(WORDS, keeper, None)),
    }
}

/// The same by words that were read.
pub(crate) fn open_by<S: Site, K: Keeper, T: Joint, I: Source>(
    alloc: Global,
    words: Words,
    keeper: K,
    right: Right<S>,
    conf: &mut I,
    lists: &[ListFile],
) -> Opened<S, K, T>
    requires faithful { K.tells ≡ true → IsFaithful S.Site (K.kept keeper) }
    requires told { S.tells ≡ true → K.tells ≡ true }
    ensures opened { OpensBy S.Site K.tells (λ k. record { kept = K.kept k; next_id = K.next k; faults = K.faults k })
        (record {
          text = I.left conf.old;
          lists = lists.now;
          store = record { kept = K.kept keeper; next_id = K.next keeper; faults = K.faults keeper };
          next_try = right.next;
        })
        (I.faults conf.old) (I.faults conf.new) words result }
    ensures reads { ReadsFew (I.left conf.old) (I.left conf.new) }
{
    match read_settings(alloc, conf, lists) {
        Ok(Ok(conf)) => start_desk(alloc, words, conf, keeper, right),
        Ok(Err(_)) => Opened::Ended(ended(CONFIGURATION, keeper, None)),
        Err(FileFault::Failed) => Opened::Ended(ended(FAILED, keeper, None)),
        Err(FileFault::NoMemory) => Opened::Ended(ended(NO_MEMORY, keeper, None)),
    }
}

// Starts the desk over the keeper.
pub(crate) fn start_desk<S: Site, K: Keeper, T: Joint>(
    alloc: Global,
    words: Words,
    conf: Conf,
    keeper: K,
    right: Right<S>,
) -> Opened<S, K, T>
    requires faithful { K.tells ≡ true → IsFaithful S.Site (K.kept keeper) }
    requires told { S.tells ≡ true → K.tells ≡ true }
    ensures opened { (g : Given) (before after : ℕ)
        → g.store ≡ record { kept = K.kept keeper; next_id = K.next keeper; faults = K.faults keeper }
        → g.next_try ≡ right.next → MaySay g.text g.lists conf
        → OpensBy S.Site K.tells (λ k. record { kept = K.kept k; next_id = K.next k; faults = K.faults k }) g before after words result }
{
    match Desk::start(alloc, keeper, right, &conf, MOST_ROWS) {
        Ok(desk) => Opened::Ready { words, conf, desk },
        Err(fault) => Opened::Ended(stopped(fault)),
    }
}

// Why a desk wasn't started.
fn stopped<K: Drop, P: Drop>(fault: StartFault<K, P>) -> Maint<K, P>
    ensures { result ≡ stopped_of fault }
{
    let StartFault { keeper, cause } = fault;
    match cause {
        StartCause::KeeperFault(slip) => ended(KEEPER, keeper, Some(slip)),
        StartCause::TooMany { .. } => ended(CONFIGURATION, keeper, None),
        StartCause::NoMemory => ended(NO_MEMORY, keeper, None),
    }
}

pub(crate) fn ended<K: Drop, P: Drop>(status: u8, keeper: K, slip: Option<P>) -> Maint<K, P>
    ensures { result ≡ record { status = status; keeper = keeper; slip = slip } }
{
    Maint {
        status,
        keeper,
        slip,
    }
}
