//! What a command does with a desk: its table is printed, or a run of expiration or an import is made.
//!
//! A desk is opened first, over the keeper and by a configuration. What is wrong with one is printed, and then the keeper isn't
//! used, no moment is taken, and no found file is read.
ghost use Rattle.std.specs.Prelude.{◌≡◌, true};
ghost use Rattle.acng_grow.specs.Faithful.{IsFaithful};
ghost use Rattle.acng_desk.specs.Keeps.{IsIdle};
ghost use Rattle.acng_cli.specs.Maint.{ReadsFew};
ghost use Rattle.acng_cli.specs.Tasks.{RanTask, OpensSaying, WorksOn};

use crate::expire::expire_desk;
use crate::imports::import_desk;
use crate::opening::{Maint, Opened, ended, start_desk};
use crate::output::print_refusal;
use crate::report::report_desk;
use crate::source::read_settings;
use crate::status::{FAILED, NO_MEMORY};
use crate::words::Words;
use acng_base::{Clock, FileFault, Sink, Source};
use acng_conf::ListFile;
use acng_desk::Desk;
use acng_import::Finder;
use acng_keeper::{Keeper, SlipOf};
use acng_site::{Right, Site};
use std::alloc::Global;

/// What is done with a desk.
#[derive(Clone, Copy, Debug)]
pub enum Task {
    Report,
    Expire,
    Import,
}

/// Opens a desk by words that were read, and does the task.
pub(crate) fn run_task<S: Site, K: Keeper, F: Finder, C: Clock, I: Source, W: Sink>(
    alloc: Global,
    task: Task,
    words: Words,
    keeper: K,
    right: Right<S>,
    conf: &mut I,
    lists: &[ListFile],
    finder: &mut F,
    clock: &mut C,
    out: &mut W,
) -> Maint<K, SlipOf<K>>
    requires faithful { K.tells ≡ true → IsFaithful S.Site (K.kept keeper) }
    requires told { S.tells ≡ true → K.tells ≡ true }
    ensures ran { RanTask S.Site K.tells W.Sink F.Finder (λ k. record { kept = K.kept k; next_id = K.next k; faults = K.faults k })
        (record {
          text = I.left conf.old;
          lists = lists.now;
          store = record { kept = K.kept keeper; next_id = K.next keeper; faults = K.faults keeper };
          next_try = right.next;
        })
        (I.faults conf.old) (I.faults conf.new) keeper task words
        (record { out = out.old; coming = C.coming clock.old; found = finder.old })
        (record { out = out.new; coming = C.coming clock.new; found = finder.new }) result }
    ensures still { K.tells ≡ true → IsFaithful S.Site (K.kept result.keeper) }
    ensures reads { ReadsFew (I.left conf.old) (I.left conf.new) }
{
    match open_saying(alloc, words, keeper, right, conf, lists, out) {
        Opened::Ready {
            words: _,
            conf: _,
            desk,
        } => work_on(alloc, task, desk, finder, clock, out),
        Opened::Ended(ended) => ended,
    }
}

// Opens a desk, and prints what is wrong with a configuration.
fn open_saying<S: Site, K: Keeper, I: Source, W: Sink>(
    alloc: Global,
    words: Words,
    keeper: K,
    right: Right<S>,
    conf: &mut I,
    lists: &[ListFile],
    out: &mut W,
) -> Opened<S, K, ()>
    requires faithful { K.tells ≡ true → IsFaithful S.Site (K.kept keeper) }
    requires told { S.tells ≡ true → K.tells ≡ true }
    ensures opened { OpensSaying S.Site K.tells W.Sink (λ k. record { kept = K.kept k; next_id = K.next k; faults = K.faults k })
        (record {
          text = I.left conf.old;
          lists = lists.now;
          store = record { kept = K.kept keeper; next_id = K.next keeper; faults = K.faults keeper };
          next_try = right.next;
        })
        (I.faults conf.old) (I.faults conf.new) keeper words out.old out.new result }
    ensures reads { ReadsFew (I.left conf.old) (I.left conf.new) }
{
    match read_settings(alloc, conf, lists) {
        Ok(Ok(conf)) => start_desk(alloc, words, conf, keeper, right),
        Ok(Err(fault)) => Opened::Ended(ended(print_refusal(alloc, fault, out), keeper, None)),
        Err(FileFault::Failed) => Opened::Ended(ended(FAILED, keeper, None)),
        Err(FileFault::NoMemory) => Opened::Ended(ended(NO_MEMORY, keeper, None)),
    }
}

// The task over a desk of which no ticket is out.
fn work_on<S: Site, K: Keeper, F: Finder, C: Clock, W: Sink>(
    alloc: Global,
    task: Task,
    desk: Desk<S, K, ()>,
    finder: &mut F,
    clock: &mut C,
    out: &mut W,
) -> Maint<K, SlipOf<K>>
    requires idle { IsIdle desk.plain }
    ensures works { WorksOn S.Site K.tells W.Sink F.Finder (λ k. record { kept = K.kept k; next_id = K.next k; faults = K.faults k })
        task desk (record { out = out.old; coming = C.coming clock.old; found = finder.old })
        (record { out = out.new; coming = C.coming clock.new; found = finder.new }) result }
    ensures still { K.tells ≡ true → IsFaithful S.Site (K.kept result.keeper) }
{
    match task {
        Task::Report => report_desk(alloc, desk, out),
        Task::Expire => expire_desk(alloc, desk, clock, out),
        Task::Import => import_desk(alloc, desk, finder, clock, out),
    }
}
