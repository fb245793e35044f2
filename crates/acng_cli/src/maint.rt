//! The commands of maintenance, by their words: `expire`, `import` and `report` work on a desk, `check-conf` reads a
//! configuration alone, and `gen` makes a repository of its own in memory.
//!
//! Each prints its text to the output, and the keeper is given back whatever comes.
ghost use Rattle.std.specs.Prelude.{◌≡◌, true, false};
ghost use Rattle.acng_grow.specs.Faithful.{IsFaithful};
ghost use Rattle.acng_cli.specs.Words.{words_of};
ghost use Rattle.acng_cli.specs.Maint.{ReadsFew, ChecksConf, RanPlain, asks_conf, reads_conf};
ghost use Rattle.acng_cli.specs.Tasks.{RanBy, RanMaint, task_of as task_in};

use crate::generate::print_gen;
use crate::opening::{Maint, ended};
use crate::output::{fault_name, print_accepted, print_refusal, print_words};
use crate::source::read_settings;
use crate::status::{FAILED, NO_MEMORY};
use crate::task::{Task, run_task};
use crate::words::{Command, Words, WordsFault, read_words};
use acng_base::{Clock, FileFault, Sink, Source, Text};
use acng_conf::ListFile;
use acng_import::Finder;
use acng_keeper::{Keeper, SlipOf};
use acng_site::{Right, Site, Untold};
use std::alloc::Global;

/// Runs the command that the words name, the program's name left out, and gives the program's status, the keeper, and the slip
/// of a call of it that failed.
///
/// `expire`, `import` and `report` open a desk over the keeper, as `open_desk` does. `expire` makes one run of expiration and
/// prints `done removed R marked M`, `aborted problems P` or `stopped removed R`; `import` lets the found files in and prints
/// a line for each, and then `stopped` or `worn` where it ended so; both take one moment of the clock. `report` prints a line
/// for each held path, and `rows N bytes B`. `check-conf` prints `ok groups G warnings W`, and a line for each warning. `gen`
/// prints `gen N: rows R, marked M, removed D, left L`. A configuration that is refused prints `line L: CAUSE`; words that
/// aren't read `words: NAME`, and other commands `words: Other`.
///
/// Status 0: it was done. 1: the expiration was aborted, and nothing was changed. 2: the words are refused, and nothing is
/// read. 3: the configuration is refused, or the keeper holds too many paths. 4: the configuration couldn't be read, a found
/// file couldn't be, or the output failed. 5: a call of the keeper failed, and its slip is handed back. 6: memory was refused.
/// 7: a found file was too long, or there was room for no further path, or no id was left for a body. Of several the order is
/// 2, 4 for the configuration, 3, 5, 6, 1, 4, 7.
pub fn run_maint<S: Site, K: Keeper, F: Finder, C: Clock, I: Source, W: Sink>(
    alloc: Global,
    words: &[Text],
    keeper: K,
    right: Right<S>,
    conf: &mut I,
    lists: &[ListFile],
    finder: &mut F,
    clock: &mut C,
    out: &mut W,
) -> Maint<K, SlipOf<K>>
    requires faithful { K.tells ≡ true → IsFaithful S.Site (K.kept keeper) }
    requires told { S.tells ≡ true → K.tells ≡ true }
    ensures ran { RanMaint S.Site ⟦<Untold as Site>⟧ K.tells W.Sink F.Finder
        (λ k. record { kept = K.kept k; next_id = K.next k; faults = K.faults k })
        (record {
          text = I.left conf.old;
          lists = lists.now;
          store = record { kept = K.kept keeper; next_id = K.next keeper; faults = K.faults keeper };
          next_try = right.next;
        })
        (I.faults conf.old) (I.faults conf.new) keeper (words_of words.now)
        (record { out = out.old; coming = C.coming clock.old; found = finder.old })
        (record { out = out.new; coming = C.coming clock.new; found = finder.new }) result }
    ensures still { K.tells ≡ true → IsFaithful S.Site (K.kept result.keeper) }
    ensures unread { asks_conf (words_of words.now) ≡ false → conf.new ≡ conf.old }
    ensures reads { ReadsFew (I.left conf.old) (I.left conf.new) }
{
    match read_words(alloc, words) {
        Ok(words) => run_by(alloc, words, keeper, right, conf, lists, finder, clock, out),
        Err(WordsFault::NoMemory) => ended(NO_MEMORY, keeper, None),
        Err(fault) => ended(print_words(alloc, fault_name(fault), out), keeper, None),
    }
}

// The same by words that were read.
fn run_by<S: Site, K: Keeper, F: Finder, C: Clock, I: Source, W: Sink>(
    alloc: Global,
    words: Words,
    keeper: K,
    right: Right<S>,
    conf: &mut I,
    lists: &[ListFile],
    finder: &mut F,
    clock: &mut C,
    out: &mut W,
) -> Maint<K, SlipOf<K>>
    requires faithful { K.tells ≡ true → IsFaithful S.Site (K.kept keeper) }
    requires told { S.tells ≡ true → K.tells ≡ true }
    ensures ran { RanBy S.Site ⟦<Untold as Site>⟧ K.tells W.Sink F.Finder
        (λ k. record { kept = K.kept k; next_id = K.next k; faults = K.faults k })
        (record {
          text = I.left conf.old;
          lists = lists.now;
          store = record { kept = K.kept keeper; next_id = K.next keeper; faults = K.faults keeper };
          next_try = right.next;
        })
        (I.faults conf.old) (I.faults conf.new) keeper (task_in words.command) words
        (record { out = out.old; coming = C.coming clock.old; found = finder.old })
        (record { out = out.new; coming = C.coming clock.new; found = finder.new }) result }
    ensures still { K.tells ≡ true → IsFaithful S.Site (K.kept result.keeper) }
    ensures unread { reads_conf words.command ≡ false → conf.new ≡ conf.old }
    ensures reads { ReadsFew (I.left conf.old) (I.left conf.new) }
{
    match task_of(words.command) {
        Some(task) => run_task(
            alloc, task, words, keeper, right, conf, lists, finder, clock, out,
        ),
        None => ended(
            run_plain(alloc, words.command, conf, lists, out),
            keeper,
            None,
        ),
    }
}

// What a command does with a desk, if it makes one.
fn task_of(command: Command) -> Option<Task>
    ensures { result ≡ task_in command }
{
    match command {
        Command::Expire => Some(Task::Expire),
        Command::Import => Some(Task::Import),
        Command::Report => Some(Task::Report),
        Command::Serve | Command::Once | Command::CheckConf | Command::Gen(_) => None,
    }
}

// A command that makes no desk. The status.
fn run_plain<I: Source, W: Sink>(
    alloc: Global,
    command: Command,
    conf: &mut I,
    lists: &[ListFile],
    out: &mut W,
) -> u8
    ensures ran { RanPlain ⟦<Untold as Site>⟧ W.Sink (I.left conf.old) lists.now (I.faults conf.old) (I.faults conf.new)
        command result out.old out.new }
    ensures unread { reads_conf command ≡ false → conf.new ≡ conf.old }
    ensures reads { ReadsFew (I.left conf.old) (I.left conf.new) }
{
    match command {
        Command::CheckConf => check_conf(alloc, conf, lists, out),
        Command::Gen(number) => print_gen(alloc, number, out),
        _ => print_words(alloc, b"Other", out),
    }
}

// What the configuration says, or what is wrong with it. The status.
fn check_conf<I: Source, W: Sink>(
    alloc: Global,
    conf: &mut I,
    lists: &[ListFile],
    out: &mut W,
) -> u8
    ensures ran { ChecksConf W.Sink (I.left conf.old) lists.now (I.faults conf.old) (I.faults conf.new) result out.old out.new }
    ensures reads { ReadsFew (I.left conf.old) (I.left conf.new) }
{
    match read_settings(alloc, conf, lists) {
        Ok(Ok(conf)) => print_accepted(alloc, &conf, out),
        Ok(Err(fault)) => print_refusal(alloc, fault, out),
        Err(FileFault::Failed) => FAILED,
        Err(FileFault::NoMemory) => NO_MEMORY,
    }
}
