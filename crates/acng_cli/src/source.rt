//! The configuration's bytes, read to their end, and what they say; past the limit of a configuration nothing more is read.
ghost use Rattle.std.specs.Prelude.{◌≡◌, ◌≤◌, List, ℕ, length, Err, IfOk, IfSome};
ghost use Rattle.std.specs.Io.KnownBytes.{Consumes};
ghost use Rattle.acng_base.specs.Causes.{Rose};
ghost use Rattle.acng_conf.specs.Readings.{reading};
ghost use Rattle.acng_cli.specs.Maint.{IsEnough, ReadsFew};

use acng_base::{FileFault, NoMemory, Source};
use acng_conf::{Conf, ConfCause, ConfFault, ListFile, read_conf};
use std::alloc::Global;

/// The most bytes of a configuration.
const MOST: usize = 4_194_304;

/// What the source's bytes say as a configuration, or their first refusal.
pub(crate) fn read_settings<I: Source>(
    alloc: Global,
    source: &mut I,
    lists: &[ListFile],
) -> Result<Result<Conf, ConfFault>, FileFault>
    ensures read { IfOk result (λ read. IfSome (I.left source.old) (λ text. read ≡ reading text lists.now)) }
    ensures failed { result ≡ Err FileFault.Failed → Rose (I.faults source.old) (I.faults source.new) }
    ensures later { I.faults source.old ≤ I.faults source.new }
    ensures reads { ReadsFew (I.left source.old) (I.left source.new) }
{
    let text = read_all(alloc, source)?;
    match settings_of(alloc, text.as_slice(), lists) {
        Ok(read) => Ok(read),
        Err(NoMemory) => Err(FileFault::NoMemory),
    }
}

// Want of memory is no refusal of the text.
fn settings_of(
    alloc: Global,
    text: &[u8],
    lists: &[ListFile],
) -> Result<Result<Conf, ConfFault>, NoMemory>
    ensures { IfOk result (λ read. read ≡ reading text.now lists.now) }
{
    match read_conf(alloc, text, lists) {
        Ok(conf) => Ok(Ok(conf)),
        Err(fault) if fault.cause == ConfCause::NoMemory => Err(NoMemory),
        Err(fault) => Ok(Err(fault)),
    }
}

// Reads the source to its end, or until more bytes are read than a configuration may have.
fn read_all<I: Source>(alloc: Global, source: &mut I) -> Result<Vec<u8>, FileFault>
    ensures consumed { IfOk result (λ text. Consumes (I.left source.old) (I.left source.new) text.items) }
    ensures enough { IfOk result (λ text. IsEnough text.items (I.left source.new)) }
    ensures reads { ReadsFew (I.left source.old) (I.left source.new) }
    ensures failed { result ≡ Err FileFault.Failed → Rose (I.faults source.old) (I.faults source.new) }
    ensures later { I.faults source.old ≤ I.faults source.new }
{
    let mut text = Vec::new(alloc);
    let mut buf = [0u8; 32_768];
    while text.len() <= MOST {
        let Ok(count) = source.read(&mut buf) else {
            return Err(FileFault::Failed);
        };
        if count == 0 {
            return Ok(text);
        }
        let Ok(()) = text.extend_from_slice(&buf[..count]) else {
            return Err(FileFault::NoMemory);
        };
    }
    Ok(text)
}
