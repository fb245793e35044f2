//! What a command of maintenance prints, and the status that goes with it.
//!
//! Nothing is printed before the whole text is there.
ghost use Rattle.std.specs.Prelude.{◌≡◌, Ok, Err, IfOk};
ghost use Rattle.acng_cli.specs.Maint.{broken_status as broken_status_of, fault_name as name_of, words_output, of_conf, Prints, PrintsUnless};

use crate::status::{CONFIGURATION, DONE, FAILED, NO_MEMORY, WORDS};
use crate::words::WordsFault;
use acng_base::{Failed, NoMemory, Sink, Text, write_all};
use acng_conf::{Conf, ConfFault, print_conf, print_fault};
use std::alloc::Global;

/// Where a found file was left out of an import, or no id was left for its body.
pub const LEFT_OUT: u8 = 7;

/// The text, and the status.
#[derive(Debug, Drop)]
pub struct Output {
    pub status: u8,
    pub text: Text,
}

/// Prints it. The status is its own; a failed output has a status of its own where all was done, or a found file was left out.
pub(crate) fn print<W: Sink>(output: Output, out: &mut W) -> u8
    ensures { Prints W.Sink output result out.old out.new }
{
    match write_all(out, output.text.as_bytes()) {
        Ok(()) => output.status,
        Err(Failed) => broken_status(output.status),
    }
}

fn broken_status(status: u8) -> u8
    ensures { result ≡ broken_status_of status }
{
    if status == DONE || status == LEFT_OUT {
        FAILED
    } else {
        status
    }
}

// ---- words

/// Prints what is wrong with the words, and gives the status.
pub(crate) fn print_words<W: Sink>(alloc: Global, name: &[u8], out: &mut W) -> u8
    ensures { PrintsUnless W.Sink (words_output name.now) result out.old out.new }
{
    match words_output(alloc, name) {
        Ok(output) => print(output, out),
        Err(NoMemory) => NO_MEMORY,
    }
}

// The line of words that are refused.
fn words_output(alloc: Global, name: &[u8]) -> Result<Output, NoMemory>
    ensures { IfOk result (λ output. output ≡ words_output name.now) }
{
    let mut line = Vec::new(alloc);
    line.extend_from_slice(b"words: ")?;
    line.extend_from_slice(name)?;
    line.push(b'\n')?;
    Ok(Output {
        status: WORDS,
        text: Text::of(line),
    })
}

/// Why words aren't read, by its printed name.
pub(crate) fn fault_name(fault: WordsFault) -> &'static [u8]
    ensures { result.now ≡ name_of fault }
{
    match fault {
        WordsFault::NoMemory => b"NoMemory",
        WordsFault::NotRead => b"NotRead",
        WordsFault::NoCommand => b"NoCommand",
        WordsFault::NoNumber => b"NoNumber",
        WordsFault::StrayNumber => b"StrayNumber",
    }
}

// ---- a configuration

/// Prints what a configuration says, and gives the status.
pub(crate) fn print_accepted<W: Sink>(alloc: Global, conf: &Conf, out: &mut W) -> u8
    ensures { PrintsUnless W.Sink (of_conf (Ok conf.now)) result out.old out.new }
{
    match accepted(alloc, conf) {
        Ok(output) => print(output, out),
        Err(NoMemory) => NO_MEMORY,
    }
}

fn accepted(alloc: Global, conf: &Conf) -> Result<Output, NoMemory>
    ensures { IfOk result (λ output. output ≡ of_conf (Ok conf.now)) }
{
    let text = print_conf(alloc, conf)?;
    Ok(Output { status: DONE, text })
}

/// Prints what is wrong with a configuration, and gives the status.
pub(crate) fn print_refusal<W: Sink>(alloc: Global, fault: ConfFault, out: &mut W) -> u8
    ensures { PrintsUnless W.Sink (of_conf (Err fault)) result out.old out.new }
{
    match refused(alloc, fault) {
        Ok(output) => print(output, out),
        Err(NoMemory) => NO_MEMORY,
    }
}

fn refused(alloc: Global, fault: ConfFault) -> Result<Output, NoMemory>
    ensures { IfOk result (λ output. output ≡ of_conf (Err fault)) }
{
    let text = print_fault(alloc, fault)?;
    Ok(Output {
        status: CONFIGURATION,
        text,
    })
}
