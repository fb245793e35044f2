//! What `check-conf` prints.
ghost use Rattle.std.specs.Prelude.{◌≡◌, ◌++◌, ◌∷◌, [], List, ℕ, IfOk, OnOk, decimal, length, codes};
ghost use Rattle.acng_conf.specs.Printed.{warn_word, cause_word, warning_line, warning_lines, printed, fault_line};

use crate::conf::Conf;
use crate::fault::{ConfCause, ConfFault, WarnCause, Warning};
use acng_base::{NoMemory, Text};
use itoa::Buffer;
use std::alloc::Global;

/// `ok groups G warnings W`, and a line for each warning.
pub fn print_conf(alloc: Global, conf: &Conf) -> Result<Text, NoMemory>
    ensures { IfOk result (λ text. text ≡ printed conf.now) }
{
    let mut bytes = Vec::new(alloc);
    push(&mut bytes, b"ok groups ")?;
    push_number(&mut bytes, conf.groups().len() as u64)?;
    push(&mut bytes, b" warnings ")?;
    push_number(&mut bytes, conf.warnings().len() as u64)?;
    push(&mut bytes, b"\n")?;
    push_warnings(&mut bytes, conf.warnings())?;
    Ok(Text::of(bytes))
}

/// `line L: CAUSE`, of a text that is refused.
pub fn print_fault(alloc: Global, fault: ConfFault) -> Result<Text, NoMemory>
    ensures { IfOk result (λ text. text ≡ fault_line fault) }
{
    let mut bytes = Vec::new(alloc);
    push_place(&mut bytes, fault.line)?;
    push(&mut bytes, cause_word(fault.cause))?;
    push(&mut bytes, b"\n")?;
    Ok(Text::of(bytes))
}

fn push_warnings(bytes: &mut Vec<u8>, warnings: &[Warning]) -> Result<(), NoMemory>
    ensures { OnOk result (bytes.new.items ≡ bytes.old.items ++ warning_lines warnings.now) }
{
    for warning in warnings {
        push_warning(bytes, *warning)?;
    }
    Ok(())
}

fn push_warning(bytes: &mut Vec<u8>, warning: Warning) -> Result<(), NoMemory>
    ensures { OnOk result (bytes.new.items ≡ bytes.old.items ++ warning_line warning) }
{
    push(bytes, b"warning ")?;
    push_place(bytes, warning.line)?;
    push(bytes, warn_word(warning.cause))?;
    push(bytes, b"\n")
}

// `line L: `
fn push_place(bytes: &mut Vec<u8>, line: u32) -> Result<(), NoMemory>
    ensures { OnOk result (bytes.new.items ≡ bytes.old.items ++ (codes "line " ++ decimal line ++ codes ": ")) }
{
    push(bytes, b"line ")?;
    push_number(bytes, u64::from(line))?;
    push(bytes, b": ")
}

fn push_number(bytes: &mut Vec<u8>, n: u64) -> Result<(), NoMemory>
    ensures { OnOk result (bytes.new.items ≡ bytes.old.items ++ decimal n) }
{
    let mut buffer = Buffer::new();
    push(bytes, buffer.format(n).as_bytes())
}

fn push(bytes: &mut Vec<u8>, piece: &[u8]) -> Result<(), NoMemory>
    ensures { OnOk result (bytes.new.items ≡ bytes.old.items ++ piece.now) }
{
    bytes.extend_from_slice(piece)?;
    Ok(())
}

fn warn_word(cause: WarnCause) -> &'static [u8]
    ensures { result.now ≡ warn_word cause }
{
    match cause {
        WarnCause::Unused => b"Unused",
        WarnCause::GzList => b"GzList",
        WarnCause::NoList => b"NoList",
        WarnCause::BadListLine => b"BadListLine",
        WarnCause::NoTarget => b"NoTarget",
        WarnCause::ExtraTarget => b"ExtraTarget",
        WarnCause::Flags => b"Flags",
        WarnCause::ExtraBind => b"ExtraBind",
    }
}

fn cause_word(cause: ConfCause) -> &'static [u8]
    ensures { result.now ≡ cause_word cause }
{
    match cause {
        ConfCause::NoMemory => b"NoMemory",
        ConfCause::NotALine => b"NotALine",
        ConfCause::BadNumber => b"BadNumber",
        ConfCause::BadUrl => b"BadUrl",
        ConfCause::BadPattern => b"BadPattern",
        ConfCause::NoMerge => b"NoMerge",
        ConfCause::TwiceMerged => b"TwiceMerged",
        ConfCause::TooLong => b"TooLong",
        ConfCause::TooMany => b"TooMany",
    }
}
