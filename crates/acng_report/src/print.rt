//! The table: a line for each held path, and a last one with their number and the sum of their sizes.
//!
//! The text grows by whole words. The sum has room for every size of 64 bits that memory can hold.
ghost use Rattle.std.specs.Prelude.{◌≡◌, ◌++◌, ◌+◌, ◌≤◌, List, ℕ, IfOk, OnOk};
ghost use Rattle.std.specs.List.{sum_by};
ghost use Rattle.acng_report.specs.Tables.{class_word, mark_word, line_text, last_line, table};

use crate::line::Line;
use acng_base::{Moment, NoMemory, Text};
use acng_class::Class;
use itoa::{Buffer, Integer};
use std::alloc::Global;

/// The table of these lines.
pub fn print_table(alloc: Global, lines: &[Line]) -> Result<Text, NoMemory>
    ensures { IfOk result (λ text. text ≡ table lines.now) }
{
    let mut text = Vec::new(alloc);
    for line in lines {
        push_line(&mut text, line)?;
    }
    push_last(&mut text, lines)?;
    Ok(Text::of(text))
}

// `PATH SIZE CLASS MARK`
fn push_line(text: &mut Vec<u8>, line: &Line) -> Result<(), NoMemory>
    ensures { OnOk result (text.new.items ≡ text.old.items ++ line_text line.now) }
{
    text.extend_from_slice(line.path.as_bytes())?;
    text.extend_from_slice(b" ")?;
    push_number(text, line.size)?;
    text.extend_from_slice(b" ")?;
    text.extend_from_slice(class_word(line.class))?;
    text.extend_from_slice(b" ")?;
    push_mark(text, line.mark)?;
    text.extend_from_slice(b"\n")?;
    Ok(())
}

fn class_word(class: Class) -> &'static [u8]
    ensures { result.now ≡ class_word class }
{
    match class {
        Class::Solid => b"solid",
        Class::Volatile => b"volatile",
        Class::Forbidden => b"forbidden",
    }
}

fn push_mark(text: &mut Vec<u8>, mark: Option<Moment>) -> Result<(), NoMemory>
    ensures { OnOk result (text.new.items ≡ text.old.items ++ mark_word mark) }
{
    match mark {
        Some(moment) => push_number(text, moment.0),
        None => {
            text.extend_from_slice(b"-")?;
            Ok(())
        }
    }
}

// `rows N bytes B`
fn push_last(text: &mut Vec<u8>, lines: &[Line]) -> Result<(), NoMemory>
    ensures { OnOk result (text.new.items ≡ text.old.items ++ last_line lines.now) }
{
    text.extend_from_slice(b"rows ")?;
    push_number(text, lines.len())?;
    text.extend_from_slice(b" bytes ")?;
    push_number(text, sum_of_sizes(lines))?;
    text.extend_from_slice(b"\n")?;
    Ok(())
}

fn push_number<I: Integer>(text: &mut Vec<u8>, number: I) -> Result<(), NoMemory>
    ensures { OnOk result (text.new.items ≡ text.old.items ++ I.text number) }
{
    let mut buffer = Buffer::new();
    text.extend_from_slice(buffer.format(number).as_bytes())?;
    Ok(())
}

fn sum_of_sizes(lines: &[Line]) -> u128
    ensures { result ≡ sum_by (λ line. line.size) lines.now }
{
    let mut sum = 0;
    for line in lines {
        sum += u128::from(line.size);
    }
    sum
}
