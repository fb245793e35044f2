//! The page of HTML around a table. What is told of paths is escaped there; the first text stands as it is.
ghost use Rattle.std.specs.Prelude.{◌≡◌, ◌++◌, IfOk, OnOk};
ghost use Rattle.acng_report.specs.Pages.{IsPage, first_line, around, page_of};

use crate::escape::push_escaped;
use crate::line::Line;
use crate::print::print_table;
use acng_base::{NoMemory, Text};
use std::alloc::Global;
use std::marker::Model;

/// A page around a table, which the report alone makes. Contracts see its bytes and its first text.
#[derive(Debug, Drop)]
pub struct PageText {
    bytes: Text,
    first: Text,
}

impl Model for PageText {
    ghost use Rattle.acng_report.specs.Pages.{Page, IsPage};

    ghost Value = { Page };

    ghost view = { λ p. record { bytes = p.bytes; first = p.first } };

    ghost invariant = { λ p. IsPage (record { bytes = p.bytes; first = p.first }) };
}

impl PageText {
    pub fn as_bytes(&self) -> &[u8]
        ensures bytes { result.now ≡ self.now.bytes }
        ensures page { IsPage self.now }
    {
        self.bytes.as_bytes()
    }

    /// The text before the table; empty where there is none.
    pub fn first(&self) -> &[u8]
        ensures { result.now ≡ self.now.first }
    {
        self.first.as_bytes()
    }
}

/// The page with a first text and the table of these lines.
pub fn print_page(alloc: Global, first: &[u8], lines: &[Line]) -> Result<PageText, NoMemory>
    ensures bytes { IfOk result (λ page. page.bytes ≡ page_of first.now lines.now) }
    ensures first { IfOk result (λ page. page.first ≡ first.now) }
{
    let table = print_table(alloc, lines)?;
    let bytes = page_bytes(alloc, first, table.as_bytes())?;
    let first = Text::copy(alloc, first)?;
    Ok(PageText { bytes, first })
}

fn page_bytes(alloc: Global, first: &[u8], table: &[u8]) -> Result<Text, NoMemory>
    ensures { IfOk result (λ bytes. bytes ≡ around first.now table.now) }
{
    let mut bytes = Vec::from_slice(
        alloc,
        b"<!DOCTYPE html><html><head><title>acng report</title></head><body><pre>\n",
    )?;
    push_first(&mut bytes, first)?;
    push_escaped(&mut bytes, table)?;
    bytes.extend_from_slice(b"</pre></body></html>\n")?;
    Ok(Text::of(bytes))
}

fn push_first(bytes: &mut Vec<u8>, first: &[u8]) -> Result<(), NoMemory>
    ensures { OnOk result (bytes.new.items ≡ bytes.old.items ++ first_line first.now) }
{
    if first.is_empty() {
        return Ok(());
    }
    bytes.extend_from_slice(first)?;
    bytes.extend_from_slice(b"\n")?;
    Ok(())
}
