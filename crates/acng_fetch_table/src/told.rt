//! What is printed: words and numbers between blanks, and `-` for what isn't there.
use acng_base::{FileFault, Moment, Tag};
use acng_desk::{Info, OldFile, PartFile, RowFacts, Settled};
use acng_grow::{Facts, Shown, Stage};
use acng_head::Label;
use std::str::from_utf8;

/// Prints a text as it is.
pub fn put(told: &mut String, text: &str) -> Result<(), FileFault> {
    told.push_str(text)?;
    Ok(())
}

/// Prints a blank and a number.
pub fn put_number(told: &mut String, number: u64) -> Result<(), FileFault> {
    write!(told, " {number}")?;
    Ok(())
}

/// Prints a blank and bytes.
pub fn put_bytes(told: &mut String, bytes: &[u8]) -> Result<(), FileFault> {
    put(told, " ")?;
    match from_utf8(bytes) {
        Ok("") | Err(_) => put(told, "-"),
        Ok(text) => put(told, text),
    }
}

fn put_some(told: &mut String, number: Option<u64>) -> Result<(), FileFault> {
    match number {
        Some(number) => put_number(told, number),
        None => put(told, " -"),
    }
}

/// The attempts of a label: the first and the last.
pub fn put_label(told: &mut String, label: Option<Label>) -> Result<(), FileFault> {
    match label {
        Some(Label::Fetched { first, last }) => {
            put_number(told, first)?;
            put_number(told, last)
        }
        Some(Label::Imported { .. }) => put(told, " import"),
        None => put(told, " - -"),
    }
}

/// The total, the date and the tag.
pub fn put_facts(told: &mut String, facts: &Facts) -> Result<(), FileFault> {
    put_some(told, facts.total)?;
    put_date_and_tag(told, facts.modified, &facts.tag)
}

fn put_date_and_tag(
    told: &mut String,
    modified: Option<Moment>,
    tag: &Option<Tag>,
) -> Result<(), FileFault> {
    match modified {
        Some(moment) => put_number(told, moment.0)?,
        None => put(told, " -")?,
    }
    match tag {
        Some(tag) => put_bytes(told, tag.as_bytes()),
        None => put(told, " -"),
    }
}

/// What a ticket says: its first try, the partial body and the whole one.
pub fn put_ticket(told: &mut String, info: &Info) -> Result<(), FileFault> {
    put(told, " lead")?;
    put_number(told, info.first)?;
    match &info.part {
        Some(part) => put_part(told, part)?,
        None => put(told, " part -")?,
    }
    match &info.was {
        Some(old) => put_old(told, old),
        None => put(told, " old -"),
    }
}

fn put_part(told: &mut String, part: &PartFile) -> Result<(), FileFault> {
    put(told, " part")?;
    put_number(told, part.len)?;
    put_label(told, Some(part.label))?;
    put_facts(told, &part.facts)?;
    put_bytes(told, part.url.as_bytes())
}

fn put_old(told: &mut String, old: &OldFile) -> Result<(), FileFault> {
    put(told, " old")?;
    put_number(told, old.size)?;
    put_label(told, Some(old.label))?;
    put_facts(told, &old.facts)
}

/// The whole body of a row.
pub fn put_row(told: &mut String, row: Option<RowFacts>) -> Result<(), FileFault> {
    put(told, " row")?;
    let Some(row) = row else {
        return put(told, " -");
    };
    put_number(told, row.size)?;
    put_label(told, Some(row.label))?;
    put_facts(told, &row.facts)?;
    put_number(told, row.checked.0)
}

/// How a body ended.
pub fn put_end(told: &mut String, stage: Stage, shown: &Option<Shown>) -> Result<(), FileFault> {
    put(told, " ")?;
    put(told, stage_name(stage))?;
    match shown {
        Some(shown) => put_cause(told, shown),
        None => put(told, " -"),
    }
}

fn stage_name(stage: Stage) -> &'static str {
    match stage {
        Stage::Opening => "Opening",
        Stage::Running => "Running",
        Stage::Whole => "Whole",
        Stage::Cut => "Cut",
        Stage::Same => "Same",
        Stage::Refused => "Refused",
    }
}

// The name of a cause, and the numbers in it.
fn put_cause(told: &mut String, shown: &Shown) -> Result<(), FileFault> {
    put(told, " ")?;
    put(told, cause_name(shown))?;
    match shown.named() {
        Some(attempt) => put_number(told, attempt)?,
        None => put(told, " -")?,
    }
    match shown {
        Shown::Bad { at, .. } => put_number(told, *at),
        Shown::Status { status, .. } => put_number(told, u64::from(*status)),
        _ => Ok(()),
    }
}

fn cause_name(shown: &Shown) -> &'static str {
    match shown {
        Shown::Origin { .. } => "Origin",
        Shown::Early { .. } => "Early",
        Shown::Bad { .. } => "Bad",
        Shown::Status { .. } => "Status",
        Shown::TlsRedirect { .. } => "TlsRedirect",
        Shown::Redirects { .. } => "Redirects",
        Shown::Gone { .. } => "Gone",
        Shown::Keeper(_) => "Keeper",
        Shown::NoMemory => "NoMemory",
    }
}

/// How a ticket was settled.
pub fn settled_name<P>(settled: &Settled<P>) -> &'static str {
    match settled {
        Settled::Kept => " Kept",
        Settled::Same => " Same",
        Settled::Partial => " Partial",
        Settled::Dropped => " Dropped",
        Settled::KeeperFault(_) => " KeeperFault",
        Settled::NoMemory => " NoMemory",
    }
}
