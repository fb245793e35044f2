//! What is known of files, in words.
use acng_base::{Moment, NoMemory, Tag};
use acng_grow::{Facts, Shown, Stage};
use acng_head::Label;
use std::alloc::Global;
use std::str;

pub type Answer = Result<String, NoMemory>;

pub fn word(alloc: Global, word: &str) -> Answer {
    Ok(String::from_str(alloc, word)?)
}

pub fn bytes(alloc: Global, bytes: &[u8]) -> Answer {
    if bytes.is_empty() {
        return word(alloc, ".");
    }
    match str::from_utf8(bytes) {
        Ok(text) => word(alloc, text),
        Err(_) => word(alloc, "?"),
    }
}

pub fn if_number(alloc: Global, number: Option<u64>) -> Answer {
    match number {
        Some(number) => Ok(format!(in alloc; "{number}")?),
        None => word(alloc, "-"),
    }
}

pub fn if_moment(alloc: Global, moment: Option<Moment>) -> Answer {
    match moment {
        Some(moment) => if_number(alloc, Some(moment.0)),
        None => if_number(alloc, None),
    }
}

fn if_tag(alloc: Global, tag: &Option<Tag>) -> Answer {
    match tag {
        Some(tag) => bytes(alloc, tag.as_bytes()),
        None => word(alloc, "-"),
    }
}

/// The attempts of a download, or the first four bytes of an import's hash with its size.
pub fn label(alloc: Global, label: &Label) -> Answer {
    match label {
        Label::Fetched { first, last } => Ok(format!(in alloc; "{first}-{last}")?),
        Label::Imported { sha256, size } => {
            let [a, b, c, d, ..] = sha256.0;
            Ok(format!(in alloc; "{a:02x}{b:02x}{c:02x}{d:02x}:{size}")?)
        }
    }
}

pub fn if_label(alloc: Global, of: &Option<Label>) -> Answer {
    match of {
        Some(of) => label(alloc, of),
        None => word(alloc, "-"),
    }
}

/// The known size, the tag and the date.
pub fn facts(alloc: Global, facts: &Facts) -> Answer {
    let total = if_number(alloc, facts.total)?;
    let tag = if_tag(alloc, &facts.tag)?;
    let date = if_moment(alloc, facts.modified)?;
    Ok(format!(in alloc; "{total} {tag} {date}")?)
}

pub fn stage(stage: Stage) -> &'static str {
    match stage {
        Stage::Opening => "opening",
        Stage::Running => "running",
        Stage::Whole => "whole",
        Stage::Cut => "cut",
        Stage::Same => "same",
        Stage::Refused => "refused",
    }
}

/// Why a body ended.
pub fn cause(alloc: Global, shown: &Option<Shown>) -> Answer {
    match shown {
        None => word(alloc, "-"),
        Some(Shown::Early { attempt }) => Ok(format!(in alloc; "early:{attempt}")?),
        Some(Shown::Gone { attempt }) => Ok(format!(in alloc; "gone:{attempt}")?),
        Some(Shown::Keeper(mark)) => {
            let (call, attempt) = (mark.call(), mark.attempt());
            Ok(format!(in alloc; "keeper:{call}:{attempt}")?)
        }
        Some(Shown::NoMemory) => word(alloc, "memory"),
        Some(_) => word(alloc, "?"),
    }
}
