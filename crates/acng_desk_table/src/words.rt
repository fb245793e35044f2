//! Reading the words of a command. A word `-` stands for nothing, and `.` for the empty text.
ghost use Rattle.std.specs.Prelude.{◌≡◌, ◌≢◌, ◌<◌, IfSome};
ghost use Rattle.acng_class.specs.declared.class.Class.TheVariants.{Forbidden};
ghost use Rattle.acng_grow.specs.Keeps.{IsDated};

use acng_base::{CachePath, Moment, Tag};
use acng_class::Class;
use acng_grow::Facts;
use std::alloc::Global;

pub fn path_in(alloc: Global, word: &str) -> Option<CachePath> {
    CachePath::read(alloc, word.as_bytes()).ok()
}

pub fn moment_in(word: &str) -> Option<Moment> {
    Some(Moment(word.parse::<u64>().ok()?))
}

pub fn if_moment(word: &str) -> Option<Option<Moment>> {
    if word == "-" {
        return Some(None);
    }
    Some(Some(moment_in(word)?))
}

/// The class of a file that is passed on.
pub fn class_in(word: &str) -> Option<Class>
    ensures { IfSome result (λ class. class ≢ Forbidden) }
{
    match word {
        "solid" => Some(Class::Solid),
        "volatile" => Some(Class::Volatile),
        _ => None,
    }
}

/// The bytes of a text.
pub fn text_in(word: &str) -> &[u8] {
    if word == "." {
        return &[];
    }
    word.as_bytes()
}

fn total_in(word: &str) -> Option<Option<u64>> {
    if word == "-" {
        return Some(None);
    }
    Some(Some(word.parse::<u64>().ok()?))
}

fn tag_in(word: &str) -> Option<Option<Tag>> {
    if word == "-" {
        return Some(None);
    }
    Some(Some(Tag::read(word.as_bytes())?))
}

// A date that HTTP can write.
fn date_in(word: &str) -> Option<Option<Moment>>
    ensures { IfSome result (λ date. IfSome date (λ m. m.0 < 253402300800)) }
{
    if word == "-" {
        return Some(None);
    }
    let date = moment_in(word)?;
    if date.0 >= 253_402_300_800 {
        return None;
    }
    Some(Some(date))
}

/// The known size, the tag and the date of a file.
pub fn facts_in(total: &str, tag: &str, date: &str) -> Option<Facts>
    ensures { IfSome result IsDated }
{
    let total = total_in(total)?;
    let tag = tag_in(tag)?;
    let modified = date_in(date)?;
    Some(Facts {
        total,
        modified,
        tag,
    })
}
