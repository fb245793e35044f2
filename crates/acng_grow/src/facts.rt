//! What is known of a file, and what is to be seen of a body.
ghost use Rattle.std.specs.Prelude.{◌≡◌, None, true};
ghost use Rattle.acng_grow.specs.Effects.{nothing_known};

use crate::why::Shown;
use acng_base::{Moment, Tag, Text};
use acng_head::Label;

/// What is known of a file beside its bytes: how many they are, when it was changed, and its strong tag.
#[derive(Debug, Drop)]
pub struct Facts {
    pub total: Option<u64>,
    pub modified: Option<Moment>,
    pub tag: Option<Tag>,
}

/// How far a body has come.
#[derive(Clone, Copy, Debug, PartialEq, Eq)]
pub enum Stage {
    /// Nothing has come yet.
    Opening,
    /// Bytes come.
    Running,
    /// All bytes have come.
    Whole,
    /// It broke off.
    Cut,
    /// A held body is still the file.
    Same,
    /// It never opened.
    Refused,
}

/// What is to be seen of a body: all that a download changes but the bytes, which `size` counts. A loader keeps its plan
/// of a body in one.
#[derive(Debug, Drop)]
pub struct Seen {
    /// The URL of the first attempt.
    pub url: Option<Text>,
    pub stage: Stage,
    pub label: Option<Label>,
    pub facts: Facts,
    pub size: u64,
    /// Why it ended, once it was cut or refused.
    pub shown: Option<Shown>,
}

impl Facts {
    /// Nothing is known.
    pub fn none() -> Facts
        ensures { result ≡ nothing_known }
    {
        Facts {
            total: None,
            modified: None,
            tag: None,
        }
    }

    /// The same facts once more.
    pub fn again(&self) -> Facts
        ensures { result ≡ self.now }
    {
        Facts {
            total: self.total,
            modified: self.modified,
            tag: tag_again(&self.tag),
        }
    }

    /// Whether both are the same.
    pub fn same(&self, other: &Facts) -> bool
        ensures same { result ≡ true → self.now ≡ other.now }
        ensures found { self.now ≡ other.now → result ≡ true }
    {
        if self.total != other.total {
            return false;
        }
        if self.modified != other.modified {
            return false;
        }
        let same = same_tag(&self.tag, &other.tag);
        same
    }
}

fn tag_again(tag: &Option<Tag>) -> Option<Tag>
    ensures { result ≡ tag.now }
{
    match tag {
        Some(tag) => Some(tag.again()),
        None => None,
    }
}

fn same_tag(a: &Option<Tag>, b: &Option<Tag>) -> bool
    ensures same { result ≡ true → a.now ≡ b.now }
    ensures found { a.now ≡ b.now → result ≡ true }
{
    match (a, b) {
        (Some(a), Some(b)) => a.as_bytes() == b.as_bytes(),
        (None, None) => true,
        _ => false,
    }
}
