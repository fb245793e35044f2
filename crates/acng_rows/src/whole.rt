//! A whole body and its head.
ghost use Rattle.std.specs.Prelude.{◌≡◌, true, IfOk, IfSome};
ghost use Rattle.acng_base.specs.Tags.{is_tag};
ghost use Rattle.acng_rows.specs.Rows.{head_of, whole_of, stamped};

use crate::row::Whole;
use crate::stamp::Stamp;
use acng_base::{CachePath, NoMemory, Tag, Text};
use acng_head::Head;
use std::alloc::Global;

fn text_of(alloc: Global, tag: &Option<Tag>) -> Result<Option<Text>, NoMemory>
    ensures { IfOk result (λ text. text ≡ tag.now) }
{
    match tag {
        Some(tag) => Ok(Some(Text::copy(alloc, tag.as_bytes())?)),
        None => Ok(None),
    }
}

fn tag_of(text: &Option<Text>) -> Option<Tag>
    requires { IfSome text.now (λ t. is_tag t ≡ true) }
    ensures { result ≡ text.now }
{
    match text {
        Some(text) => Tag::read(text.as_bytes()),
        None => None,
    }
}

impl Whole {
    /// The whole body with this id that a head tells of.
    pub fn of(alloc: Global, id: u64, head: &Head) -> Result<Whole, NoMemory>
        ensures { IfOk result (λ whole. whole ≡ whole_of id head.now) }
    {
        Ok(Whole {
            id,
            label: head.label,
            size: head.size,
            tag: text_of(alloc, &head.tag)?,
            modified: head.modified,
            checked: head.checked,
            mark: head.mark,
        })
    }

    pub fn tag(&self) -> Option<Tag>
        requires { IfSome self.now.tag (λ t. is_tag t ≡ true) }
        ensures { result ≡ self.now.tag }
    {
        tag_of(&self.tag)
    }

    /// The head of the whole body at a path.
    pub fn head(&self, path: CachePath) -> Head
        requires { IfSome self.now.tag (λ t. is_tag t ≡ true) }
        ensures { result ≡ head_of path self.now }
    {
        Head {
            path,
            label: self.label,
            size: self.size,
            tag: self.tag(),
            modified: self.modified,
            checked: self.checked,
            mark: self.mark,
        }
    }

    /// Its head at a path, with another moment.
    pub fn stamped_head(&self, path: CachePath, stamp: Stamp) -> Head
        requires { IfSome self.now.tag (λ t. is_tag t ≡ true) }
        ensures { result ≡ head_of path (stamped stamp self.now) }
    {
        let head = self.head(path);
        match stamp {
            Stamp::Checked(now) => Head {
                checked: now,
                ..head
            },
            Stamp::Mark(mark) => Head { mark, ..head },
        }
    }

    /// The same with another moment.
    pub fn stamped(self, stamp: Stamp) -> Whole
        ensures { result ≡ stamped stamp self }
    {
        match stamp {
            Stamp::Checked(now) => Whole {
                checked: now,
                ..self
            },
            Stamp::Mark(mark) => Whole { mark, ..self },
        }
    }
}
