//! What is known of a whole body beside its bytes.
ghost use Rattle.std.specs.Prelude.{◌≡◌, true, IfSome};
ghost use Rattle.acng_base.specs.Tags.{is_tag};
ghost use Rattle.acng_desk.specs.House.{facts_of as facts_of_whole};
ghost use Rattle.acng_desk.specs.Tickets.{old_of};

use crate::ticket::OldFile;
use acng_grow::Facts;
use acng_head::Label;
use acng_rows::Whole;

/// Its size is the known total. An import has no tag and no date, whatever its head says.
pub(crate) fn facts_of(whole: &Whole) -> Facts
    requires { IfSome whole.now.tag (λ t. is_tag t ≡ true) }
    ensures { result ≡ facts_of_whole whole.now }
{
    match whole.label {
        Label::Fetched { .. } => Facts {
            total: Some(whole.size),
            modified: whole.modified,
            tag: whole.tag(),
        },
        Label::Imported { .. } => Facts {
            total: Some(whole.size),
            modified: None,
            tag: None,
        },
    }
}

/// What a ticket says of it.
pub(crate) fn old_of(whole: &Whole) -> OldFile
    requires { IfSome whole.now.tag (λ t. is_tag t ≡ true) }
    ensures { result ≡ old_of whole.now }
{
    OldFile {
        id: whole.id,
        label: whole.label,
        facts: facts_of(whole),
        size: whole.size,
    }
}
