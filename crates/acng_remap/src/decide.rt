//! Which entry of a group decides over a place.
//!
//! The fronts of the place that end where a segment ends are tried from the longest down, so the first that is an entry
//! is the longest that fits. Each try is one look-up.
ghost use Rattle.std.specs.Prelude.{◌≡◌, ◌≤◌, ◌<◌, Some, None, MatchOption, IfSome, length, take};
ghost use Rattle.acng_remap.specs.Decisions.{HasNoSlash, IsLastSlash, deciding, group_of, has_target, counts};

use acng_conf::{Conf, Group, first_is};

/// The group that has the deciding entry, and the entry's length.
#[derive(Clone, Copy, Debug)]
pub struct EntryMatch {
    pub group: usize,
    pub len: usize,
}

/// The longest front of the place that merges into a group.
pub fn longest_entry(conf: &Conf, place: &[u8]) -> Option<EntryMatch>
    ensures { MatchOption result (deciding conf.now.groups place.now ≡ None)
        (λ d. (d.len ≤ length place.now) × (d.group < length conf.now.groups)
        × (group_of conf.now.groups (take d.len place.now) ≡ Some d.group)
        × (deciding conf.now.groups place.now ≡ Some (take d.len place.now))) }
{
    let mut end = Some(place.len());
    while let Some(len) = end {
        if let Some(group) = group_of(conf, &place[..len]) {
            return Some(EntryMatch { group, len });
        }
        end = last_slash(&place[..len]);
    }
    None
}

fn last_slash(text: &[u8]) -> Option<usize>
    ensures { MatchOption result (HasNoSlash text.now) (λ at. IsLastSlash text.now at) }
{
    text.iter().rposition(|b| *b == b'/')
}

// The group into which the entry merges: not a prefix into a group without a target.
#[tactic(auto, unfolding(crate::specs::Decisions::group_of))]
fn group_of(conf: &Conf, entry: &[u8]) -> Option<usize>
    ensures group_of { result ≡ group_of conf.now.groups entry.now }
    ensures within { IfSome result (λ k. k < length conf.now.groups) }
{
    match conf.owner(entry) {
        Some(k) => {
            if counts(entry, &conf.groups()[k]) {
                Some(k)
            } else {
                None
            }
        }
        None => None,
    }
}

fn counts(entry: &[u8], group: &Group) -> bool
    ensures { result ≡ counts entry.now group.now }
{
    !(first_is(b'/', entry) && !has_target(group))
}

/// Whether the group has URLs to ask.
pub fn has_target(group: &Group) -> bool
    ensures { result ≡ has_target group.now }
{
    !group.targets().is_empty()
}
