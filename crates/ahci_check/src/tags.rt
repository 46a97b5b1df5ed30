//! The tags of a `serve`.

ghost use Rattle.std.specs.Prelude.{◌≡◌, [], nat_eq};
ghost use Rattle.std.specs.List.{list_any};
ghost use Rattle.ahci_check.specs.Limits.{far_tag, tags_excess, twice_among};

use crate::excess::{Excess, excess_at, tag_excess};
use crate::limit::Limit;
use ahci_script::after_first;

/// The first limit that a list of tags passes, with which the words begin: a tag for which the port has no slot; else one that
/// is in the list twice.
pub(crate) fn tags_excess(depth: u64, words: &[u8], tags: &[u8]) -> Option<Excess>
    ensures { result ≡ tags_excess depth words.now tags.now }
{
    far_tag(depth, words, tags).or(tag_twice(words, tags))
}

/// The first tag for which the port has no slot.
fn far_tag(depth: u64, words: &[u8], tags: &[u8]) -> Option<Excess>
    ensures { result ≡ far_tag depth words.now tags.now }
{
    let mut left = words;
    for tag in tags {
        let excess = tag_excess(depth, left, *tag);
        if excess.is_some() {
            return excess;
        }
        left = after_first(left);
    }
    None
}

/// The first tag that is also among those before it.
fn tag_twice(words: &[u8], tags: &[u8]) -> Option<Excess>
    ensures { result ≡ twice_among [] words.now tags.now }
{
    let mut left = words;
    for (index, tag) in tags.iter().enumerate() {
        if has_tag(&tags[..index], *tag) {
            return excess_at(left, Limit::TagTwice(*tag));
        }
        left = after_first(left);
    }
    None
}

/// Whether a tag is among some.
fn has_tag(tags: &[u8], tag: u8) -> bool
    ensures { result ≡ list_any (λ other. nat_eq other tag) tags.now }
{
    tags.iter().any(|other| *other == tag)
}
