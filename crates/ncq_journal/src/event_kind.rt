//! What an event says, without the bytes of a write.

ghost use Rattle.std.specs.Prelude.{◌≡◌, ◌↔◌, IsTrue};
ghost use Rattle.ncq_journal.specs.{EventKind.{HasLowTag, entry_of_kind}, Phase.{phase_after}};
ghost use Rattle.ncq_journal.specs.declared.event_kind.EventKind.{EventKind};

use crate::phase::Phase;
use crate::plain::Plain;

/// What an event says, without the bytes of a write. The numbers are tags.
#[derive(Clone, Copy, Debug, PartialEq, Eq)]
pub enum EventKind {
    /// A command is issued, for so many sectors from an LBA on.
    Issue {
        tag: u8,
        write: bool,
        lba: u64,
        sectors: u64,
    },
    Accept(u8),
    Complete(u8),
    /// A command fails, with the error register's byte and the LBA of the failing sector.
    Fail {
        tag: u8,
        error: u8,
        lba: u64,
    },
    Recover(u8),
    Reissue(u8),
    Collect(u8),
    /// A command that is not queued.
    Plain(Plain),
    /// A command that is not queued makes so many sectors from an LBA on zeros.
    Zero {
        lba: u64,
        sectors: u32,
    },
}

/// What names an event of a journal, as a host's own form of one.
pub trait NamesEvent {
    /// The event that it names.
    ghost event: { Self → EventKind };

    /// What the event says.
    fn kind(&self) -> EventKind
        ensures { result ≡ event self.now };
}

impl NamesEvent for EventKind {
    ghost event = { λ kind. kind };

    fn kind(&self) -> EventKind {
        *self
    }
}

/// Whether an event names one of 32 tags, or none.
pub(crate) fn has_low_tag(kind: EventKind) -> bool
    ensures { IsTrue result ↔ HasLowTag kind }
{
    match kind {
        EventKind::Issue { tag, .. }
        | EventKind::Accept(tag)
        | EventKind::Complete(tag)
        | EventKind::Fail { tag, .. }
        | EventKind::Recover(tag)
        | EventKind::Reissue(tag)
        | EventKind::Collect(tag) => tag < 32,
        EventKind::Plain(_) | EventKind::Zero { .. } => true,
    }
}

/// The phase of a tag after an event, where it had this one before.
pub(crate) fn phase_after_kind(tag: u8, before: Phase, kind: EventKind) -> Phase
    ensures { result ≡ phase_after tag before (entry_of_kind kind) }
{
    match kind {
        EventKind::Issue { tag: t, .. } | EventKind::Reissue(t) if t == tag => Phase::Issued,
        EventKind::Accept(t) if t == tag => Phase::Accepted,
        EventKind::Complete(t) if t == tag => Phase::Done,
        EventKind::Collect(t) if t == tag => Phase::Free,
        EventKind::Fail { tag: t, .. } if t == tag => before.failed(),
        EventKind::Recover(_) => before.recovered(),
        _ => before,
    }
}
