//! What a tag's command has come to after some events.

ghost use Rattle.std.specs.Prelude.{◌≡◌};
ghost use Rattle.ncq_journal.specs.History.{history_of};
ghost use Rattle.ncq_journal.specs.Phase.{phase, phase_after};
ghost use Rattle.ncq_journal.specs.Entry.{entry_of};

use crate::event::Event;
use crate::event_kind::phase_after_kind;
use std::alloc::Allocator;

/// What a tag's command has come to (AHCI 1.3.1, "Native Command Queuing" and section 6.2.2).
#[derive(Clone, Copy, Debug, PartialEq, Eq)]
pub enum Phase {
    /// The slot has no request.
    Free,
    /// The command waits for the device.
    Issued,
    /// The device has taken the command.
    Accepted,
    /// The device refused the command, and the port has not recovered.
    Rejected,
    /// The command failed after the device had taken it, and the port has not recovered.
    Broken,
    /// Another command's error ended this one, which can be issued again.
    Held,
    /// The request has its answer.
    Done,
}

impl Phase {
    ghost use Rattle.ncq_journal.specs.Phase.{is_failed, is_busy, failed, recovered};

    /// Whether the command failed and the port has not recovered.
    pub fn is_failed(self) -> bool
        ensures { result ≡ is_failed self }
    {
        matches!(self, Phase::Rejected | Phase::Broken)
    }

    /// Whether the command waits for the device or is outstanding in it.
    pub fn is_busy(self) -> bool
        ensures { result ≡ is_busy self }
    {
        matches!(self, Phase::Issued | Phase::Accepted)
    }

    /// The phase of a command that fails in this one.
    pub fn failed(self) -> Phase
        ensures { result ≡ failed self }
    {
        match self {
            Phase::Issued => Phase::Rejected,
            _ => Phase::Broken,
        }
    }

    /// The phase after a recovery: the failed command is answered, those that the error ended are held.
    pub fn recovered(self) -> Phase
        ensures { result ≡ recovered self }
    {
        match self {
            Phase::Rejected | Phase::Broken => Phase::Done,
            Phase::Issued | Phase::Accepted => Phase::Held,
            other => other,
        }
    }
}

/// The phase of a tag after one more event, where it had this one before.
#[tactic(auto, using(crate::proofs::KindLemmas::phase_after_of_kind))]
pub fn phase_after<A: Allocator>(tag: u8, before: Phase, event: &Event<A>) -> Phase
    ensures { result ≡ phase_after tag before (entry_of event.now) }
{
    phase_after_kind(tag, before, event.kind())
}

/// The phase of a tag after these events, the oldest first.
#[tactic(auto, using(crate::proofs::HistoryLemmas::history_more, crate::proofs::HistoryLemmas::history_all))]
pub fn phase_of<A: Allocator>(events: &[Event<A>], tag: u8) -> Phase
    ensures { result ≡ phase (history_of events.now) tag }
{
    let mut phase = Phase::Free;
    for event in events {
        phase = phase_after(tag, phase, event);
    }
    phase
}
