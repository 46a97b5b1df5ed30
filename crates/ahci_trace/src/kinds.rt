//! The names of an entry's kind and of a phase.

ghost use Rattle.std.specs.Prelude.{◌≡◌};
ghost use Rattle.ahci_trace.specs.Text.{kind_name, phase_name, plain_name};

use ncq_journal::{EventKind, Phase, Plain};

/// The name of an entry's kind.
pub(crate) fn kind_name(what: EventKind) -> &'static str
    ensures { result.now ≡ kind_name what }
{
    match what {
        EventKind::Issue { .. } => "issue",
        EventKind::Accept(_) => "accept",
        EventKind::Complete(_) => "complete",
        EventKind::Fail { .. } => "fail",
        EventKind::Recover(_) => "recover",
        EventKind::Reissue(_) => "reissue",
        EventKind::Collect(_) => "collect",
        EventKind::Plain(plain) => plain_name(plain),
        EventKind::Zero { .. } => "zero",
    }
}

/// The name of a command that is not queued.
pub(crate) fn plain_name(plain: Plain) -> &'static str
    ensures { result.now ≡ plain_name plain }
{
    match plain {
        Plain::Identify => "identify",
        Plain::Flush => "flush",
        Plain::ReadLog => "read log",
    }
}

/// The name of a phase.
pub(crate) fn phase_name(phase: Phase) -> &'static str
    ensures { result.now ≡ phase_name phase }
{
    match phase {
        Phase::Free => "free",
        Phase::Issued => "issued",
        Phase::Accepted => "accepted",
        Phase::Rejected => "rejected",
        Phase::Broken => "broken",
        Phase::Held => "held",
        Phase::Done => "done",
    }
}
