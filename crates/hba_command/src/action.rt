ghost use Rattle.std.specs.Prelude.{◌≡◌};
ghost use Rattle.hba_command.specs.Action.{action_of, is_write, moved_by};
ghost use Rattle.hba_command.specs.declared.action.Action.TheVariants.{Sectors};

use crate::addressing::Addressing;
use crate::page::{Page, pages_of};
use crate::power::Power;
use crate::protocol::Protocol;
use crate::reply::Reply;
use crate::span::Span;
use crate::store::{Store, blocks_of};
use crate::task::Task;
use sata_fis::Queued;

/// What the disk does with a command: the one table by which all callers act.
#[derive(Clone, Copy, Debug, PartialEq, Eq)]
pub enum Action {
    /// It queues the command, and moves sectors later.
    Queue(Queued),
    /// It moves sectors at once, to the device if `write`.
    Sectors {
        write: bool,
        span: Span,
        protocol: Protocol,
    },
    /// It sends a page.
    Page(Page, Protocol),
    /// It takes data that are no sectors.
    Store(Store, Protocol),
    /// It writes its cache.
    Flush(Addressing),
    /// It answers, and moves nothing.
    Reply(Reply),
    /// It takes the device control register, with SRST.
    Control {
        reset: bool,
    },
    /// It aborts the command.
    Abort,
}

/// It moves the sectors of a span.
fn sectors(write: bool, span: &Span, protocol: Protocol) -> Action
    ensures { result ≡ Sectors write span.now protocol }
{
    Action::Sectors {
        write,
        span: *span,
        protocol,
    }
}

/// What the disk does with a command.
pub fn action_of(task: &Task) -> Action
    ensures { result ≡ action_of task.now }
{
    match task {
        Task::Queue(queued) => Action::Queue(*queued),
        Task::Read(span, protocol) => sectors(false, span, *protocol),
        Task::Write(span, protocol) => sectors(true, span, *protocol),
        Task::Verify(span) => Action::Reply(Reply::Verified(*span)),
        Task::Mark(span) => Action::Reply(Reply::Marked(*span)),
        Task::Flush(addressing) => Action::Flush(*addressing),
        Task::Identify => Action::Page(Page::Identify, Protocol::Pio),
        Task::ReadLog(log, protocol) => Action::Page(Page::Log(*log), *protocol),
        Task::ReadPage(page, protocol) => Action::Page(Page::Disk(*page), *protocol),
        Task::Store(store, protocol) => Action::Store(*store, *protocol),
        Task::Change(change) => Action::Reply(Reply::Changed(*change)),
        Task::SmartStatus => Action::Reply(Reply::SmartStatus),
        Task::NativeMax(addressing) => Action::Reply(Reply::NativeMax(*addressing)),
        Task::PowerMode => Action::Reply(Reply::PowerMode),
        Task::Idle => Action::Reply(Reply::Entered(Power::Idle)),
        Task::Standby => Action::Reply(Reply::Entered(Power::Standby)),
        Task::Sleep => Action::Reply(Reply::Entered(Power::Sleep)),
        Task::Diagnose => Action::Reply(Reply::Diagnosed),
        Task::Nothing => Action::Reply(Reply::Done),
        Task::Control { reset } => Action::Control { reset: *reset },
        Task::Packet => Action::Reply(Reply::Packet),
        Task::Unknown => Action::Abort,
    }
}

/// How many bytes of data move.
pub fn moved_by(action: &Action) -> u32
    ensures { result ≡ moved_by action.now }
{
    match action {
        Action::Queue(queued) => 512 * queued.sectors,
        Action::Sectors { span, .. } => 512 * span.sectors,
        Action::Page(page, _) => 512 * pages_of(page),
        Action::Store(store, _) => 512 * blocks_of(store),
        Action::Flush(_) | Action::Reply(_) | Action::Control { .. } | Action::Abort => 0,
    }
}

/// Whether they go to the device.
pub fn is_write(action: &Action) -> bool
    ensures { result ≡ is_write action.now }
{
    match action {
        Action::Queue(queued) => queued.write,
        Action::Sectors { write, .. } => *write,
        Action::Store(_, _) => true,
        Action::Page(_, _) | Action::Flush(_) | Action::Reply(_) | Action::Control { .. } => false,
        Action::Abort => false,
    }
}
