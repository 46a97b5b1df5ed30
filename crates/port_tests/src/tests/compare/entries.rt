//! The entries of a run.
use super::calls::Call;
use ahci_port::DeviceStep;
use ncq_journal::{Bytes, Event, Op, Plain};
use std::alloc::{AllocError, Global};

/// A copy of an entry.
pub fn copy_of(alloc: Global, event: &Event) -> Result<Event, AllocError> {
    Ok(match *event {
        Event::Issue(tag, Op::Read { lba, sectors }) => Event::Issue(
            tag,
            Op::Read { lba, sectors },
        ),
        Event::Issue(tag, Op::Write { lba, ref bytes }) => {
            let bytes = Bytes::from_vec(bytes.as_slice().to_vec(alloc)?);
            Event::Issue(tag, Op::Write { lba, bytes })
        }
        Event::Accept(tag) => Event::Accept(tag),
        Event::Complete(tag) => Event::Complete(tag),
        Event::Fail { tag, error, lba } => Event::Fail { tag, error, lba },
        Event::Recover(tag) => Event::Recover(tag),
        Event::Reissue(tag) => Event::Reissue(tag),
        Event::Collect(tag) => Event::Collect(tag),
        Event::Plain(command) => Event::Plain(command),
        Event::Zero { lba, sectors } => Event::Zero { lba, sectors },
    })
}

/// How many entries a call has that is taken.
pub fn entries_of(call: &Call) -> usize {
    match call {
        Call::Step(DeviceStep::Serve(tags)) => tags.len(),
        Call::Acknowledge(_) | Call::Trim | Call::Reset => 0,
        _ => 1,
    }
}

/// Whether this event is an entry of a call that is taken: that of this index, or the only one.
pub fn appends(call: &Call, index: usize, event: &Event) -> bool {
    match (call, event) {
        (Call::Step(DeviceStep::Serve(tags)), Event::Complete(tag)) => tags.get(index) == Some(tag),
        (Call::Issue(command), Event::Issue(tag, op)) => {
            command.tag == *tag
                && command.lba == op.lba()
                && u64::from(command.sectors) == op.sectors()
        }
        (Call::Step(step), _) => steps(step, event),
        (Call::Collect(tag, _), Event::Collect(t)) => *tag == *t,
        (Call::Reissue(tag), Event::Reissue(t)) => *tag == *t,
        (Call::Recover, Event::Recover(_)) => true,
        (Call::Identify, Event::Plain(command)) => *command == Plain::Identify,
        (Call::Flush, Event::Plain(command)) => *command == Plain::Flush,
        _ => false,
    }
}

/// Whether a step of one command appends this event.
fn steps(step: &DeviceStep, event: &Event) -> bool {
    match (step, event) {
        (DeviceStep::Accept(tag), Event::Accept(t)) => *tag == *t,
        (DeviceStep::Accept(tag), Event::Fail { tag: t, error, .. }) => {
            *tag == *t && *error == 0x10
        }
        (DeviceStep::Fail { .. }, Event::Fail { tag, error, lba }) => {
            let failure = DeviceStep::Fail {
                tag: *tag,
                error: *error,
                at: *lba,
            };
            *step == failure
        }
        _ => false,
    }
}
