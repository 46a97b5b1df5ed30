//! Runs of calls that a generator picks, taken and refused ones. After each call the port is compared with the plain
//! functions over the entries of its journal, and after a trim or a reset over those that came since, from the image that it has
//! left.
mod calls;
mod entries;

use crate::tests::table::{equal, equal_bytes};
use ahci_port::{
    CollectFault, DeviceStep, IssueFault, PlainFault, Port, RecoverFault, ReissueFault, ResetFault,
    StepFault, SubmitFault, TrimFault,
};
use ahci_regs::RegFault;
use calls::{Call, Command, Fault, Picks, SECTORS, is_vacant, names_twice};
use entries::{appends, copy_of, entries_of};
use ncq_journal::{
    Bytes, Event, Journal, Op, Outcome, Phase, answer_of, ci_of, device_tags_of, is_busy,
    is_covered, is_halted, is_lawful, owed_by, phase_of, request_of, sact_of, sector_of,
};
use std::alloc::{AllocError, Global};
use std::process::Abort;
use std::test::Fail;

/// A port with the image that its journal began with, the number of the journal's first entry, and the entries, the oldest
/// first.
#[derive(Drop)]
struct Story {
    alloc: Global,
    port: Port,
    image: Vec<u8>,
    first: u64,
    events: Vec<Event>,
}

/// So many sectors, each with bytes of its own, made from one byte.
fn sectors_from(alloc: Global, sectors: u32, byte: u8) -> Result<Vec<u8>, AllocError> {
    let mut bytes = Vec::new(alloc);
    for i in 0..u64::from(sectors) * 512 {
        bytes.push(((i * 31 + u64::from(byte)) % 251) as u8)?;
    }
    Ok(bytes)
}

/// What a command asks of the disk.
fn op_of(alloc: Global, command: Command) -> Result<Op, AllocError> {
    let Command { lba, sectors, .. } = command;
    Ok(match command.byte {
        Some(byte) => Op::Write {
            lba,
            bytes: Bytes::from_vec(sectors_from(alloc, sectors, byte)?),
        },
        None => Op::Read { lba, sectors },
    })
}

/// What no entry says of a port: PxIS, PxTFD, PxSERR, the received FIS area and the journal's room.
type Shown = ([Result<u32, RegFault>; 3], [u8; 256], u64);

impl Story {
    fn new(alloc: Global, depth: u32) -> Result<Self, Fail> {
        Ok(Story {
            alloc,
            port: Port::new(alloc, sectors_from(alloc, SECTORS, 0x5A)?, depth)?,
            image: sectors_from(alloc, SECTORS, 0x5A)?,
            first: 0,
            events: Vec::new(alloc),
        })
    }

    fn shown(&self) -> Shown {
        let port = &self.port;
        let words = [
            port.register(0x110),
            port.register(0x120),
            port.register(0x130),
        ];
        (words, *port.received(), port.journal().room())
    }

    /// Why the port is to refuse a call, by the entries so far, and by the first case that holds.
    fn fault_of(&self, call: &Call) -> Option<Fault> {
        let past = self.events.as_slice();
        match call {
            Call::Issue(command) => self.issue_fault(command.tag).map(Fault::Issue),
            Call::Step(step) => self.step_fault(step).map(Fault::Step),
            Call::Collect(tag, number) => self.collect_fault(*tag, *number).map(Fault::Collect),
            Call::Recover if !is_halted(past) => Some(Fault::Recover(RecoverFault::NotHalted)),
            Call::Reissue(_) if is_halted(past) => Some(Fault::Reissue(ReissueFault::Halted)),
            Call::Reissue(tag) if phase_of(past, *tag) != Phase::Held => {
                Some(Fault::Reissue(ReissueFault::NotHeld))
            }
            Call::Identify | Call::Flush if is_halted(past) => {
                Some(Fault::Plain(PlainFault::Halted))
            }
            Call::Identify | Call::Flush if is_busy(past) => {
                Some(Fault::Plain(PlainFault::QueueBusy))
            }
            Call::Trim if !is_vacant(past) => Some(Fault::Trim(TrimFault::Busy)),
            _ => None,
        }
    }

    fn issue_fault(&self, tag: u8) -> Option<IssueFault> {
        let past = self.events.as_slice();
        if is_halted(past) {
            Some(IssueFault::Halted)
        } else if u32::from(tag) >= self.port.depth() {
            Some(IssueFault::NoSuchTag)
        } else if phase_of(past, tag) != Phase::Free {
            Some(IssueFault::SlotOwned)
        } else {
            None
        }
    }

    /// Why the device is to refuse a step.
    fn step_fault(&self, step: &DeviceStep) -> Option<StepFault> {
        let past = self.events.as_slice();
        match step {
            _ if is_halted(past) => Some(StepFault::Halted),
            DeviceStep::Accept(tag) if phase_of(past, *tag) != Phase::Issued => {
                Some(StepFault::NotIssued)
            }
            DeviceStep::Serve(tags) if !tags.iter().all(|tag| self.is_in_device(*tag)) => {
                Some(StepFault::NotAccepted)
            }
            DeviceStep::Serve(tags) if tags.is_empty() || names_twice(tags) => {
                Some(StepFault::BadTags)
            }
            DeviceStep::Fail { tag, .. } if !self.is_in_device(*tag) => {
                Some(StepFault::NotAccepted)
            }
            DeviceStep::Fail { tag, at, .. } => match request_of(past, *tag) {
                Some(request) if is_covered(request.op(), *at) => None,
                _ => Some(StepFault::OutsideCommand),
            },
            _ => None,
        }
    }

    fn collect_fault(&self, tag: u8, number: u64) -> Option<CollectFault> {
        match phase_of(self.events.as_slice(), tag) {
            Phase::Free => Some(CollectFault::Stranger),
            _ if self.number_of(tag) != Some(number) => Some(CollectFault::Stranger),
            Phase::Done => None,
            _ => Some(CollectFault::NotYet),
        }
    }

    /// Whether a tag's command is outstanding in the device.
    fn is_in_device(&self, tag: u8) -> bool {
        let tags = device_tags_of(self.events.as_slice());
        tag < 32 && tags >> tag & 1 == 1
    }

    /// The number of a tag's last request.
    fn number_of(&self, tag: u8) -> Option<u64> {
        let request = request_of(self.events.as_slice(), tag)?;
        Some(self.first.wrapping_add(request.number()))
    }

    /// The number of the next entry.
    fn end(&self) -> u64 {
        self.first.wrapping_add(self.events.len() as u64)
    }

    /// Makes a call, and answers why it was refused, if it was.
    fn make(&mut self, rt: &impl Abort, call: &Call) -> Result<Option<Fault>, Fail> {
        Ok(match call {
            Call::Issue(command) => self.issue(rt, *command)?.map(Fault::Issue),
            Call::Step(step) => self.port.step(step.clone()?).err().map(Fault::Step),
            Call::Collect(tag, number) => self.collect(rt, *tag, *number)?.map(Fault::Collect),
            Call::Recover => self.port.recover().err().map(Fault::Recover),
            Call::Reissue(tag) => self.port.reissue(*tag).err().map(Fault::Reissue),
            Call::Identify => self.port.identify().err().map(Fault::Plain),
            Call::Flush => self.port.flush().err().map(Fault::Plain),
            Call::Acknowledge(mask) => {
                self.port.acknowledge(*mask);
                None
            }
            Call::Trim => self.trim(rt)?.map(Fault::Trim),
            Call::Reset => self.reset(rt)?.map(Fault::Reset),
        })
    }

    /// Trims the port. Its image is then the starting one, and its entries are in the journal that it hands out.
    fn trim(&mut self, rt: &impl Abort) -> Result<Option<TrimFault>, Fail> {
        let journal = match self.port.trim() {
            Ok(journal) => journal,
            Err(fault) => return Ok(Some(fault)),
        };
        self.begin_again(rt, &journal)?;
        Ok(None)
    }

    /// Resets the port, in whatever phase its requests are. It then shows what a new port over its image shows.
    fn reset(&mut self, rt: &impl Abort) -> Result<Option<ResetFault>, Fail> {
        let journal = match self.port.reset() {
            Ok(journal) => journal,
            Err(fault) => return Ok(Some(fault)),
        };
        self.begin_again(rt, &journal)?;
        let fresh = Story::new(self.alloc, self.port.depth())?;
        equal(rt, self.events.len(), &self.shown(), &fresh.shown());
        Ok(None)
    }

    /// The port's image is the starting one from here on, and its entries are those of a journal that it has handed out.
    fn begin_again(&mut self, rt: &impl Abort, journal: &Journal) -> Result<(), Fail> {
        let found = (journal.first(), journal.end());
        equal(rt, self.events.len(), &found, &(self.first, self.end()));
        let mut image = Vec::new(self.alloc);
        for lba in 0..u64::from(SECTORS) {
            let sector = sector_of(self.image.as_slice(), self.events.as_slice(), lba);
            image.extend_from_slice(sector)?;
        }
        self.first = self.end();
        self.image = image;
        self.events.clear();
        Ok(())
    }

    fn issue(&mut self, rt: &impl Abort, command: Command) -> Result<Option<IssueFault>, Fail> {
        let tag = command.tag;
        let op = op_of(self.alloc, command)?;
        match self.port.submit(tag, op) {
            Ok(number) => {
                equal(rt, self.events.len(), &number, &self.end());
                Ok(None)
            }
            Err((_, SubmitFault::Issue(fault))) => Ok(Some(fault)),
            Err((_, fault)) => Err(Fail::from(fault)),
        }
    }

    fn collect(
        &mut self,
        rt: &impl Abort,
        tag: u8,
        number: u64,
    ) -> Result<Option<CollectFault>, Fail> {
        let (reply, window) = match self.port.collect(tag, number) {
            Ok(collected) => collected,
            Err(fault) => return Ok(Some(fault)),
        };
        let Ok(_command) = window.check() else {
            panic!(rt; "the window of {number} is not fit");
        };
        let text = window.text(self.alloc)?;
        let found = (reply.number, reply.entry, reply.outcome, true);
        let answer = self.answer(number, text.as_slice())?;
        equal(rt, self.events.len(), &Some(found), &answer);
        Ok(None)
    }

    /// The answer of the entries, with its number, and whether the text of its window agrees: a read's has the sectors.
    /// There is none where the entries are not lawful.
    fn answer(
        &self,
        number: u64,
        text: &[u8],
    ) -> Result<Option<(u64, u64, Outcome, bool)>, AllocError> {
        let past = self.events.as_slice();
        let depth = self.port.depth();
        if depth > 32 || !is_lawful(SECTORS, depth, past) {
            return Ok(None);
        }
        let place = number.wrapping_sub(self.first);
        let Some(answer) = answer_of(self.alloc, self.image.as_slice(), past, place)? else {
            return Ok(None);
        };
        let agrees = match answer.outcome() {
            Outcome::Read => text == answer.bytes(),
            _ => answer.bytes().is_empty(),
        };
        let entry = self.first.wrapping_add(answer.entry());
        Ok(Some((number, entry, answer.outcome(), agrees)))
    }

    /// Makes a call and compares what it leaves. The answer says whether it was taken.
    fn go_on(&mut self, rt: &impl Abort, call: &Call) -> Result<bool, Fail> {
        let wanted = self.fault_of(call);
        let before = self.shown();
        let found = self.make(rt, call)?;
        let taken = found.is_none();
        let keeps = taken || self.shown() == before;
        let appended = self.catch_up(rt, call)?;
        let entries = if taken { entries_of(call) } else { 0 };
        let row = self.events.len();
        equal(rt, row, &(found, keeps, appended), &(wanted, true, entries));
        self.compare(rt);
        for lba in 0..u64::from(SECTORS) {
            self.compare_sector(rt, lba);
        }
        Ok(taken)
    }

    /// Copies the entries of a call, and answers how many it has: no call has more than 32.
    fn catch_up(&mut self, rt: &impl Abort, call: &Call) -> Result<usize, Fail> {
        for index in 0..32usize {
            let end = self.end();
            let Some(event) = self.port.journal().get(end) else {
                return Ok(index);
            };
            equal(rt, self.events.len(), &appends(call, index, event), &true);
            let event = copy_of(self.alloc, event)?;
            self.events.push(event)?;
        }
        Ok(32)
    }

    /// Compares the entries' first number and how many there are, PxSACT, PxCI, `halted`, the room and the owners with the
    /// plain functions over the entries.
    fn compare(&self, rt: &impl Abort) {
        let past = self.events.as_slice();
        let port = &self.port;
        let journal = port.journal();
        let words = (port.register(0x134), port.register(0x138));
        let room = u64::from(owed_by(past)) <= journal.room();
        let found = (journal.first(), journal.len(), words, port.halted(), room);
        let words = (Ok(sact_of(past)), Ok(ci_of(past)));
        let wanted = (self.first, past.len() as u64, words, is_halted(past), true);
        equal(rt, past.len(), &found, &wanted);
        for tag in 0..40u8 {
            equal(
                rt,
                past.len(),
                &(tag, port.owner(tag)),
                &(tag, self.owner(tag)),
            );
        }
    }

    /// The number of the request that owns a tag, by the entries.
    fn owner(&self, tag: u8) -> Option<u64> {
        match phase_of(self.events.as_slice(), tag) {
            Phase::Free => None,
            _ => self.number_of(tag),
        }
    }

    fn compare_sector(&self, rt: &impl Abort, lba: u64) {
        let mut sector = [0; 512];
        assert!(rt; lba < u64::from(self.port.sectors()));
        self.port.copy(lba, &mut sector);
        let wanted = sector_of(self.image.as_slice(), self.events.as_slice(), lba);
        equal_bytes(rt, self.events.len(), &sector, wanted);
    }
}

/// The kinds of calls that were taken, and of those that were refused.
type Kinds = (u32, u32);

/// So many calls on a new port, and the kinds of these and of the calls before.
fn run(
    rt: &impl Abort,
    alloc: Global,
    seed: u64,
    (depth, calls): (u32, u32),
    kinds: Kinds,
) -> Result<Kinds, Fail> {
    let mut story = Story::new(alloc, depth)?;
    let mut picks = Picks::from_seed(seed);
    let (mut taken, mut refused) = kinds;
    for _ in 0..calls {
        let call = picks.call(&story.port, story.events.as_slice());
        if story.go_on(rt, &call)? {
            taken |= call.kind();
        } else {
            refused |= call.kind();
        }
    }
    assert!(rt; depth <= 32 && is_lawful(SECTORS, depth, story.events.as_slice()));
    Ok((taken, refused))
}

/// All kinds of calls but the Serve of no tag and that of one twice, which are never taken.
const TAKEN: u32 = 0x67FF;

/// All kinds of calls but the acknowledgment of interrupts and a reset, which are never refused here.
const REFUSED: u32 = 0x3DFF;

// A port of one slot has no held command to issue again, and never two commands to serve.
#[test]
fn the_port_agrees_with_its_journal(rt: HostRuntime) -> Result<(), Fail> {
    for (depth, taken) in [(1, 0x63BF), (4, TAKEN), (32, TAKEN)] {
        let mut kinds = (0, 0);
        for seed in 1..=8 {
            kinds = run(&rt, rt.alloc(), seed, (depth, 150), kinds)?;
        }
        equal(&rt, depth as usize, &kinds, &(taken, REFUSED));
    }
    Ok(())
}

// Each depth has other tags that the port has not.
#[test]
fn the_port_agrees_with_its_journal_at_each_depth(rt: HostRuntime) -> Result<(), Fail> {
    let mut kinds = (0, 0);
    for depth in 1..=32u32 {
        let seed = 100 + u64::from(depth);
        kinds = run(&rt, rt.alloc(), seed, (depth, 60), kinds)?;
    }
    equal(&rt, 32, &kinds, &(TAKEN, REFUSED));
    Ok(())
}
