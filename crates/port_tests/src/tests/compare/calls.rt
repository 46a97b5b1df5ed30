//! The calls of a run, as a generator picks them.
ghost use Rattle.std.specs.Prelude.{◌<◌};

use ahci_port::{
    CollectFault, DeviceStep, IssueFault, PlainFault, Port, RecoverFault, ReissueFault, ResetFault,
    StepFault, TrimFault,
};
use arrayvec::ArrayVec;
use ncq_journal::{Event, Phase, phase_of, request_of};

/// How many sectors the disk of a run has.
pub const SECTORS: u32 = 24;

/// A linear congruential generator: each run of a seed has the same numbers.
#[derive(Drop)]
pub struct Picks {
    state: u64,
}

/// A command: its tag, LBA and count, and for a write the byte from which its data are made.
#[derive(Clone, Copy)]
pub struct Command {
    pub tag: u8,
    pub lba: u64,
    pub sectors: u32,
    pub byte: Option<u8>,
}

/// A call of a port.
#[derive(Drop)]
pub enum Call {
    Issue(Command),
    Step(DeviceStep),
    Collect(u8, u64),
    Recover,
    Reissue(u8),
    Identify,
    Flush,
    Acknowledge(u32),
    Trim,
    Reset,
}

/// Why a call is refused.
#[derive(Clone, Copy, Debug, PartialEq, Eq)]
pub enum Fault {
    Issue(IssueFault),
    Step(StepFault),
    Collect(CollectFault),
    Recover(RecoverFault),
    Reissue(ReissueFault),
    Plain(PlainFault),
    Trim(TrimFault),
    Reset(ResetFault),
}

impl Call {
    /// The bit of this kind of call.
    pub fn kind(&self) -> u32 {
        match self {
            Call::Issue(_) => 0x001,
            Call::Step(DeviceStep::Accept(_)) => 0x002,
            Call::Step(DeviceStep::Serve(tags)) => kind_of_list(tags),
            Call::Step(DeviceStep::Fail { .. }) => 0x008,
            Call::Collect(..) => 0x010,
            Call::Recover => 0x020,
            Call::Reissue(_) => 0x040,
            Call::Identify => 0x080,
            Call::Flush => 0x100,
            Call::Acknowledge(_) => 0x200,
            Call::Trim => 0x2000,
            Call::Reset => 0x4000,
        }
    }
}

/// The bit of a Serve of one tag, of some, of none, or of one twice.
fn kind_of_list(tags: &[u8]) -> u32 {
    match tags.len() {
        0 => 0x800,
        1 => 0x004,
        _ if names_twice(tags) => 0x1000,
        _ => 0x400,
    }
}

/// Whether a list names a tag twice.
pub fn names_twice(tags: &[u8]) -> bool {
    for index in 0..tags.len() {
        if tags[..index].contains(&tags[index]) {
            return true;
        }
    }
    false
}

/// Whether every slot is free.
pub fn is_vacant(events: &[Event]) -> bool {
    (0..32u8).all(|tag| phase_of(events, tag) == Phase::Free)
}

impl Picks {
    pub fn from_seed(seed: u64) -> Self {
        Picks { state: seed }
    }

    /// A number below `count`: the upper half of the state, since the lower bits repeat soon.
    pub fn below(&mut self, count: u32) -> u32
        requires { 0 < count }
        ensures { result < count }
    {
        let product = self.state.wrapping_mul(6_364_136_223_846_793_005);
        self.state = product.wrapping_add(1_442_695_040_888_963_407);
        (self.state >> 32) as u32 % count
    }

    /// A tag, in one of eight picks the first that the port has not.
    fn tag(&mut self, depth: u32) -> u8 {
        let depth = depth.min(32);
        let tag = match self.below(8) {
            0 => depth,
            _ if depth == 0 => 0,
            _ => self.below(depth),
        };
        tag as u8
    }

    /// A command of 1 to 3 sectors, of which some pass the last sector.
    fn command(&mut self, tag: u8) -> Command {
        let lba = match self.below(16) {
            0 => SECTORS - 2 + self.below(4),
            _ => self.below(SECTORS - 2),
        };
        let byte = match self.below(2) {
            0 => None,
            _ => Some(self.below(256) as u8),
        };
        Command {
            tag: tag.min(31),
            lba: u64::from(lba),
            sectors: 1 + self.below(3),
            byte,
        }
    }

    /// A failure of a tag's command, in most picks at its first sector.
    fn failure(&mut self, events: &[Event], tag: u8) -> DeviceStep {
        let error = self.below(256) as u8;
        let at = match request_of(events, tag) {
            Some(request) if self.below(4) != 0 => request.op().lba(),
            _ => u64::from(self.below(SECTORS)),
        };
        DeviceStep::Fail { tag, error, at }
    }

    /// A Serve of a list that begins with this tag and goes on with up to three more.
    fn service(&mut self, depth: u32, events: &[Event], tag: u8) -> DeviceStep {
        let mut tags = ArrayVec::new();
        tags.push(tag);
        for _ in 0..self.below(4) {
            if let Some(other) = self.other(depth, events, &tags) {
                let _ = tags.try_push(other);
            }
        }
        DeviceStep::Serve(tags)
    }

    /// A tag to go on with: an accepted one that the list has not, if there is one; in one of eight picks the list's first tag
    /// once more, and in two any tag.
    fn other(&mut self, depth: u32, events: &[Event], tags: &[u8]) -> Option<u8> {
        let first = self.tag(depth);
        match self.below(8) {
            0 => return tags.first().copied(),
            1..=2 => return Some(first),
            _ => {}
        }
        for step in 0..32u8 {
            let tag = first.wrapping_add(step) % 32;
            if phase_of(events, tag) == Phase::Accepted && !tags.contains(&tag) {
                return Some(tag);
            }
        }
        None
    }

    /// A request of a tag, in most picks the one that owns it.
    fn request(&mut self, port: &Port, tag: u8) -> Call {
        let number = match port.owner(tag) {
            Some(number) if self.below(8) != 0 => number,
            _ => u64::from(self.below(200)),
        };
        Call::Collect(tag, number)
    }

    /// A call of a port whose journal has these events: in three of four picks one that a tag's phase asks for.
    pub fn call(&mut self, port: &Port, events: &[Event]) -> Call {
        let tag = self.tag(port.depth());
        match self.below(4) {
            0 => self.any_call(port, events, tag),
            _ => self.next_call(port, events, tag),
        }
    }

    /// The call that comes next for a tag; now and then a recovery where the port is halted, a command that is not queued where
    /// no tag is outstanding, and a trim where every slot is free.
    fn next_call(&mut self, port: &Port, events: &[Event], tag: u8) -> Call {
        match self.below(8) {
            0..=1 if port.halted() => return Call::Recover,
            2 if port.register(0x134) == Ok(0) => return Call::Identify,
            3 if port.register(0x134) == Ok(0) => return Call::Flush,
            4 if is_vacant(events) => return Call::Trim,
            _ => {}
        }
        match phase_of(events, tag) {
            Phase::Free => Call::Issue(self.command(tag)),
            Phase::Issued => Call::Step(DeviceStep::Accept(tag)),
            Phase::Accepted if self.below(8) == 0 => Call::Step(self.failure(events, tag)),
            Phase::Accepted => Call::Step(self.service(port.depth(), events, tag)),
            Phase::Held => Call::Reissue(tag),
            Phase::Rejected | Phase::Broken | Phase::Done => self.request(port, tag),
        }
    }

    /// Any call, whether it fits or not.
    fn any_call(&mut self, port: &Port, events: &[Event], tag: u8) -> Call {
        match self.below(18) {
            0 => Call::Issue(self.command(tag)),
            1 => Call::Step(DeviceStep::Accept(tag)),
            2 => Call::Step(self.service(port.depth(), events, tag)),
            3 => Call::Step(self.failure(events, tag)),
            4..=5 => self.request(port, tag),
            6..=7 => Call::Recover,
            8..=9 => Call::Reissue(tag),
            10..=11 => Call::Identify,
            12 => Call::Step(DeviceStep::Serve(ArrayVec::new())),
            13..=14 => Call::Flush,
            15 => Call::Trim,
            16 => Call::Reset,
            _ => Call::Acknowledge(1 << self.below(32)),
        }
    }
}
