ghost use Rattle.std.specs.Prelude.{◌≡◌, [], ◌∷◌};

use arrayvec::ArrayVec;

/// What the device does next with a tag's command, or with those of some tags.
#[derive(Clone, Debug, PartialEq, Eq, Drop)]
pub enum DeviceStep {
    /// It takes the command, or refuses it where it passes the last sector.
    Accept(u8),
    /// It moves the data of the commands of 1 to 32 tags and completes them, in the list's order, by one Set Device Bits
    /// FIS.
    Serve(ArrayVec<u8, 32>),
    /// It fails the command with an error byte at one of its sectors, whose LBA is `at`.
    Fail { tag: u8, error: u8, at: u64 },
}

impl DeviceStep {
    /// A Serve of one tag alone.
    pub fn serve_one(tag: u8) -> Self
        ensures { result ≡ DeviceStep.Serve (record { items = tag ∷ [] }) }
    {
        let mut tags = ArrayVec::new();
        tags.push(tag);
        DeviceStep::Serve(tags)
    }
}

/// What the device did, with the number of the journal's entry.
#[derive(Clone, Copy, Debug, PartialEq, Eq)]
pub enum Stepped {
    Accepted(u64),
    /// As many commands as `count` are completed, by entries that follow one another from `first` on.
    Completed { first: u64, count: u32 },
    Failed(u64),
}
