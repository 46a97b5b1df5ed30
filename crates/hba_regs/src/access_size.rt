ghost use Rattle.std.specs.Prelude.{◌≡◌};
ghost use Rattle.hba_regs.specs.Accessing.{bytes_of, size_of};

/// How many bytes an access reads or writes.
#[derive(Clone, Copy, PartialEq, Eq, Debug)]
pub enum AccessSize {
    One,
    Two,
    Four,
    Eight,
}

impl AccessSize {
    /// The size of so many bytes, or `None` if no access has it.
    pub fn of(bytes: u32) -> Option<AccessSize>
        ensures { result ≡ size_of bytes }
    {
        match bytes {
            1 => Some(AccessSize::One),
            2 => Some(AccessSize::Two),
            4 => Some(AccessSize::Four),
            8 => Some(AccessSize::Eight),
            _ => None,
        }
    }

    /// The size as a number of bytes.
    pub fn bytes(self) -> u32
        ensures { result ≡ bytes_of self }
    {
        match self {
            AccessSize::One => 1,
            AccessSize::Two => 2,
            AccessSize::Four => 4,
            AccessSize::Eight => 8,
        }
    }
}
