ghost use Rattle.std.specs.Prelude.{◌≡◌};
ghost use Rattle.hba_command.specs.Identity.{usual_identity};

/// How IDENTIFY DEVICE names the disk: texts of ASCII, filled up with spaces (ACS-3, "IDENTIFY DEVICE", words 10 to 19, 23 to 46 and 217).
#[derive(Clone, Copy, Debug, PartialEq, Eq)]
pub struct Identity {
    /// Serial number.
    pub serial: [u8; 20],
    /// Firmware revision.
    pub firmware: [u8; 8],
    /// Model number.
    pub model: [u8; 40],
    /// Nominal media rotation rate: 0 of a disk that doesn't report it, 1 of one that doesn't rotate, else revolutions a minute.
    pub rotation: u16,
}

impl Identity {
    /// That of a disk which nobody has named.
    pub fn new() -> Self
        ensures { result ≡ usual_identity }
    {
        Identity {
            serial: *b"00000001            ",
            firmware: *b"1.0     ",
            model: *b"SOFTWARE NCQ DISK                       ",
            rotation: 0,
        }
    }
}
