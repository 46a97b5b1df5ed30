/// What software put where the device found it, for a command that is not queued (AHCI 1.3.1, sections 4.2.2 and 4.2.3).
#[derive(Clone, Copy, Debug, PartialEq, Eq)]
pub struct Sent {
    /// The command header, in slot 0 of the command list.
    pub header: [u8; 32],
    /// The command FIS: the first 20 bytes of CFIS in slot 0's table.
    pub cfis: [u8; 20],
    /// The entry of the table's PRDT, which counts where PRDTL of the header is 1.
    pub entry: [u8; 16],
}
