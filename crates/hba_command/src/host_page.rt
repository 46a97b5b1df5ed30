/// A page that the host has written to one of its logs.
#[derive(Clone, Copy)]
pub struct HostPage {
    /// The log, 80h to 9Fh.
    pub log: u8,
    /// The number of the page.
    pub number: u32,
    /// What it has.
    pub bytes: [u8; 512],
}
