/// How the data of a command that is not queued moves (ACS-3, "Command protocol").
#[derive(Clone, Copy, Debug, PartialEq, Eq)]
pub enum Protocol {
    /// A PIO Setup FIS comes before each block of one sector.
    Pio,
    /// The same, and a block has as many sectors as SET MULTIPLE MODE has set; the last one may have fewer.
    Multiple,
    /// A D2H Register FIS comes after the data.
    Dma,
}
