ghost use Rattle.std.specs.Prelude.{◌≡◌};
ghost use Rattle.hba_regs.specs.Interrupts.{place_of};

/// The errors that halt the port by themselves (AHCI 1.3.1, sections 6.1 and 6.2.1).
#[derive(Clone, Copy, PartialEq, Eq, Debug)]
pub enum Fatal {
    /// Host Bus Fatal Error: the HBA can't go on from a fault of the host's bus.
    HostBusFatal,
    /// Host Bus Data Error: data from or to the host's memory was bad.
    HostBusData,
    /// Interface Fatal Error: the link failed under a FIS.
    Interface,
}

impl Fatal {
    /// The error's bit in PxIS (section 3.3.5).
    #[tactic(auto)]
    pub fn place(self) -> u8
        ensures { result ≡ place_of self }
    {
        match self {
            Fatal::HostBusFatal => 29,
            Fatal::HostBusData => 28,
            Fatal::Interface => 27,
        }
    }
}
