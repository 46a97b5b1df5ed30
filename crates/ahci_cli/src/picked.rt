use ahci_args::Pick;
use ahci_driver::{All, Chooser, High, Low};
use ahci_port::DeviceStep;

/// The chooser that a command line picks.
#[derive(Clone, Copy, Debug, Drop)]
pub(crate) struct Picked {
    pub(crate) pick: Pick,
}

impl Chooser for Picked {
    ghost use Rattle.ahci_cli.specs.Picking.{IsStepOf};

    ghost gives = { λ old issued accepted step new. IsStepOf old.pick issued accepted step };

    fn next(&mut self, issued: u32, accepted: u32) -> DeviceStep {
        match self.pick {
            Pick::Low => Low.next(issued, accepted),
            Pick::High => High.next(issued, accepted),
            Pick::All => All.next(issued, accepted),
        }
    }
}
