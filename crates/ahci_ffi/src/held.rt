ghost use Rattle.std.specs.Prelude.{◌≡◌, None, Some, IsSome, Option};
ghost use Rattle.ahci_port.specs.PortView.{PortView};
ghost use Rattle.ahci_ffi.specs.Held.{port_coded, owned_port};

use crate::bare::Bare;
use ahci_port::Port;
use sector_store::Sectors;
use std::alloc::Global;
use std::marker::Model;
use std::ptr::null_mut;

/// The port that C has: over all bytes of its disk, or over the pages that were written.
pub type CPort = Port<Global, Sectors>;

/// What C keeps of a port: the bare address of its box, or null and nothing. It owns what the box owns.
#[repr(C)]
#[derive(Drop)]
pub struct Held {
    address: *mut u8,
    heap: Global,
    pub ghost port: { Option PortView } by { port_coded },
}

impl Model for Held {
    ghost also_owns = { λ h. owned_port h.heap h.address h.port };
}

// A port is plain data behind its one address.
unsafe impl Send for Held {}

impl Held {
    /// No port.
    pub(crate) fn nothing(heap: Global) -> Held
        ensures { result.port ≡ None }
    {
        let address = null_mut();
        Held { address, heap }
    }

    /// A port.
    pub(crate) fn keep(bare: Bare<CPort, Global>) -> Held
        ensures { result.port ≡ Some bare.value }
    {
        let Bare { typed, heap } = bare;
        let address = typed as *mut u8;
        Held { address, heap }
    }

    /// The port that is held.
    pub(crate) fn give(self) -> Bare<CPort, Global>
        requires { IsSome self.port }
        ensures { self.port ≡ Some result.value }
    {
        let Held { address, heap } = self;
        let typed = address as *mut CPort;
        Bare { typed, heap }
    }
}
