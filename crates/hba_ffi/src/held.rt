ghost use Rattle.std.specs.Prelude.{◌≡◌, None, Some, IsSome, Option};
ghost use Rattle.ahci_hba.specs.HbaView.{HbaView};
ghost use Rattle.hba_ffi.specs.Held.{hba_coded, owned_hba};

use ahci_ffi::Bare;
use ahci_hba::Hba;
use sector_store::Sectors;
use std::alloc::Global;
use std::marker::Model;
use std::ptr::null_mut;

/// The controller that C has: over all bytes of its disk, or over the pages that were written.
pub type CHba = Hba<Global, Sectors>;

/// What C keeps of a controller: the bare address of its box, or null and nothing. It owns what the box owns.
#[repr(C)]
#[derive(Drop)]
pub struct HeldHba {
    address: *mut u8,
    heap: Global,
    pub ghost hba: { Option HbaView } by { hba_coded },
}

impl Model for HeldHba {
    ghost also_owns = { λ h. owned_hba h.heap h.address h.hba };
}

impl HeldHba {
    /// No controller.
    pub(crate) fn nothing(heap: Global) -> HeldHba
        ensures { result.hba ≡ None }
    {
        let address = null_mut();
        HeldHba { address, heap }
    }

    /// A controller.
    pub(crate) fn keep(bare: Bare<CHba, Global>) -> HeldHba
        ensures { result.hba ≡ Some bare.value }
    {
        let Bare { typed, heap } = bare;
        let address = typed as *mut u8;
        HeldHba { address, heap }
    }

    /// The controller that is held.
    pub(crate) fn give(self) -> Bare<CHba, Global>
        requires { IsSome self.hba }
        ensures { self.hba ≡ Some result.value }
    {
        let HeldHba { address, heap } = self;
        let typed = address as *mut CHba;
        Bare { typed, heap }
    }
}
