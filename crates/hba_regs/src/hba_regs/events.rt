//! What the link, the device and the interface do to the registers by themselves. Each call may come at any time, and ends as a write does: IS.IPS is
//! set if an interrupt is pending.

ghost use Rattle.std.specs.Prelude.{◌≡◌};
ghost use Rattle.hba_regs.specs.InterfaceErrors.{accepts_fis, interface_failed, unknown_received};
ghost use Rattle.hba_regs.specs.LinkEvents.{found, lost, plugged, unplugged};
ghost use Rattle.hba_regs.specs.Receiving.{moved};

use super::HbaRegs;
use crate::interface_error::InterfaceError;

impl HbaRegs {
    /// The link is lost: PhyRdy goes away while a device is plugged in (AHCI 1.3.1, sections 3.3.10 and 3.3.12). PRCS reports it, PxTFD.STS is 7Fh,
    /// and a port with ST 1 halts; PxSACT and PxCI stay. Nothing changes if the link isn't up.
    pub fn lose_link(&mut self)
        ensures { self.new ≡ moved self.old (lost self.old.port self.old.port.link) }
    {
        self.port.lose_link();
        self.pending = self.pending || self.port.is_pending();
    }

    /// The link is found again: the device that is plugged in sends COMINIT by itself (sections 6.2.2 and 10.10.1). If the port listens, the link comes
    /// up as after a COMRESET, which PCS and PRCS report, and the signature is due; with SUD 0 only PCS reports it. Else nothing changes.
    pub fn find_link(&mut self)
        ensures { self.new ≡ moved self.old (found self.old.port) }
    {
        self.port.find_link();
        self.pending = self.pending || self.port.is_pending();
    }

    /// The device is unplugged (chapter 7): a link that is up is lost, and no write brings it up until a device is plugged in.
    pub fn unplug(&mut self)
        ensures { self.new ≡ moved self.old (unplugged self.old.port) }
    {
        self.port.unplug();
        self.pending = self.pending || self.port.is_pending();
    }

    /// A device is plugged in (chapter 7), and sends COMINIT, as `find_link` says.
    pub fn plug(&mut self)
        ensures { self.new ≡ moved self.old (plugged self.old.port) }
    {
        self.port.plug();
        self.pending = self.pending || self.port.is_pending();
    }

    /// The interface fails under a FIS, while the link is up (sections 6.1.2 and 6.2.1): PxSERR has the error. A fatal one, as in a Data FIS, sets IFS, and
    /// a port with ST 1 halts; one from which the interface has recovered, as in any other FIS, sets INFS, and the port goes on.
    pub fn fail_interface(&mut self, error: InterfaceError, is_fatal: bool)
        ensures { self.new ≡ moved self.old (interface_failed error is_fatal self.old.port) }
    {
        self.port.fail_interface(error, is_fatal);
        self.pending = self.pending || self.port.is_pending();
    }

    /// Takes a FIS of a type that isn't known, once it is posted at PxFB + 60h (sections 3.3.5, UFS, and 4.2.1): DIAG.F and UFS are set, and the port goes
    /// on. Nothing changes if no FIS is accepted (`accepts_fis`).
    pub fn receive_unknown(&mut self)
        ensures { self.new ≡ moved self.old (unknown_received self.old.port) }
    {
        self.port.receive_unknown();
        self.pending = self.pending || self.port.is_pending();
    }

    /// Whether the port accepts a FIS of the device: the link is up, FRE is 1, and the port isn't halted with ST 1.
    pub fn accepts_fis(&self) -> bool
        ensures { result ≡ accepts_fis self.now.port }
    {
        self.port.accepts_fis()
    }

    /// Whether a device is plugged in.
    pub fn is_present(&self) -> bool
        ensures { result ≡ self.now.port.present }
    {
        self.port.is_present()
    }
}
