ghost use Rattle.std.specs.Prelude.{◌≡◌};
ghost use Rattle.hba_regs.specs.Writing.{both};

/// What a write means for the commands that are outstanding and for the device.
#[derive(Clone, Copy, PartialEq, Eq, Debug)]
pub enum Consequence {
    /// The commands go on.
    Nothing,
    /// PxCMD.ST was cleared: all commands are dropped (AHCI 1.3.1, section 3.3.7).
    Stopped,
    /// PxSCTL.DET took the link down: all commands are dropped, and the device is reset (section 10.4.2).
    LinkReset,
    /// GHC.HR was set: all commands are dropped, and the HBA and its device are reset (section 10.4.3).
    Reset,
}

impl Consequence {
    /// The consequence of this write and of the next one. Two words of 8 bytes never have one each.
    pub(crate) fn and_then(self, next: Consequence) -> Consequence
        ensures { result ≡ both self next }
    {
        match self {
            Consequence::Nothing => next,
            _ => self,
        }
    }
}
