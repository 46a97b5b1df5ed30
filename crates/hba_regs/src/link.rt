ghost use Rattle.std.specs.Prelude.{◌≡◌};
ghost use Rattle.hba_regs.specs.HbaState.{asked_link, spun_link};
ghost use Rattle.hba_regs.specs.Reading.{link_word};

/// The link to the device, as PxSCTL.DET, PxCMD.SUD and the device have left it (AHCI 1.3.1, sections 3.3.10, 3.3.11 and 10.10).
#[derive(Clone, Copy, PartialEq, Eq, Debug)]
pub enum Link {
    /// The device is there, and the link is active.
    Up,
    /// There is none, and the port listens: the device waits for SUD (section 10.10.1), or it is gone.
    Listening,
    /// COMRESET is sent, for as long as DET is 1.
    InReset,
    /// The interface is disabled.
    Offline,
}

impl Link {
    /// The link after a value of PxSCTL.DET is written, with a device or without one, and with this SUD.
    pub(crate) fn asked(self, det: u32, present: bool, spun_up: bool) -> Link
        ensures { result ≡ asked_link det present spun_up self }
    {
        match det {
            0 => self.spun(present, spun_up),
            1 => Link::InReset,
            4 => Link::Offline,
            _ => self,
        }
    }

    /// The link while DET is 0.
    fn spun(self, present: bool, spun_up: bool) -> Link
        ensures { result ≡ spun_link present spun_up self }
    {
        match self {
            Link::Up => Link::Up,
            Link::Listening => Link::Listening,
            Link::InReset | Link::Offline if present && spun_up => Link::Up,
            Link::InReset | Link::Offline => Link::Listening,
        }
    }

    /// PxSSTS, of a link that is active at this generation.
    pub(crate) fn status(self, speed: u8) -> u32
        ensures { result ≡ link_word self speed }
    {
        match self {
            Link::Up => 0x0000_0103 + (u32::from(speed) << 4),
            Link::Listening | Link::InReset => 0,
            Link::Offline => 0x0000_0004,
        }
    }
}
