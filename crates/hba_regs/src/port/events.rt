//! What becomes of the port's registers when the link or the device comes or goes, and when the interface fails.

ghost use Rattle.std.specs.Prelude.{◌≡◌, ◌<◌, false, true};
ghost use Rattle.word_bits.specs.Places.{bits, with_place};
ghost use Rattle.hba_regs.specs.InterfaceErrors.{accepts_fis, interface_failed, reported, unknown_received};
ghost use Rattle.hba_regs.specs.LinkEvents.{cominit, found, lost, plugged, unplugged};
ghost use Rattle.hba_regs.specs.Linking.{is_up};
ghost use Rattle.hba_regs.specs.PortStates.{err_wait_for_clear};
ghost use Rattle.hba_regs.specs.declared.link.Link.TheVariants.{Up};

use super::{DIAG_F, DIAG_N, DIAG_X, IFS, INFS, NO_SIGNATURE, Port};
use crate::interface_error::InterfaceError;
use crate::link::Link;
use crate::signature::Signature;
use crate::soft_reset::SoftReset;
use word_bits::with_bit;

impl Port {
    /// PhyRdy goes away.
    pub fn lose_link(&mut self)
        ensures { self.new ≡ lost self.old self.old.link }
    {
        match self.link {
            Link::Up => self.lose_phy(),
            Link::Listening | Link::InReset | Link::Offline => {}
        }
    }

    /// A device that is plugged in makes itself known.
    pub fn find_link(&mut self)
        ensures { self.new ≡ found self.old }
    {
        if self.present {
            self.detect();
        }
    }

    /// The device is gone.
    pub fn unplug(&mut self)
        ensures { self.new ≡ unplugged self.old }
    {
        match self.link {
            Link::Up => {
                self.lose_phy();
                self.leave();
            }
            Link::Listening | Link::InReset | Link::Offline => self.leave(),
        }
    }

    /// A device is plugged in.
    pub fn plug(&mut self)
        ensures { self.new ≡ plugged self.old }
    {
        self.arrive();
        self.detect();
    }

    /// The interface fails under a FIS.
    pub fn fail_interface(&mut self, error: InterfaceError, is_fatal: bool)
        ensures { self.new ≡ interface_failed error is_fatal self.old }
    {
        match self.link {
            Link::Up => self.report(error, is_fatal),
            Link::Listening | Link::InReset | Link::Offline => {}
        }
    }

    /// Whether a FIS of the device is accepted.
    pub fn accepts_fis(&self) -> bool
        ensures { result ≡ accepts_fis self.now }
    {
        match self.link {
            Link::Up => self.receiving && !(self.started && self.halted),
            Link::Listening | Link::InReset | Link::Offline => false,
        }
    }

    /// A FIS of a type that isn't known is received.
    pub fn receive_unknown(&mut self)
        ensures { self.new ≡ unknown_received self.old }
    {
        if self.accepts_fis() {
            self.diagnose(DIAG_F);
        }
    }

    /// The link is lost, and what was known of the device is gone.
    #[tactic(auto, using(crate::proofs::StateLemmas::may_listen))]
    fn lose_phy(&mut self)
        requires { self.old.link ≡ Up }
        ensures { self.new ≡ lost self.old Up }
    {
        self.wait_for_clear();
        self.link = Link::Listening;
        self.serr = with_bit(self.serr, DIAG_N);
        self.status = 0x7f;
        self.error = 0;
        self.signature = NO_SIGNATURE;
        self.first_fis = Signature::Past;
        self.soft = SoftReset::Off;
    }

    /// COMINIT is received.
    #[tactic(auto, using(crate::proofs::StateLemmas::may_come_up))]
    fn detect(&mut self)
        requires { self.old.present ≡ true }
        ensures { self.new ≡ cominit self.old self.old.link }
    {
        match self.link {
            Link::Listening if self.spun_up => self.come_up(self.control, true),
            Link::Listening => self.diagnose(DIAG_X),
            Link::Up | Link::InReset | Link::Offline => {}
        }
    }

    /// A device is there.
    #[tactic(auto, using(crate::proofs::StateLemmas::stays_asked))]
    fn arrive(&mut self)
        ensures { self.new ≡ record self.old { present = true } }
    {
        self.present = true;
    }

    /// None is, and the link isn't up.
    #[tactic(auto, using(crate::proofs::StateLemmas::stays_asked))]
    fn leave(&mut self)
        requires { is_up self.old.link ≡ false }
        ensures { self.new ≡ record self.old { present = false } }
    {
        self.present = false;
    }

    /// Sets a bit of PxSERR.
    fn diagnose(&mut self, place: u8)
        requires { place < 32 }
        ensures { self.new ≡ record self.old { serr = with_place self.old.serr place } }
    {
        self.serr = with_bit(self.serr, place);
    }

    /// ERR:WaitForClear: no command is processed until ST is cleared, if it is set.
    fn wait_for_clear(&mut self)
        ensures { self.new ≡ err_wait_for_clear self.old }
    {
        self.halted = self.halted || self.started;
    }

    /// PxSERR and PxIS have the error, and a fatal one stops the port.
    fn report(&mut self, error: InterfaceError, is_fatal: bool)
        requires { self.old.link ≡ Up }
        ensures { self.new ≡ interface_failed error is_fatal self.old }
    {
        self.serr = reported(self.serr, error, is_fatal);
        if is_fatal {
            self.raise(IFS, true);
            self.wait_for_clear();
        } else {
            self.raise(INFS, true);
        }
    }
}

/// PxSERR with an error.
fn reported(serr: u32, error: InterfaceError, is_fatal: bool) -> u32
    ensures { bits result ≡ reported error is_fatal (bits serr) }
{
    with_bit(with_bit(serr, error.diag()), error.err(is_fatal))
}
