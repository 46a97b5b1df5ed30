//! What software's writes do to the registers of the port.

ghost use Rattle.std.specs.Prelude.{◌≡◌, ◌%◌, ◌^◌, ◌<◌, ◌≤◌, false, true, not, ◌&&◌, ◌||◌, bit_and, if◌then◌else◌};
ghost use Rattle.word_bits.specs.Places.{bits, has_place, intersection, minus, only_below, union};
ghost use Rattle.hba_regs.specs.HbaState.{asked_link, enables, speed_for};
ghost use Rattle.hba_regs.specs.Linking.{came_up, is_up, spun_up, went_down};
ghost use Rattle.hba_regs.specs.Writing.{commanded_by, continued, port_changed, port_consequence, powered_by, remaining, spins_up, with_clb, with_clbu, with_command, with_control, with_fb, with_fbu};
ghost use Rattle.hba_regs.specs.declared.link.Link.TheVariants.{Up};

use super::{DIAG_N, LINK_CHANGED, NO_SIGNATURE, Port, raised};
use crate::consequence::Consequence;
use crate::link::Link;
use crate::register::Register;
use crate::signature::Signature;
use crate::soft_reset::SoftReset;
use crate::words::{with_lower, with_upper};
use word_bits::{below, is_set};

/// The bits that PxIE has.
const ENABLES: u32 = 0x7dc0_007f;

impl Port {
    /// Takes a word that software writes to a register of the port; a read-only register stays as it is, and so does the port at
    /// a register of the HBA.
    pub fn write(&mut self, register: Register, value: u32) -> Consequence
        ensures state { self.new ≡ port_changed self.old value register }
        ensures consequence { result ≡ port_consequence self.old value register }
    {
        match register {
            Register::PxClb => self.move_list(with_lower(self.clb, value & !0x3ff)),
            Register::PxClbu => self.move_list_far(value),
            Register::PxFb => self.move_received(with_lower(self.fb, value & !0xff)),
            Register::PxFbu => self.move_received_far(value),
            Register::PxIs => self.acknowledge(value),
            Register::PxIe => self.enable(value),
            Register::PxCmd => return self.write_command(value),
            Register::PxTfd | Register::PxSig | Register::PxSsts => {}
            Register::PxSctl => return self.write_control(value),
            Register::PxSerr => self.clear_errors(value),
            Register::PxSact if self.started => self.activate(value),
            Register::PxCi if self.started => self.issue(value),
            Register::PxSact | Register::PxCi => {}
            Register::Cap | Register::Ghc | Register::Is | Register::Pi | Register::Vs => {}
        }
        Consequence::Nothing
    }

    /// The command list stays where it is while ST is 1 (section 3.3.1).
    fn move_list(&mut self, base: u64)
        requires aligned { base % 2 ^ 10 ≡ 0 }
        requires reach { self.old.capabilities.s64a ≡ false → base < 2 ^ 32 }
        ensures { self.new ≡ with_clb self.old base }
    {
        if !self.started {
            self.clb = base;
        }
    }

    /// Its upper word, which is there with CAP.S64A alone (section 3.3.2).
    fn move_list_far(&mut self, word: u32)
        ensures { self.new ≡ with_clbu self.old word }
    {
        if self.capabilities.s64a {
            self.move_list(with_upper(self.clb, word));
        }
    }

    /// The received FIS area stays where it is while FRE is 1 (section 3.3.3).
    fn move_received(&mut self, base: u64)
        requires aligned { base % 2 ^ 8 ≡ 0 }
        requires reach { self.old.capabilities.s64a ≡ false → base < 2 ^ 32 }
        ensures { self.new ≡ with_fb self.old base }
    {
        if !self.receiving {
            self.fb = base;
        }
    }

    /// Its upper word, which is there with CAP.S64A alone (section 3.3.4).
    fn move_received_far(&mut self, word: u32)
        ensures { self.new ≡ with_fbu self.old word }
    {
        if self.capabilities.s64a {
            self.move_received(with_upper(self.fb, word));
        }
    }

    /// Writing 1 to a bit of PxIS clears it (section 3.3.5).
    fn acknowledge(&mut self, value: u32)
        ensures { self.new ≡ record self.old { is = minus self.old.is (bits value) } }
    {
        self.is = without(self.is, value);
    }

    /// PxIE keeps the bits that it has (section 3.3.6).
    fn enable(&mut self, value: u32)
        ensures { self.new ≡ record self.old { ie = intersection (bits value) enables } }
    {
        self.ie = enabled(value);
    }

    /// PxCMD (section 3.3.7).
    fn write_command(&mut self, value: u32) -> Consequence
        ensures state { self.new ≡ with_command self.old value }
        ensures consequence { result ≡ port_consequence self.old value Register.PxCmd }
    {
        let resets = self.spins_up(value) && matches!(self.link, Link::Up);
        let stops = self.started && !is_set(value, 0);
        self.set_command(value);
        self.set_power(value);
        if resets {
            Consequence::LinkReset
        } else if stops {
            Consequence::Stopped
        } else {
            Consequence::Nothing
        }
    }

    /// ST, FRE, CLO, ATAPI and DLAE of PxCMD.
    #[tactic(auto, using(crate::proofs::StateLemmas::remaining_below))]
    fn set_command(&mut self, value: u32)
        ensures { self.new ≡ commanded_by self.old value }
    {
        let starts = is_set(value, 0);
        let stops = self.started && !starts;
        self.status = cleared(self.status, self.capabilities.sclo && is_set(value, 3));
        self.sact = remaining(self.sact, stops);
        self.ci = remaining(self.ci, stops);
        self.current = if stops { 0 } else { self.current };
        self.first = if stops { 0 } else { self.first };
        self.soft = continued(self.soft, stops);
        self.halted = self.halted && self.started && starts;
        self.started = starts;
        self.receiving = is_set(value, 4);
        self.atapi = is_set(value, 24);
        self.drives_led = is_set(value, 25);
    }

    /// SUD, ALPE and ASP of PxCMD.
    #[tactic(auto, using(crate::proofs::StateLemmas::and_kept, crate::proofs::StateLemmas::or_kept))]
    fn set_power(&mut self, value: u32)
        ensures { self.new ≡ powered_by self.old value }
    {
        let capabilities = self.capabilities();
        let spun_up = either(!capabilities.sss, is_set(value, 1));
        let alpe = both(capabilities.salp, is_set(value, 26));
        let asp = both(capabilities.salp, is_set(value, 27));
        self.set_saving(alpe, asp);
        if !self.spun_up && spun_up {
            self.spin_up();
        } else {
            self.keep_link(spun_up);
        }
    }

    /// Whether a value of PxCMD sets SUD from 0 to 1.
    fn spins_up(&self, value: u32) -> bool
        ensures { result ≡ spins_up self.now value }
    {
        !self.spun_up && either(!self.capabilities.sss, is_set(value, 1))
    }

    /// ALPE and ASP, which are 0 unless CAP.SALP is 1.
    fn set_saving(&mut self, alpe: bool, asp: bool)
        requires alpe { (self.old.capabilities.salp && alpe) ≡ alpe }
        requires asp { (self.old.capabilities.salp && asp) ≡ asp }
        ensures { self.new ≡ record self.old { alpe = alpe; asp = asp } }
    {
        self.saves_power = alpe;
        self.slumbers = asp;
    }

    /// SUD that doesn't go from 0 to 1 leaves the link.
    fn keep_link(&mut self, spun_up: bool)
        requires stays { (not self.old.sud && spun_up) ≡ false }
        requires power { (not self.old.capabilities.sss || spun_up) ≡ spun_up }
        ensures { self.new ≡ record self.old { sud = spun_up } }
    {
        self.spun_up = spun_up;
    }

    /// SUD goes from 0 to 1: COMRESET is sent, unless DET holds the link in it or has disabled it. Without a device nothing answers.
    #[tactic(auto, using(crate::proofs::StateLemmas::may_come_up))]
    fn spin_up(&mut self)
        ensures { self.new ≡ spun_up (record self.old { sud = true }) self.old.link }
    {
        match self.link {
            Link::Up => {
                self.lose_device();
                self.come_up(self.control, true);
            }
            Link::Listening if self.present => self.come_up(self.control, true),
            Link::Listening | Link::InReset | Link::Offline => self.only_spin(),
        }
    }

    /// SUD is 1 while no device is there, or DET holds the link in COMRESET or has disabled it.
    fn only_spin(&mut self)
        ensures { self.new ≡ record self.old { sud = true } }
    {
        self.spun_up = true;
    }

    /// PxSCTL: DET moves the link (section 3.3.11).
    fn write_control(&mut self, value: u32) -> Consequence
        ensures state { self.new ≡ with_control self.old value }
        ensures consequence { result ≡ port_consequence self.old value Register.PxSctl }
    {
        let control = value & 0xf_ffff;
        let next = self.link.asked(value & 0xf, self.present, self.spun_up);
        match (self.link, next) {
            (Link::Up, Link::Up)
            | (Link::Listening, Link::Listening)
            | (Link::InReset, Link::InReset)
            | (Link::Offline, Link::Offline) => {
                self.control = control;
                Consequence::Nothing
            }
            (_, Link::Up) => {
                self.come_up(control, self.spun_up);
                Consequence::Nothing
            }
            _ => {
                self.go_down(control, next);
                Consequence::LinkReset
            }
        }
    }

    /// Writing 1 to a bit of PxSERR clears it (section 3.3.12).
    fn clear_errors(&mut self, value: u32)
        ensures { self.new ≡ record self.old { serr = minus self.old.serr (bits value) } }
    {
        self.serr = without(self.serr, value);
    }

    /// Writing 1 to a bit of PxSACT sets it, while ST is 1 (section 3.3.13), if the command list has the slot.
    #[tactic(auto, using(crate::proofs::StateLemmas::gained_below))]
    fn activate(&mut self, value: u32)
        requires { self.old.st ≡ true }
        ensures { self.new ≡ record self.old { sact = union self.old.sact (only_below self.old.capabilities.ncs (bits value)) } }
    {
        self.sact = with(self.sact, listed(value, self.capabilities.ncs()));
    }

    /// Writing 1 to a bit of PxCI sets it, while ST is 1 (section 3.3.14), if the command list has the slot.
    #[tactic(auto, using(crate::proofs::StateLemmas::gained_below))]
    fn issue(&mut self, value: u32)
        requires { self.old.st ≡ true }
        ensures { self.new ≡ record self.old { ci = union self.old.ci (only_below self.old.capabilities.ncs (bits value)) } }
    {
        self.ci = with(self.ci, listed(value, self.capabilities.ncs()));
    }

    /// The device is there again, and is busy until its signature is taken.
    pub(super) fn come_up(&mut self, control: u32, spun_up: bool)
        requires present { self.old.present ≡ true }
        requires control { control < 2 ^ 20 }
        requires link { asked_link (control % 2 ^ 4) self.old.present spun_up Up ≡ Up }
        requires power { (not self.old.capabilities.sss || spun_up) ≡ spun_up }
        ensures { self.new ≡ came_up (record self.old { sctl = control; sud = spun_up }) }
    {
        self.control = control;
        self.spun_up = spun_up;
        self.link = Link::Up;
        self.speed = speed_for(self.capabilities.iss(), control);
        self.serr = with(self.serr, LINK_CHANGED);
        self.status = 0x80;
        self.first_fis = Signature::Due;
        self.soft = SoftReset::Off;
    }

    /// The link is gone, and the commands with it (section 10.4.2).
    fn go_down(&mut self, control: u32, link: Link)
        requires control { control < 2 ^ 20 }
        requires link { asked_link (control % 2 ^ 4) self.old.present self.old.sud link ≡ link }
        requires down { is_up link ≡ false }
        ensures { self.new ≡ went_down (record self.old { sctl = control }) link }
    {
        self.lose_device();
        self.control = control;
        self.link = link;
    }

    /// The device's status, its signature and all commands are gone.
    #[tactic(auto, using(crate::proofs::StateLemmas::zero_below, word_bits::proofs::BitsLemmas::bits_zero))]
    fn lose_device(&mut self)
        ensures { self.new ≡ went_down self.old self.old.link }
    {
        self.serr = raised(self.serr, DIAG_N, matches!(self.link, Link::Up));
        self.sact = 0;
        self.ci = 0;
        self.halted = false;
        self.status = 0x7f;
        self.error = 0;
        self.signature = NO_SIGNATURE;
        self.first_fis = Signature::Past;
        self.soft = SoftReset::Off;
    }
}

/// Whether both hold.
fn both(one: bool, other: bool) -> bool
    ensures { result ≡ (one && other) }
{
    one && other
}

/// Whether one of them holds.
fn either(one: bool, other: bool) -> bool
    ensures { result ≡ (one || other) }
{
    one || other
}

/// The generation at which a link comes up, by CAP.ISS and PxSCTL.SPD.
fn speed_for(fastest: u8, control: u32) -> u8
    requires { fastest ≤ 3 }
    ensures value { result ≡ speed_for fastest control }
    ensures most { result ≤ fastest }
{
    let limit = control / 16 % 16;
    if 1 <= limit && limit <= u32::from(fastest) {
        limit as u8
    } else {
        fastest
    }
}

/// The slots of a word that the command list has.
#[tactic(auto, using(word_bits::proofs::BitsLemmas::bits_below))]
fn listed(word: u32, ncs: u8) -> u32
    requires { ncs ≤ 32 }
    ensures { bits result ≡ only_below ncs (bits word) }
{
    word & below(u32::from(ncs))
}

/// The device's software reset after a write of ST: the command that its signature would end is gone if the port stops.
fn continued(soft: SoftReset, stops: bool) -> SoftReset
    ensures { result ≡ continued stops soft }
{
    match soft {
        SoftReset::Ending(_) if stops => SoftReset::Off,
        SoftReset::Off | SoftReset::Held | SoftReset::Ending(_) => soft,
    }
}

/// The bits of a word that are not in another.
#[tactic(auto, using(word_bits::proofs::BitsLemmas::bits_and_not))]
fn without(word: u32, other: u32) -> u32
    ensures { bits result ≡ minus (bits word) (bits other) }
{
    word & !other
}

/// The bits of two words.
#[tactic(auto, using(word_bits::proofs::BitsLemmas::bits_or))]
fn with(word: u32, other: u32) -> u32
    ensures { bits result ≡ union (bits word) (bits other) }
{
    word | other
}

/// The bits of a value that PxIE has.
#[tactic(auto, using(word_bits::proofs::BitsLemmas::bits_and))]
fn enabled(value: u32) -> u32
    ensures { bits result ≡ intersection (bits value) enables }
{
    value & ENABLES
}

/// A status once CLO is written: BSY and DRQ are 0 (section 3.3.7).
fn cleared(status: u8, clo: bool) -> u8
    ensures { result ≡ (if clo then bit_and status 0x77 else status) }
{
    if clo { status & 0x77 } else { status }
}

/// The slots of a word after a write of ST: none is left if the port stops.
#[tactic(auto, using(word_bits::proofs::BitsLemmas::bits_zero))]
fn remaining(word: u32, stops: bool) -> u32
    ensures { bits result ≡ remaining stops (bits word) }
{
    if stops { 0 } else { word }
}
