//! The rules for writes to registers.

ghost use Rattle.std.specs.Prelude.{◌≡◌, [], ◌∷◌};
ghost use Rattle.hba_regs.specs.Reading.{word_at};
ghost use Rattle.hba_regs.specs.declared.register.Register.TheVariants.{PxCmd};
ghost use Rattle.hba_rules.specs.Writes.{active_row, all, any_of, area_row, command_row, enable_row, exceeds, follows_issue, global_row, has_management, has_more_speed, has_state, high_area_row, high_list_row, interrupt_row, is_above_list, is_mixed, issue_row, lacks, lacks_power, link_row, list_row, mixes_active, mixes_issued, register_row, reserved_bits, reserved_state, write_breaks, writes};

use crate::rule::Rule;
use hba_regs::{HbaRegs, Register};
use word_bits::below;

/// Whether a word that a driver is about to write to a register breaks a rule.
pub fn write_breaks(rule: Rule, registers: &HbaRegs, register: Register, word: u32) -> bool
    ensures { result ≡ write_breaks rule registers.now register word }
{
    match rule {
        Rule::ReservedBits => any_of(word, reserved_bits(register)),
        _ => register_rule(rule, registers, register, word),
    }
}

/// The rules that depend on what the registers are.
fn register_rule(rule: Rule, registers: &HbaRegs, register: Register, word: u32) -> bool
    ensures { result ≡ all (register_row rule register) registers.now word }
{
    match register {
        Register::PxCmd => command_rule(rule, registers, word),
        Register::PxClb => list_rule(rule, registers, word),
        Register::PxClbu => high_list_rule(rule, registers, word),
        Register::PxFb => area_rule(rule, registers, word),
        Register::PxFbu => high_area_rule(rule, registers, word),
        Register::PxSctl => link_rule(rule, registers, word),
        Register::PxSact => active_rule(rule, registers, word),
        Register::PxCi => issue_rule(rule, registers, word),
        Register::PxIe => enable_rule(rule, registers, word),
        Register::Ghc => global_rule(rule, registers, word),
        Register::Is => interrupt_rule(rule, registers, word),
        _ => false,
    }
}

/// Whether some bit of a mask is 1 in a word.
fn any_of(word: u32, mask: u32) -> bool
    ensures { result ≡ any_of word mask }
{
    word & mask != 0
}

/// Whether some bit of a word is not in a mask.
fn exceeds(word: u32, mask: u32) -> bool
    ensures { result ≡ exceeds word mask }
{
    word & mask != word
}

/// Whether some bits of a register are 1.
fn has(registers: &HbaRegs, register: Register, mask: u32) -> bool
    ensures { result ≡ any_of (word_at registers.now register) mask }
{
    any_of(registers.word_at(register), mask)
}

/// Whether a word for PxCMD sets ST.
fn starts(registers: &HbaRegs, word: u32) -> bool
    ensures { result ≡ all (writes 0x01 ∷ lacks PxCmd 0x01 ∷ []) registers.now word }
{
    any_of(word, 0x01) && !has(registers, Register::PxCmd, 0x01)
}

/// PxCMD: when ST and FRE may change (section 10.3).
fn command_rule(rule: Rule, registers: &HbaRegs, word: u32) -> bool
    ensures { result ≡ all (command_row rule) registers.now word }
{
    match rule {
        Rule::StartWithoutReceiving => starts(registers, word) && !any_of(word, 0x10),
        Rule::StartWithReceiving => {
            starts(registers, word) && any_of(word, 0x10) && !has(registers, Register::PxCmd, 0x10)
        }
        Rule::StartWhileBusy => starts(registers, word) && has(registers, Register::PxTfd, 0x88),
        Rule::StartWithoutDevice => {
            starts(registers, word) && registers.word_at(Register::PxSsts) & 0xf != 3
        }
        Rule::StartWithErrors => {
            starts(registers, word) && has(registers, Register::PxIs, 0x7800_0000)
        }
        Rule::StartWithSerr => {
            starts(registers, word) && has(registers, Register::PxSerr, 0xffff_ffff)
        }
        Rule::ReceivingClearedWhileStarted => {
            has(registers, Register::PxCmd, 0x01)
                && has(registers, Register::PxCmd, 0x10)
                && !any_of(word, 0x10)
        }
        Rule::ClearBusyWhileStarted => {
            has(registers, Register::PxCmd, 0x01) && any_of(word, 0x08)
        }
        Rule::PowerWithoutCapability => lacks_power(registers, word),
        _ => false,
    }
}

/// Whether the capabilities have a state of the link, a value of ICC.
fn has_state(icc: u32, cap: u32) -> bool
    ensures { result ≡ has_state icc cap }
{
    match icc {
        0 | 1 => true,
        2 => any_of(cap, 0x2000),
        6 => any_of(cap, 0x4000),
        _ => false,
    }
}

/// Whether the capabilities have what ALPE and ASP of a word for PxCMD ask for.
fn has_management(word: u32, cap: u32) -> bool
    ensures { result ≡ has_management word cap }
{
    if !any_of(word, 0x0c00_0000) {
        return true;
    }
    let state = if any_of(word, 0x0800_0000) {
        0x4000
    } else {
        0x2000
    };
    any_of(cap, 0x0400_0000) && (!any_of(word, 0x0400_0000) || any_of(cap, state))
}

/// Whether a word for PxCMD asks for a power state that the capabilities do not have.
fn lacks_power(registers: &HbaRegs, word: u32) -> bool
    ensures { result ≡ lacks_power registers.now word }
{
    let cap = registers.word_at(Register::Cap);
    !has_state(word / 0x1000_0000, cap) || !has_management(word, cap)
}

/// PxCLB.
fn list_rule(rule: Rule, registers: &HbaRegs, word: u32) -> bool
    ensures { result ≡ all (list_row rule) registers.now word }
{
    match rule {
        Rule::ListMovedWhileStarted => {
            has(registers, Register::PxCmd, 0x01)
                && word / 1024 * 1024 != registers.word_at(Register::PxClb)
        }
        Rule::ListUnaligned => any_of(word, 0x3ff),
        _ => false,
    }
}

/// PxCLBU.
fn high_list_rule(rule: Rule, registers: &HbaRegs, word: u32) -> bool
    ensures { result ≡ all (high_list_row rule) registers.now word }
{
    match rule {
        Rule::ListMovedWhileStarted => {
            has(registers, Register::PxCmd, 0x01) && word != registers.word_at(Register::PxClbu)
        }
        _ => false,
    }
}

/// PxFB.
fn area_rule(rule: Rule, registers: &HbaRegs, word: u32) -> bool
    ensures { result ≡ all (area_row rule) registers.now word }
{
    match rule {
        Rule::AreaMovedWhileReceiving => {
            has(registers, Register::PxCmd, 0x10)
                && word / 256 * 256 != registers.word_at(Register::PxFb)
        }
        Rule::AreaUnaligned => any_of(word, 0xff),
        _ => false,
    }
}

/// PxFBU.
fn high_area_rule(rule: Rule, registers: &HbaRegs, word: u32) -> bool
    ensures { result ≡ all (high_area_row rule) registers.now word }
{
    match rule {
        Rule::AreaMovedWhileReceiving => {
            has(registers, Register::PxCmd, 0x10) && word != registers.word_at(Register::PxFbu)
        }
        _ => false,
    }
}

/// Whether DET of a word for PxSCTL is reserved.
fn has_reserved_state(word: u32) -> bool
    ensures { result ≡ reserved_state word }
{
    !matches!(word & 0xf, 0 | 1 | 4)
}

/// Whether SPD of a word for PxSCTL is above CAP.ISS.
fn has_more_speed(registers: &HbaRegs, word: u32) -> bool
    ensures { result ≡ has_more_speed registers.now word }
{
    registers.word_at(Register::Cap) / 0x10_0000 % 16 < word / 16 % 16
}

/// PxSCTL.
fn link_rule(rule: Rule, registers: &HbaRegs, word: u32) -> bool
    ensures { result ≡ all (link_row rule) registers.now word }
{
    match rule {
        Rule::LinkChangedWhileStarted => {
            has(registers, Register::PxCmd, 0x01)
                && word & 0xf != registers.word_at(Register::PxSctl) & 0xf
        }
        Rule::ReservedLinkState => has_reserved_state(word),
        Rule::SpeedAboveInterface => has_more_speed(registers, word),
        _ => false,
    }
}

/// PxSACT.
fn active_rule(rule: Rule, registers: &HbaRegs, word: u32) -> bool
    ensures { result ≡ all (active_row rule) registers.now word }
{
    match rule {
        Rule::ActiveWhileStopped => {
            !has(registers, Register::PxCmd, 0x01) && any_of(word, 0xffff_ffff)
        }
        Rule::QueueWithoutCapability => {
            !has(registers, Register::Cap, 0x4000_0000) && any_of(word, 0xffff_ffff)
        }
        Rule::SlotUsedAgain => any_of(word, registers.word_at(Register::PxSact)),
        Rule::ActiveAfterIssue => follows_issue(registers, word),
        Rule::MixedCommands => mixes_active(registers, word),
        Rule::SlotAboveList => is_above_list(registers, word),
        _ => false,
    }
}

/// Whether a word for PxSACT has a slot that was issued and is not active.
fn follows_issue(registers: &HbaRegs, word: u32) -> bool
    ensures { result ≡ follows_issue registers.now word }
{
    exceeds(
        word & registers.word_at(Register::PxCi),
        registers.word_at(Register::PxSact),
    )
}

/// Whether a word has a slot that the command list has not.
fn is_above_list(registers: &HbaRegs, word: u32) -> bool
    ensures { result ≡ is_above_list registers.now word }
{
    exceeds(word, below(u32::from(registers.capabilities().ncs())))
}

/// Whether queued commands and others are outstanding together.
fn is_mixed(sact: u32, ci: u32) -> bool
    ensures { result ≡ is_mixed sact ci }
{
    sact != 0 && exceeds(ci, sact)
}

/// Whether they begin to be with a word for PxSACT.
fn mixes_active(registers: &HbaRegs, word: u32) -> bool
    ensures { result ≡ mixes_active registers.now word }
{
    let sact = registers.word_at(Register::PxSact);
    let ci = registers.word_at(Register::PxCi);
    is_mixed(sact | word, ci) && !is_mixed(sact, ci)
}

/// Whether they begin to be with a word for PxCI.
fn mixes_issued(registers: &HbaRegs, word: u32) -> bool
    ensures { result ≡ mixes_issued registers.now word }
{
    let sact = registers.word_at(Register::PxSact);
    let ci = registers.word_at(Register::PxCi);
    is_mixed(sact, ci | word) && !is_mixed(sact, ci)
}

/// PxCI.
fn issue_rule(rule: Rule, registers: &HbaRegs, word: u32) -> bool
    ensures { result ≡ all (issue_row rule) registers.now word }
{
    match rule {
        Rule::CommandWhileStopped => {
            !has(registers, Register::PxCmd, 0x01) && any_of(word, 0xffff_ffff)
        }
        Rule::CommandWhileHalted => registers.is_halted() && any_of(word, 0xffff_ffff),
        Rule::SlotUsedAgain => any_of(word, registers.word_at(Register::PxCi)),
        Rule::MixedCommands => mixes_issued(registers, word),
        Rule::SlotAboveList => is_above_list(registers, word),
        _ => false,
    }
}

/// PxIE.
fn enable_rule(rule: Rule, registers: &HbaRegs, word: u32) -> bool
    ensures { result ≡ all (enable_row rule) registers.now word }
{
    match rule {
        Rule::EnableOverStatus => exceeds(
            word & registers.word_at(Register::PxIs),
            registers.word_at(Register::PxIe),
        ),
        _ => false,
    }
}

/// GHC.
fn global_rule(rule: Rule, registers: &HbaRegs, word: u32) -> bool
    ensures { result ≡ all (global_row rule) registers.now word }
{
    match rule {
        Rule::EnableOverStatus => {
            any_of(word, 0x02)
                && !has(registers, Register::Ghc, 0x02)
                && has(registers, Register::Is, 0xffff_ffff)
        }
        _ => false,
    }
}

/// IS: the order in which interrupts are cleared (section 10.7.2).
fn interrupt_rule(rule: Rule, registers: &HbaRegs, word: u32) -> bool
    ensures { result ≡ all (interrupt_row rule) registers.now word }
{
    match rule {
        Rule::InterruptNotCleared => {
            any_of(word, 0x01) && has(registers, Register::PxIs, registers.word_at(Register::PxIe))
        }
        _ => false,
    }
}

/// The bits of a register that are reserved for software.
fn reserved_bits(register: Register) -> u32
    ensures { result ≡ reserved_bits register }
{
    match register {
        Register::Cap => 0x0008_0000,
        Register::Ghc => 0x7fff_fff8,
        Register::Is => 0xffff_fffe,
        Register::PxClb => 0x0000_03ff,
        Register::PxFb => 0x0000_00ff,
        Register::PxIs | Register::PxIe => 0x023f_ff00,
        Register::PxCmd => 0x0000_00e0,
        Register::PxTfd => 0xffff_0000,
        Register::PxSsts => 0xffff_f000,
        Register::PxSctl => 0xfff0_0000,
        _ => 0,
    }
}
