//! What follows from the contracts of `Hba`. The functions change nothing: each is there for its clauses.
ghost use Rattle.std.specs.Prelude.{◌≡◌, ◌<◌, ◌&&◌, ℕ, List, Option, None, Some, is_some, not, true, false};
ghost use Rattle.std.specs.List.{list_any};
ghost use Rattle.word_bits.specs.Places.{has_place};
ghost use Rattle.hba_regs.specs.Linking.{is_up};
ghost use Rattle.hba_regs.specs.PortStates.{p_idle_selects};
ghost use Rattle.hba_regs.specs.declared.device_kind.DeviceKind.{DeviceKind};
ghost use Rattle.hba_command.specs.declared.action.Action.{Action};
ghost use Rattle.hba_command.specs.declared.action.Action.TheVariants.{Queue};
ghost use Rattle.hba_command.specs.declared.entry.PrdEntry.{PrdEntry};
ghost use Rattle.hba_command.specs.declared.power.Power.TheVariants.{Sleep};
ghost use Rattle.ncq_journal.specs.History.{History};
ghost use Rattle.sata_fis.specs.Fields.{QueuedFields};
ghost use Rattle.ahci_hba.specs.Executing.{Executes, is_aborted, reads_error_log};
ghost use Rattle.ahci_hba.specs.Failing.{Fails, ended_at, own_in};
ghost use Rattle.ahci_hba.specs.Moving.{put_done, spoiled, supplied, unmapped};
ghost use Rattle.ahci_hba.specs.PoweringOn.{powered_on};
ghost use Rattle.ahci_hba.specs.Queueing.{command_at, has_alone, has_queued, is_failed, is_idle, is_listening, waits};
ghost use Rattle.ahci_hba.specs.Resetting.{signing};
ghost use Rattle.ahci_hba.specs.Stepping.{IsTaken, answers, is_answered, may_send, next_step};
ghost use Rattle.ahci_hba.specs.Transitions.{Takes, Transition, after, answers_command, answers_tag};
ghost use Rattle.ahci_hba.specs.declared.step.Step.TheVariants as step;

use crate::hba::Hba;
use crate::step::Step;
use hba_regs::Slot;
use sector_store::SectorStore;
use std::alloc::Allocator;

/// No command is stranded: while the port is in P:Idle with BSY and DRQ 0, and the device isn't busy with a command that is not queued, a slot
/// that waits means that the command of some slot can be fetched (AHCI 1.3.1, section 5.3.2).
pub fn no_command_is_stranded<A: Allocator, S: SectorStore>(hba: &Hba<A, S>)
    ensures { is_listening hba.now ≡ true → p_idle_selects hba.now.registers.port ≡ true → list_any has_alone hba.now.slots ≡ false
        → (slot : ℕ) → slot < 32 → waits hba.now slot ≡ true
        → (next : ℕ) × (next < 32) × (next_step hba.now next ≡ Some step.Fetch) }
{}

/// A device in Sleep answers no command: while nothing is written, a command is read at most, and a control FIS is taken (ACS-3, "SLEEP").
pub fn a_device_in_sleep_answers_no_command<A: Allocator, S: SectorStore>(hba: &Hba<A, S>)
    requires { hba.now.power ≡ Sleep }
    ensures { is_idle hba.now.dma ≡ true → (slot : ℕ) → answers (next_step hba.now slot) ≡ false }
{}

/// In ERR:WaitForClear no slot has a step (section 5.3, "Error Recovery").
pub fn a_halted_port_takes_no_step<A: Allocator, S: SectorStore>(hba: &Hba<A, S>)
    requires { hba.now.registers.port.halted ≡ true }
    ensures { (slot : ℕ) → next_step hba.now slot ≡ None }
{}

/// A command that is not queued and comes while queued ones are outstanding is aborted, and so are they (ACS-3, "Native Command Queuing"): the device has failed
/// then.
pub fn a_command_under_queued_ones_aborts_them<A: Allocator, S: SectorStore>(
    old: &Hba<A, S>,
    new: &Hba<A, S>,
    slot: Slot,
)
    requires alone { has_alone (command_at old.now slot) ≡ true }
    requires queued { list_any has_queued old.now.slots ≡ true }
    ensures aborted { (action : Action) → is_aborted old.now action ≡ true }
    ensures failed { (action : Action) (list : List PrdEntry) → Executes true slot action list old.now new.now → is_failed new.now ≡ true }
{}

/// A device that waits for log 10h to be read takes no command into its queue, and aborts each other command but one that reads the log.
pub fn a_failed_device_aborts_commands<A: Allocator, S: SectorStore>(hba: &Hba<A, S>)
    requires { is_some hba.now.device.collision ≡ true }
    ensures sends { (slot : ℕ) → may_send hba.now slot ≡ false }
    ensures queued { (queued : QueuedFields) → is_answered hba.now (Queue queued) ≡ true }
    ensures others { (action : Action) → reads_error_log action ≡ false → is_aborted hba.now action ≡ true }
{}

/// Without a link no slot has a step: neither once it is lost nor while the disk is unplugged.
pub fn a_port_without_a_link_takes_no_step<A: Allocator, S: SectorStore>(hba: &Hba<A, S>)
    requires { is_up hba.now.registers.port.link ≡ false }
    ensures { (slot : ℕ) → next_step hba.now slot ≡ None }
{}

/// After power-on no slot has a step, whatever commands there were.
pub fn no_slot_has_a_step_after_power_on<A: Allocator, S: SectorStore>(hba: &Hba<A, S>)
    ensures { (slot : ℕ) → next_step (powered_on hba.now) slot ≡ None }
{}

/// The device moves registers by the transitions of section 5.3 and by nothing else, whatever step it takes. `Hba::write`,
/// `Hba::power_on` and the events of the link and of the interface are no steps of the device: the contract of each names the registers that it leaves.
pub fn a_step_takes_transitions<A: Allocator, S: SectorStore>(
    old: &Hba<A, S>,
    new: &Hba<A, S>,
    slot: Slot,
    step: Step,
)
    ensures { (journal : Option History) → IsTaken step slot old.now new.now journal → Takes old.now.registers new.now.registers }
{}

/// The same while it reads and writes the driver's memory.
pub fn a_move_takes_transitions<A: Allocator, S: SectorStore>(hba: &Hba<A, S>)
    ensures read { (bytes : List ℕ) → Takes hba.now.registers (supplied hba.now hba.now.dma bytes).registers }
    ensures written { Takes hba.now.registers (put_done hba.now hba.now.dma).registers }
    ensures unmapped { Takes hba.now.registers (unmapped hba.now hba.now.dma).registers }
    ensures spoiled { Takes hba.now.registers (spoiled hba.now hba.now.dma).registers }
    ensures signed { (kind : DeviceKind) → Takes hba.now.registers (signing hba.now kind).registers }
{}

/// The same where it fails a command, or ends one with another status.
pub fn a_failure_takes_transitions<A: Allocator, S: SectorStore>(
    old: &Hba<A, S>,
    new: &Hba<A, S>,
    slot: Slot,
)
    ensures failed { (error lba : ℕ) → Fails slot error lba (own_in old.now slot lba) old.now new.now → Takes old.now.registers new.now.registers }
    ensures ended { (status error lba : ℕ) → Takes old.now.registers (ended_at old.now slot status error lba).registers }
{}

/// Whatever transition the device takes, a slot is in PxCI after it exactly if it was there before and the transition doesn't answer its command,
/// and a tag is in PxSACT exactly if it was there and the transition doesn't answer it (sections 3.3.13 and 3.3.14).
pub fn a_bit_goes_with_the_answer_to_its_command<A: Allocator, S: SectorStore>(hba: &Hba<A, S>)
    ensures issued { (t : Transition) (slot : ℕ) → has_place (after t hba.now.registers.port).ci slot
        ≡ (has_place hba.now.registers.port.ci slot && not (answers_command t hba.now.registers.port slot)) }
    ensures active { (t : Transition) (slot : ℕ) → has_place (after t hba.now.registers.port).sact slot
        ≡ (has_place hba.now.registers.port.sact slot && not (answers_tag t slot)) }
{}
