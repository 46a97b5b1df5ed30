//! The power modes of the disk (ACS-3, "Power Management feature set").

ghost use Rattle.std.specs.Prelude.{◌≡◌};
ghost use Rattle.hba_command.specs.Power.{after_reply, after_reset, is_awake, needs_medium, power_count, reply_needs_medium};

use crate::action::Action;
use crate::reply::Reply;

/// The power modes, from the one with the fastest answer to the one with the slowest.
#[derive(Clone, Copy, Debug, PartialEq, Eq)]
pub enum Power {
    Active,
    Idle,
    /// The next command that needs the medium waits for it.
    Standby,
    /// No command is answered until a reset comes.
    Sleep,
}

/// The count by which CHECK POWER MODE names a mode.
pub fn power_count(power: Power) -> u16
    ensures { result ≡ power_count power }
{
    match power {
        Power::Active | Power::Idle => 0xFF,
        Power::Standby => 0x00,
        Power::Sleep => 0x00, // it is not asked: nothing is answered then
    }
}

/// Whether the device answers commands.
pub fn is_awake(power: Power) -> bool
    ensures { result ≡ is_awake power }
{
    match power {
        Power::Active | Power::Idle | Power::Standby => true,
        Power::Sleep => false,
    }
}

/// The mode behind a reset of the device, of whatever kind: only a reset ends Sleep.
pub fn after_reset(power: Power) -> Power
    ensures { result ≡ after_reset power }
{
    match power {
        Power::Active => Power::Active,
        Power::Idle => Power::Idle,
        Power::Standby | Power::Sleep => Power::Standby,
    }
}

/// The mode behind a command that moves nothing.
pub fn after_reply(reply: &Reply, power: Power) -> Power
    ensures { result ≡ after_reply reply.now power }
{
    match reply {
        Reply::Entered(mode) => *mode,
        Reply::Verified(_) | Reply::Marked(_) => Power::Active,
        Reply::Done | Reply::NativeMax(_) | Reply::PowerMode | Reply::Diagnosed | Reply::Packet =>
            power,
        Reply::Changed(_) | Reply::SmartStatus => power,
    }
}

/// Whether a command that moves nothing needs the medium.
fn reply_needs_medium(reply: &Reply) -> bool
    ensures { result ≡ reply_needs_medium reply.now }
{
    match reply {
        Reply::Verified(_) | Reply::Marked(_) => true,
        Reply::Entered(_) | Reply::Done | Reply::NativeMax(_) | Reply::PowerMode => false,
        Reply::Diagnosed | Reply::Packet | Reply::Changed(_) | Reply::SmartStatus => false,
    }
}

/// Whether a command needs the medium, so that the device is Active from then on.
pub fn needs_medium(action: &Action) -> bool
    ensures { result ≡ needs_medium action.now }
{
    match action {
        Action::Queue(_) | Action::Sectors { .. } | Action::Flush(_) => true,
        Action::Reply(reply) => reply_needs_medium(reply),
        Action::Page(_, _) | Action::Store(_, _) | Action::Control { .. } | Action::Abort => false,
    }
}
