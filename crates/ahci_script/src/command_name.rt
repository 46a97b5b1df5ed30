//! The names of commands.

ghost use Rattle.std.specs.Prelude.{◌≡◌};
ghost use Rattle.ahci_script.specs.Names.{device_name, disk_name, name_of, request_name};

/// What the first word of a line names.
#[derive(Clone, Copy)]
pub(crate) enum CommandName {
    Write,
    Read,
    Raw,
    Collect,
    Recover,
    Reissue,
    Disk,
    Identify,
    Flush,
    Show,
    Journal,
    Trim,
    Accept,
    Serve,
    Fail,
    Reg,
    Ack,
}

/// The command that has this name.
// A `match` over texts looks at the length first, and then at the letters that differ: no text is compared with each name.
pub(crate) fn command_name(name: &[u8]) -> Option<CommandName>
    ensures { result ≡ name_of name.now }
{
    match request_name(name) {
        None => match disk_name(name) {
            None => device_name(name),
            found => found,
        },
        found => found,
    }
}

/// The commands of requests.
#[tactic(auto, unfolding(crate::specs::Names::request_name))]
fn request_name(name: &[u8]) -> Option<CommandName>
    ensures { result ≡ request_name name.now }
{
    match name {
        b"write" => Some(CommandName::Write),
        b"read" => Some(CommandName::Read),
        b"raw" => Some(CommandName::Raw),
        b"collect" => Some(CommandName::Collect),
        b"recover" => Some(CommandName::Recover),
        b"reissue" => Some(CommandName::Reissue),
        _ => None,
    }
}

/// The commands of the disk and the journal.
#[tactic(auto, unfolding(crate::specs::Names::disk_name))]
fn disk_name(name: &[u8]) -> Option<CommandName>
    ensures { result ≡ disk_name name.now }
{
    match name {
        b"disk" => Some(CommandName::Disk),
        b"identify" => Some(CommandName::Identify),
        b"flush" => Some(CommandName::Flush),
        b"show" => Some(CommandName::Show),
        b"journal" => Some(CommandName::Journal),
        b"trim" => Some(CommandName::Trim),
        _ => None,
    }
}

/// The commands of the device and of the registers.
#[tactic(auto, unfolding(crate::specs::Names::device_name))]
fn device_name(name: &[u8]) -> Option<CommandName>
    ensures { result ≡ device_name name.now }
{
    match name {
        b"accept" => Some(CommandName::Accept),
        b"serve" => Some(CommandName::Serve),
        b"fail" => Some(CommandName::Fail),
        b"reg" => Some(CommandName::Reg),
        b"ack" => Some(CommandName::Ack),
        _ => None,
    }
}
