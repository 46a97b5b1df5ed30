//! Laws that hold of all scripts: each function is empty.

ghost use Rattle.ahci_check.specs.Agreement.{CheckAgrees};
ghost use Rattle.ahci_check.specs.Refused.{PortRefuses};

/// A check of a script and its replay agree. A line's complaint is one of the language, or of the order of lines, exactly where
/// replay would end with that line; after any lines that replay has answered, the check is before or after the disk as
/// replay does, and knows how many sectors and slots its port has; and so the first such complaint of a script is about the line
/// at which replay ends, and there is none where replay has answered all lines.
pub fn a_check_stops_where_replay_stops()
    ensures { CheckAgrees }
{}

/// Every port refuses a line that has a complaint of the port: whichever port replay has there, of the sectors and slots that the
/// check knows, the answer to the line is a refusal, and nothing changes.
pub fn a_complaint_of_the_port_is_a_refusal()
    ensures { PortRefuses }
{}
