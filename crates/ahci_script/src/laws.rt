//! Laws: each function is empty, and its clause holds of all lines.
ghost use Rattle.ahci_script.specs.Printing.{IsReadBack};

/// Every command whose numbers are in their ranges, printed as a line, is read back as itself.
pub fn a_printed_command_is_read_back()
    ensures { IsReadBack }
{}
