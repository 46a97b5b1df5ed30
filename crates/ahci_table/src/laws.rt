//! Laws of windows. Each function does nothing; its contract is the law.

ghost use Rattle.ahci_table.specs.Laws.{IsTakenAgain, HasWholeText, GivesBack, Commutes, DefaultsServe};

/// What `build` makes, `check` takes: the window is fit and says the command and the pieces that it was built for, and
/// every answer that the contract of `check` allows is `Ok` of them.
pub fn built_windows_are_taken()
    ensures { IsTakenAgain }
{}

/// The text of a window that is fit has as many bytes as the command's sectors.
pub fn texts_are_whole_sectors()
    ensures { HasWholeText }
{}

/// `gather` after `scatter` gives the bytes back.
pub fn scattered_bytes_come_back()
    ensures { GivesBack }
{}

/// Two `scatter`s to ranges that share no byte may change places: the windows are equal, byte by byte.
pub fn scatters_beside_each_other_commute()
    ensures { Commutes }
{}

/// The default pieces serve every count that one command can have: no window over them is refused for its list.
pub fn default_pieces_serve_every_count()
    ensures { DefaultsServe }
{}
