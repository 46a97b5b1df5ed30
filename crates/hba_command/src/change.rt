use crate::multiple_mode::MultipleMode;

/// What a command changes in the disk that moves nothing (ACS-3, "SET FEATURES", "SET MULTIPLE MODE" and "SMART", by the titles of subcommands).
#[derive(Clone, Copy, Debug, PartialEq, Eq)]
pub enum Change {
    /// SET FEATURES 02h and 82h: the volatile write cache is enabled, or not.
    WriteCache(bool),
    /// SET FEATURES AAh and 55h: read look-ahead is enabled, or not.
    LookAhead(bool),
    /// SET FEATURES 05h and 85h: the level of Advanced Power Management, or 0 if it is disabled.
    PowerLevel(u8),
    /// SET FEATURES CCh and 66h: a software reset reverts to defaults, or not.
    Reverting(bool),
    /// SET FEATURES 03h: the multiword or Ultra DMA mode, as the count of the command has it.
    DmaMode(u8),
    /// SET MULTIPLE MODE.
    Multiple(MultipleMode),
    /// SMART ENABLE OPERATIONS and SMART DISABLE OPERATIONS.
    Smart(bool),
    /// SMART EXECUTE OFF-LINE IMMEDIATE: a self-test of this number, which passes at once.
    Test(u8),
    /// SMART commands with nothing to do.
    NothingSmart,
}
