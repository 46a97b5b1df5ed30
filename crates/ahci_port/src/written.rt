/// What came of a write to a register.
#[derive(Clone, Copy, Debug, PartialEq, Eq)]
pub enum Written {
    /// No command moves: the register, or what is pending, has the word.
    Noted,
    /// The commands of these slots, by the bits of the word, are issued or issued again, the lowest first.
    Commanded(u32),
    /// The port has recovered from the failure of this tag's command.
    Recovered(u8),
}
