ghost use Rattle.std.specs.Prelude.{◌≡◌};
ghost use Rattle.hba_regs.specs.InterfaceErrors.{diag_of, err_bit_of};

/// The errors of the interface that PxSERR.DIAG reports (AHCI 1.3.1, sections 3.3.12 and 6.1.2). Disparity Error, D, isn't among them: AHCI
/// doesn't use it.
#[derive(Clone, Copy, PartialEq, Eq, Debug)]
pub enum InterfaceError {
    /// 10B to 8B Decode Error, B: a character that can't be decoded was received.
    Decode,
    /// CRC Error, C: a FIS was received whose CRC is wrong.
    Crc,
    /// Handshake Error, H: the device answered a FIS with R_ERR.
    Handshake,
    /// Link Sequence Error, S: the link layer's state machine met an erroneous transition.
    LinkSequence,
    /// Transport State Transition Error, T: the transport layer's did.
    TransportState,
}

impl InterfaceError {
    /// The error's bit in PxSERR, one of DIAG (section 3.3.12).
    #[tactic(auto)]
    pub fn diag(self) -> u8
        ensures { result ≡ diag_of self }
    {
        match self {
            InterfaceError::Decode => 19,
            InterfaceError::Crc => 21,
            InterfaceError::Handshake => 22,
            InterfaceError::LinkSequence => 23,
            InterfaceError::TransportState => 24,
        }
    }

    /// The bit in PxSERR, one of ERR, that goes with it (section 3.3.12): a protocol error, or data that the interface has recovered
    /// or, if the error is fatal, hasn't.
    #[tactic(auto)]
    pub fn err(self, is_fatal: bool) -> u8
        ensures { result ≡ err_bit_of self is_fatal }
    {
        match self {
            InterfaceError::LinkSequence | InterfaceError::TransportState => 10,
            InterfaceError::Decode | InterfaceError::Crc | InterfaceError::Handshake if is_fatal =>
                { 8 }
            InterfaceError::Decode | InterfaceError::Crc | InterfaceError::Handshake => 0,
        }
    }
}
