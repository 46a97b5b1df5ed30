ghost use Rattle.std.specs.Prelude.{◌≡◌};
ghost use Rattle.hba_regs.specs.Signatures.{signature_of, signed_status};

/// What a device is, by the signature that it sends first (AHCI 1.3.1, section 3.3.9, PxSIG; Serial ATA, "Signature"; ACS-3, "Device signatures").
#[derive(Clone, Copy, PartialEq, Eq, Debug)]
pub enum DeviceKind {
    /// A disk: an ATA device.
    Disk,
    /// An ATAPI device, which takes commands by PACKET.
    Packet,
    /// An enclosure management bridge.
    EnclosureBridge,
    /// A port multiplier.
    PortMultiplier,
}

impl DeviceKind {
    /// The signature, as PxSIG shows it: LBA 23:0 of the FIS, and its count in the low byte.
    #[tactic(auto)]
    pub fn signature(self) -> u32
        ensures { result ≡ signature_of self }
    {
        match self {
            DeviceKind::Disk => 0x0000_0101,
            DeviceKind::Packet => 0xeb14_0101,
            DeviceKind::EnclosureBridge => 0xc33c_0101,
            DeviceKind::PortMultiplier => 0x9669_0101,
        }
    }

    /// The status in the FIS with the signature.
    #[tactic(auto)]
    pub fn signed_status(self) -> u8
        ensures { result ≡ signed_status self }
    {
        match self {
            DeviceKind::Packet => 0x00, // not ready for any command but those of ATAPI
            DeviceKind::Disk | DeviceKind::EnclosureBridge | DeviceKind::PortMultiplier => 0x50,
        }
    }
}
