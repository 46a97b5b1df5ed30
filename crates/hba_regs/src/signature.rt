use crate::device_kind::DeviceKind;

/// The FIS that brings the device's signature, its first one after a reset (AHCI 1.3.1, section 5.3.2; Serial ATA, "Signature").
#[derive(Clone, Copy, PartialEq, Eq, Debug)]
pub enum Signature {
    /// None is due.
    Past,
    /// The device has sent it, and the port hasn't taken it.
    Due,
    /// The port has taken that of such a device while FRE was 0: PxTFD and PxSIG have it, and the received FIS area hasn't.
    Unposted(DeviceKind),
}
