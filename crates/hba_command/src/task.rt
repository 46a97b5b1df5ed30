use crate::addressing::Addressing;
use crate::change::Change;
use crate::disk_page::DiskPage;
use crate::log::Log;
use crate::protocol::Protocol;
use crate::span::Span;
use crate::store::Store;
use sata_fis::Queued;

/// What a command FIS asks of the disk (ACS-3, by the commands' titles).
#[derive(Clone, Copy, Debug, PartialEq, Eq)]
pub enum Task {
    /// READ FPDMA QUEUED and WRITE FPDMA QUEUED.
    Queue(Queued),
    /// READ SECTOR(S), READ MULTIPLE, READ DMA, with EXT or without.
    Read(Span, Protocol),
    /// WRITE SECTOR(S), WRITE MULTIPLE, WRITE DMA, with EXT or without, and WRITE MULTIPLE FUA EXT, WRITE DMA FUA EXT.
    Write(Span, Protocol),
    /// READ VERIFY SECTOR(S), with EXT or without.
    Verify(Span),
    /// WRITE UNCORRECTABLE EXT, of whatever kind of error.
    Mark(Span),
    /// FLUSH CACHE, with EXT or without.
    Flush(Addressing),
    /// IDENTIFY DEVICE.
    Identify,
    /// READ LOG EXT, READ LOG DMA EXT and SMART READ LOG, of pages that there are and that the disk hasn't ready.
    ReadLog(Log, Protocol),
    /// READ LOG EXT, READ LOG DMA EXT, SMART and READ BUFFER, of a page that the disk has ready.
    ReadPage(DiskPage, Protocol),
    /// WRITE BUFFER, with DMA or without, DATA SET MANAGEMENT, and WRITE LOG EXT, WRITE LOG DMA EXT and SMART WRITE LOG of a log of the host's.
    Store(Store, Protocol),
    /// SET FEATURES, SET MULTIPLE MODE, SMART ENABLE OPERATIONS and its kin: what is changed.
    Change(Change),
    /// SMART RETURN STATUS.
    SmartStatus,
    /// READ NATIVE MAX ADDRESS, with EXT or without: the LBA of the last sector is answered.
    NativeMax(Addressing),
    /// CHECK POWER MODE: the count names the power mode.
    PowerMode,
    /// IDLE, with IMMEDIATE or without.
    Idle,
    /// STANDBY, with IMMEDIATE or without.
    Standby,
    /// SLEEP.
    Sleep,
    /// EXECUTE DEVICE DIAGNOSTIC: the signature of a disk is answered.
    Diagnose,
    /// A command with nothing to do: SET FEATURES 03h of a PIO mode.
    Nothing,
    /// The device control register, with SRST, in a FIS whose C bit is 0.
    Control { reset: bool },
    /// IDENTIFY PACKET DEVICE: aborted with the signature of a disk.
    Packet,
    /// Every other command: aborted.
    Unknown,
}
