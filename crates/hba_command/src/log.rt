use crate::host_pages::HostPages;
use crate::log_pages::LogPages;

/// The logs of several pages (ACS-3, "Device Statistics log" and "IDENTIFY DEVICE data log").
#[derive(Clone, Copy, Debug, PartialEq, Eq)]
pub enum LongLog {
    /// Log 04h, of two pages.
    Statistics,
    /// Log 30h, of seven pages.
    IdentifyData,
}

/// The logs for which the disk is asked more than a page that it has ready.
#[derive(Clone, Copy, Debug, PartialEq, Eq)]
pub enum Log {
    /// Log 10h, of one page: which queued command failed (ACS-3, "NCQ Command Error log").
    QueuedError,
    /// Some pages of a log of several.
    Pages(LongLog, LogPages),
    /// Some pages of a log of the host's (ACS-3, "Host Specific logs").
    Host(HostPages),
}
