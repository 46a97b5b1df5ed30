//! The pages in which a disk describes itself, of any numbers, with no port.

ghost use Rattle.std.specs.Prelude.{◌≡◌, length};
ghost use Rattle.ncq_core.specs.{Identify.{identify_page}, Log.{log_page}};
ghost use Rattle.ahci_ffi.specs.{Alone.{log_refusal, page_refusal}, Told.{Told}};

use crate::status::Status;
use ncq_core::MAX_DEPTH;
use ncq_journal::LBA_LIMIT;
use port_refusal::Refusal;

/// How many bytes a page has.
const PAGE: usize = 512;

/// Copies the page that IDENTIFY DEVICE reads of a disk with so many sectors and so many tags.
pub fn identify_page(sectors: u32, depth: u32, out: &mut [u8]) -> Status
    ensures { Told result (page_refusal depth (length out.old)) (out.new ≡ identify_page sectors depth) (out.new ≡ out.old) }
{
    if out.len() != PAGE {
        return Status::WrongLength;
    }
    if depth == 0 || depth > MAX_DEPTH {
        return Status::Refused(Refusal::BadDepth);
    }
    out.copy_from_slice(&ncq_core::identify_page(sectors, depth));
    Status::Done
}

/// Copies page 0 of log 10h after an error of a tag's command at a sector.
pub fn log_page(tag: u32, error: u8, lba: u64, out: &mut [u8]) -> Status
    ensures { Told result (log_refusal tag lba (length out.old)) (out.new ≡ log_page (record { tag = tag; error = error; lba = lba })) (out.new ≡ out.old) }
{
    if out.len() != PAGE {
        return Status::WrongLength;
    }
    if tag >= 32 {
        return Status::BadTag;
    }
    if lba >= LBA_LIMIT {
        return Status::Refused(Refusal::BadLba);
    }
    out.copy_from_slice(&ncq_core::log_page(tag as u8, error, lba));
    Status::Done
}
