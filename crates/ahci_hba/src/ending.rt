ghost use Rattle.std.specs.Prelude.{◌≡◌};
ghost use Rattle.ahci_hba.specs.Moving.{ending_of, ending_of_data};

use crate::last_fis::LastFis;

/// How an answer ends.
#[derive(Clone, Copy, Debug, PartialEq, Eq)]
pub struct Ending {
    /// The device has sent more data than the command's list has room for: OFS comes before the FIS.
    pub overflow: bool,
    /// The data had the last byte of an entry with I: DPS comes before the FIS.
    pub processed: bool,
    pub fis: LastFis,
}

impl Ending {
    /// The end of an answer whose data had room in their list, or not, and processed no entry with I.
    pub(crate) fn of(whole: bool, fis: LastFis) -> Ending
        ensures { result ≡ ending_of whole fis }
    {
        Ending::of_data(whole, false, fis)
    }

    /// The end of an answer whose data had room in their list, or not, and had the last byte of an entry with I, or not.
    pub(crate) fn of_data(whole: bool, processed: bool, fis: LastFis) -> Ending
        ensures { result ≡ ending_of_data whole processed fis }
    {
        Ending {
            overflow: !whole,
            processed,
            fis,
        }
    }
}
