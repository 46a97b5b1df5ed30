ghost use Rattle.std.specs.Prelude.{◌≡◌, IfOk};
ghost use Rattle.ahci_check.specs.Judges.{complaint_by, judge_after};

use crate::complaint::Complaint;
use crate::complaints::judged;
use crate::jobs::job_complaint_of;
use crate::place::Place;
use ahci_script::read_line;
use std::alloc::{AllocError, Allocator};

/// How the next line is judged.
#[derive(Clone, Copy, Debug, PartialEq, Eq)]
pub enum Judge {
    /// As a line of a script, at this place.
    OfScript(Place),
    /// As a line of a job list.
    OfJobs,
}

impl Judge {
    /// What there is to say of a line of the given number, and how the next one is judged.
    pub(crate) fn judge<A: Allocator>(
        self,
        alloc: A,
        number: u64,
        line: &[u8],
    ) -> Result<(Option<Complaint>, Judge), AllocError>
        ensures complaint { IfOk result (λ r. r.0 ≡ complaint_by self number line.now) }
        ensures next { IfOk result (λ r. r.1 ≡ judge_after self line.now) }
    {
        match self {
            Judge::OfScript(place) => {
                let read = read_line(line);
                let complaint = judged(alloc, place, number, line, &read)?;
                let next = place.after_reading(line, &read);
                Ok((complaint, Judge::OfScript(next)))
            }
            Judge::OfJobs => Ok((job_complaint_of(number, line), Judge::OfJobs)),
        }
    }
}
