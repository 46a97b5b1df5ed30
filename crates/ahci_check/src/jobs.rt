//! The lines of job lists.

ghost use Rattle.std.specs.Prelude.{◌≡◌, IfSome, not};
ghost use Rattle.ahci_check.specs.Complaints.{IsColumn, ends_replay};
ghost use Rattle.ahci_check.specs.Judges.{is_job_line, job_complaint, job_excess, of_job_reading};

use crate::complaint::Complaint;
use crate::complaints::{complaint_at, of_excess};
use crate::excess::{Excess, count_excess};
use crate::rule::Rule;
use ahci_script::{Breach, Job, JobLine, after_first, read_job};

/// What there is to say of a job list's line of the given number, without its line feed: the rule of the language that it
/// breaks first, from the left; else the first limit of the port that its job passes, at which `run` ends.
#[tactic(auto, using(crate::proofs::JobLemmas::job_agrees))]
pub fn job_complaint_of(number: u64, line: &[u8]) -> Option<Complaint>
    ensures complaint { result ≡ job_complaint number line.now }
    ensures language { ends_replay result ≡ not (is_job_line line.now) }
    ensures column { IfSome result (λ c. IfSome c.column (IsColumn line.now)) }
{
    judged(number, line, read_job(line))
}

/// What there is to say of a line that was read.
fn judged(number: u64, line: &[u8], read: Result<JobLine, Breach>) -> Option<Complaint>
    ensures { result ≡ of_job_reading number line.now read }
{
    match read {
        Err(breach) => {
            let rule = Rule::Language(breach.fault);
            Some(complaint_at(number, line, breach.left, rule))
        }
        Ok(JobLine::Skip) => None,
        Ok(JobLine::Do(job)) => of_excess(number, line, job_excess(line, job)),
    }
}

/// The first limit that a job passes.
fn job_excess(line: &[u8], job: Job) -> Option<Excess>
    ensures { result ≡ job_excess line.now job }
{
    match job {
        Job::Write { lba, sectors, .. } | Job::Read { lba, sectors } => {
            count_excess(after_first(line), lba, sectors)
        }
    }
}
