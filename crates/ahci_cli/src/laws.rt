//! Laws: their functions are empty, and their clauses hold of all inputs.
ghost use Rattle.ahci_cli.specs.JobsAgree.{JobsAgree};

/// `check --jobs` and `run` agree. A line of a job list has a complaint exactly if a run ends with it, and so an input has none exactly
/// if a run reads it to its end.
pub fn a_check_of_jobs_stops_where_a_run_stops()
    ensures { JobsAgree }
{}
