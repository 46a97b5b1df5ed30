ghost use Rattle.std.specs.Prelude.{ℕ};

/// What a run calls without the lock, before a job is first submitted and after it is answered. Jobs are named by their
/// index.
pub trait Gate: Sync {
    /// A job has passed the gate before it was submitted. A gate that says nothing of it lets every job be said to have.
    ghost began: { Self → ℕ → Type 0 } = { λ gate job. Unit {0} };

    /// The same of a job that was answered.
    ghost ended: { Self → ℕ → Type 0 } = { λ gate job. Unit {0} };

    fn before(&self, job: usize)
        ensures { began self.now job };

    fn after(&self, job: usize)
        ensures { ended self.now job };
}

/// Lets every job through.
#[derive(Clone, Copy, Debug, Drop)]
pub struct Open;

impl Gate for Open {
    fn before(&self, _job: usize) {}

    fn after(&self, _job: usize) {}
}
