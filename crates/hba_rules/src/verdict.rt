/// What it means to break a rule.
#[derive(Clone, Copy, Debug, PartialEq, Eq)]
pub enum Verdict {
    /// The standard forbids it.
    Broken,
    /// The standard can be read either way, or leaves it open.
    Open,
    /// It is allowed, and seldom meant.
    Odd,
}
