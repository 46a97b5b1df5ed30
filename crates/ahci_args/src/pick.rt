/// Which command of a run the device goes on with.
#[derive(Clone, Copy, Debug, PartialEq, Eq)]
pub enum Pick {
    /// That of the lowest tag.
    Low,
    /// That of the highest tag.
    High,
    /// All that it has, once none waits for it, by one Set Device Bits FIS.
    All,
}
