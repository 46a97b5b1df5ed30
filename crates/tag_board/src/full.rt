/// Each tag below the depth was found taken when it was tried, one after the other. Nothing is said of any one moment.
#[derive(Clone, Copy, Debug, PartialEq, Eq)]
pub struct Full;
