/// The input gives no more bytes: a read failed, or the input is longer than its limit.
#[derive(Clone, Copy, Debug, PartialEq, Eq)]
pub struct InputFailed;
