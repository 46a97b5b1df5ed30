/// The output took no more bytes: a write or a flush failed, or a write took no byte of some.
#[derive(Clone, Copy, Debug, PartialEq, Eq)]
pub struct OutputFailed;
