use arrayvec::ArrayVec;
use std::marker::Model;

/// At most 28 bytes and where they go: a FIS for the received FIS area, or PRDBC of a command header.
#[derive(Drop)]
pub struct SmallPut {
    address: u64,
    bytes: ArrayVec<u8, 28>,
}

impl Model for SmallPut {
    ghost use Rattle.hba_memory.specs.Runs.{Put};

    ghost Value = { Put };

    ghost view = { λ p. record { address = p.address; bytes = p.bytes.items } };
}

impl SmallPut {
    ghost use Rattle.std.specs.Prelude.{◌≡◌};

    /// These bytes, to be written at this address.
    pub fn new(address: u64, bytes: ArrayVec<u8, 28>) -> Self
        ensures address { result.address ≡ address }
        ensures bytes { result.bytes ≡ bytes.items }
    {
        SmallPut { address, bytes }
    }

    /// Where the bytes go.
    pub fn address(&self) -> u64
        ensures { result ≡ self.now.address }
    {
        self.address
    }

    /// The bytes.
    pub fn bytes(&self) -> &[u8]
        ensures { result.now ≡ self.now.bytes }
    {
        &self.bytes
    }
}
