ghost use Rattle.std.specs.Prelude.{◌≡◌};
ghost use Rattle.ahci_port.specs.Writes.{nothing_pending};

/// What software has written by `Port::write_register` of which the port's own registers show nothing yet.
#[derive(Clone, Copy, Debug, PartialEq, Eq)]
pub struct Pending {
    /// The bits of PxSACT whose bits of PxCI are to follow.
    pub sact: u32,
    /// Whether ST of PxCMD is off, after a failure.
    pub stopped: bool,
}

impl Pending {
    /// Nothing: what is there before the first write.
    pub fn nothing() -> Self
        ensures { result ≡ nothing_pending }
    {
        Pending {
            sact: 0,
            stopped: false,
        }
    }
}
