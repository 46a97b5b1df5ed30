//! The port for C: one export a call, over the place that C owns. `ahci_ffi` says what each call does; here the port is
//! taken out of its place, the call is made, and the port put back. `c/ahci.h` declares the same for C.
#![tactic(auto, using(ahci_ffi::proofs::OverLemmas::none_changes, ahci_ffi::proofs::OverLemmas::none_reads, ahci_ffi::proofs::OverLemmas::none_supersedes, ahci_ffi::proofs::OverLemmas::none_writes, ahci_ffi::proofs::OverLemmas::some_changes, ahci_ffi::proofs::OverLemmas::some_reads, ahci_ffi::proofs::OverLemmas::some_supersedes, ahci_ffi::proofs::OverLemmas::some_writes))]

ghost use Rattle.std.specs.Prelude.{◌≡◌};

/// Takes the port out of its place, makes the call on it, puts it back by `back`, and returns the call's number; an empty place has no
/// port to call.
macro_rules! put_back {
    ($place:ident, $heap:ident, |$held:ident| $call:expr, $back:ident) => {{
        let Some(mut $held) = $place.take($heap) else {
            return Status::NoPort.code();
        };
        let answer = $call;
        $place.$back($held, answer)
    }};
}

/// Makes a call on the port of a place.
macro_rules! over {
    ($place:ident, $heap:ident, |$held:ident| $call:expr) => {
        put_back!($place, $heap, |$held| $call, back)
    };
}

/// The same of a call that takes the place of register writes: once it is done, nothing is half written.
macro_rules! superseding {
    ($place:ident, $heap:ident, |$held:ident| $call:expr) => {
        put_back!($place, $heap, |$held| $call, back_anew)
    };
}

mod alone;
mod check;
mod controlled;
mod controller;
mod create;
mod device;
mod events;
mod names;
mod query;
mod registers;
mod software;
#[cfg(test)]
mod tests;

/// The library's version: major, minor and patch, a byte each.
#[unsafe(no_mangle)]
pub extern "C" fn ahci_version() -> u32
    ensures { result ≡ 0x010100 }
{
    0x01_01_00
}
