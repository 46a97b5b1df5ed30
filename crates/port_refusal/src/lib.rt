//! Why a port refuses a call: one list, with a name and a text for each reason.
#![tactic(auto)]

mod refusal;

pub use refusal::Refusal;

/// Matches a fault to the refusal with the same name: `same_name!(fault, TrimFault: Busy, Spent)`.
#[macro_export]
macro_rules! same_name {
    ($fault:ident, $faults:ident: $($name:ident),*) => {
        match $fault {
            $($faults::$name => $crate::Refusal::$name,)*
        }
    };
}
