use std::marker::Model;

/// A slot of the command list, below 32 (AHCI 1.3.1, section 4.2.2). Contracts see its number.
#[derive(Clone, Copy, Debug, PartialEq, Eq)]
pub struct Slot {
    number: u8,
}

impl Model for Slot {
    ghost use Rattle.std.specs.Prelude.{◌<◌, ℕ};

    ghost Value = { ℕ };

    ghost view = { λ s. s.number };

    ghost invariant = { λ s. s.number < 32 };

    ghost inverse = { λ s. record { number = s } };
}

impl Slot {
    ghost use Rattle.std.specs.Prelude.{◌≡◌, ◌<◌};
    ghost use Rattle.hba_regs.specs.HbaState.{slot_of};

    /// The slot of a number, or `None` if it is 32 or more.
    pub fn of(number: u32) -> Option<Slot>
        ensures { result ≡ slot_of number }
    {
        if number < 32 {
            Some(Slot {
                number: number as u8,
            })
        } else {
            None
        }
    }

    /// Its number.
    pub fn number(self) -> u8
        ensures value { result ≡ self }
        ensures below { result < 32 }
    {
        self.number
    }

    /// Its place in a list of all slots.
    pub fn index(self) -> usize
        ensures value { result ≡ self }
        ensures below { result < 32 }
    {
        usize::from(self.number)
    }
}
