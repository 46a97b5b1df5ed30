//! What follows from the definition. The functions change nothing: each is there for its clauses.
ghost use Rattle.std.specs.Prelude.{◌≡◌, ◌↔◌, ◌⊎◌, ◌∷◌, ℕ, List, false, true};
ghost use Rattle.ncq_journal.specs.Entry.{Entry, Unqueued, Zero};
ghost use Rattle.ncq_journal.specs.Image.{is_within, sector_at, zero_sector};
ghost use Rattle.ncq_journal.specs.Phase.{is_busy, phase};
ghost use Rattle.ncq_journal.specs.Sector.{sector};
ghost use Rattle.ncq_journal.specs.declared.plain.Plain.TheVariants.{Flush};
ghost use Rattle.power_loss.specs.Leaving.{MayBeLeft, sector_from};

/// A sector that is followed from its own bytes is the one of the image that the journal leaves.
pub fn a_sector_is_that_of_the_image()
    ensures { (image : List ℕ) (past : List Entry) (s : ℕ) → sector_from (sector_at image s) past s ≡ sector image past s }
{}

/// The disk may have lost nothing.
pub fn a_disk_may_keep_all()
    ensures { (was : List ℕ) (past : List Entry) (s : ℕ) → MayBeLeft was past s (sector_from was past s) }
{}

/// After a flush it has all, and nothing else, while no command is outstanding.
pub fn a_flush_keeps_all()
    ensures { (was : List ℕ) (past : List Entry) (s : ℕ) (bytes : List ℕ) → ((tag : ℕ) → is_busy (phase past tag) ≡ false)
        → MayBeLeft was (Unqueued Flush ∷ past) s bytes → bytes ≡ sector_from was past s }
{}

/// Sectors that became zeros after the last flush may be zeros, or have what they might have had without that; and nothing else.
pub fn zeros_may_be_lost()
    ensures { (was : List ℕ) (past : List Entry) (lba sectors s : ℕ) (bytes : List ℕ)
        → MayBeLeft was (Zero lba sectors ∷ past) s bytes ↔ (MayBeLeft was past s bytes ⊎ ((is_within lba sectors s ≡ true) × (bytes ≡ zero_sector))) }
{}

/// Right after a flush they are zeros, and nothing else, while no command is outstanding.
pub fn a_flush_keeps_zeros()
    ensures { (was : List ℕ) (past : List Entry) (lba sectors s : ℕ) (bytes : List ℕ) → ((tag : ℕ) → is_busy (phase past tag) ≡ false)
        → is_within lba sectors s ≡ true → MayBeLeft was (Unqueued Flush ∷ Zero lba sectors ∷ past) s bytes → bytes ≡ zero_sector }
{}
