ghost use Rattle.std.specs.Prelude.{◌≡◌, ℕ, ◌+◌, ◌≤◌, ◌++◌, ◌∷◌, [], List, IfSome, length, drop, slice_range};
ghost use Rattle.std.specs.Option.{option_copied};
ghost use Rattle.std.specs.List.{replace_range};
ghost use Rattle.sata_fis.specs.Encoding.{data_head_bytes};
ghost use Rattle.sata_fis.specs.Payload.{IsPayload};
ghost use Rattle.ncq_core.specs.DiskFis.{activate_bytes};
ghost use Rattle.ncq_core.specs.Traffic.{Passed, Setup, Data, Activate};

/// The memory that a command's data come from and go to (Serial ATA, "DMA Setup FIS", "DMA Activate FIS" and
/// "Data FIS"). A host has a text, which is a list of bytes, the last DMA Setup that came, and an offset: the place
/// in the text at which the next Data FIS begins. A Data FIS is one run of bytes, or its head and its payload lie apart, so that
/// no byte of it is copied that is at hand. Contracts also see which FISes the host saw, and in which order.
pub trait Host {
    // the bytes that a read fills and a write takes
    ghost text: { Self → List ℕ };

    // the bytes of the last DMA Setup
    ghost last_setup: { Self → List ℕ };

    // how many bytes of the text have moved since the last DMA Setup
    ghost offset: { Self → ℕ };

    // the second is the first but for its text, its last DMA Setup and its offset
    ghost keeps: { Self → Self → Type 0 };

    // the first has become the second by these FISes, the first of them first
    ghost saw: { Self → List Passed → Self → Type 0 };

    /// Takes a DMA Setup. The next Data FIS begins at the beginning of the text.
    fn setup(&mut self, fis: &[u8; 28])
        ensures setup { last_setup self.new ≡ fis.now }
        ensures offset { offset self.new ≡ 0 }
        ensures text { text self.new ≡ text self.old }
        ensures saw { saw self.old (Setup fis.now ∷ []) self.new }
        ensures others { keeps self.old self.new };

    /// Takes a whole Data FIS, whose reserved bytes are 0, and puts its payload at the offset.
    fn deliver(&mut self, fis: &[u8])
        requires head { fis.now ≡ data_head_bytes ++ drop 4 fis.now }
        requires data { IsPayload (drop 4 fis.now) }
        requires room { offset self.old + length (drop 4 fis.now) ≤ length (text self.old) }
        ensures text { text self.new ≡ replace_range (text self.old) (offset self.old) (offset self.old + length (drop 4 fis.now)) (drop 4 fis.now) }
        ensures offset { offset self.new ≡ offset self.old + length (drop 4 fis.now) }
        ensures setup { last_setup self.new ≡ last_setup self.old }
        ensures saw { saw self.old (Data (length (drop 4 fis.now)) ∷ []) self.new }
        ensures others { keeps self.old self.new };

    /// Takes a DMA Activate, whose reserved bytes are 0, and fills `out` with a whole Data FIS: 4 bytes of head, and the text from the offset on.
    fn activate(&mut self, fis: &[u8; 4], out: &mut [u8])
        requires activate { fis.now ≡ activate_bytes }
        requires data { IsPayload (drop 4 out.old) }
        requires room { offset self.old + length (drop 4 out.old) ≤ length (text self.old) }
        ensures out { out.new ≡ data_head_bytes ++ slice_range (text self.old) (offset self.old) (offset self.old + length (drop 4 out.old)) }
        ensures text { text self.new ≡ text self.old }
        ensures offset { offset self.new ≡ offset self.old + length (drop 4 out.old) }
        ensures setup { last_setup self.new ≡ last_setup self.old }
        ensures saw { saw self.old (Activate (length (drop 4 out.old)) ∷ []) self.new }
        ensures others { keeps self.old self.new };

    /// So many bytes of the text from the offset on, where the host has them in one run of memory.
    fn at_hand(&self, len: usize) -> Option<&[u8]>
        requires { offset self.now + len ≤ length (text self.now) }
        ensures { IfSome (option_copied result) (λ bytes. bytes ≡ slice_range (text self.now) (offset self.now) (offset self.now + len)) };

    /// Takes a DMA Activate as `activate` does, and answers with a Data FIS of a head and the next bytes `at_hand`, which nobody copies.
    fn activate_at_hand(&mut self, fis: &[u8; 4], len: usize)
        requires activate { fis.now ≡ activate_bytes }
        requires room { offset self.old + len ≤ length (text self.old) }
        requires data { IsPayload (slice_range (text self.old) (offset self.old) (offset self.old + len)) }
        ensures text { text self.new ≡ text self.old }
        ensures offset { offset self.new ≡ offset self.old + len }
        ensures setup { last_setup self.new ≡ last_setup self.old }
        ensures saw { saw self.old (Activate len ∷ []) self.new }
        ensures others { keeps self.old self.new };

    /// Takes a Data FIS as `deliver` does, whose head and payload lie apart.
    fn deliver_parts(&mut self, head: &[u8; 4], payload: &[u8])
        requires head { head.now ≡ data_head_bytes }
        requires data { IsPayload payload.now }
        requires room { offset self.old + length payload.now ≤ length (text self.old) }
        ensures text { text self.new ≡ replace_range (text self.old) (offset self.old) (offset self.old + length payload.now) payload.now }
        ensures offset { offset self.new ≡ offset self.old + length payload.now }
        ensures setup { last_setup self.new ≡ last_setup self.old }
        ensures saw { saw self.old (Data (length payload.now) ∷ []) self.new }
        ensures others { keeps self.old self.new };

    // `keeps` is reflexive
    ghost keeps_itself: { (a : Self) → keeps a a };

    // `keeps` is transitive
    ghost keeps_on: { (a b c : Self) → keeps a b → keeps b c → keeps a c };

    // no FIS leaves the host as it is
    ghost saw_none: { (a : Self) → saw a [] a };

    // FISes after one another
    ghost saw_more: { (a b c : Self) (first then : List Passed) → saw a first b → saw b then c → saw a (first ++ then) c };
}
