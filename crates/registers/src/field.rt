// A field of a 32-bit register word: got, put and cleared by shift and mask.

ghost use Rattle.std.specs.Prelude.{◌≡◌, ◌-◌, ◌<◌, ◌^◌, min};
ghost use Rattle.registers.specs.Field.{digit, get, put, is_set};

// The `width` bits of a word from bit `place` on. A register's own numbers (OFFSET, READ, WRITE) are written at each register: the constant
// that a trait provides has no value in the proof of a caller, and one that each register gives with its ghost takes more lines than this.
#[derive(Clone, Copy, Debug, PartialEq, Eq)]
pub struct Field {
    pub place: u32,
    pub width: u32,
}

impl Field {
    // As many low bits set as the field has in the word.
    #[tactic(auto, using(crate::proofs::ShiftAndMask::ones_above))]
    fn mask(self) -> u32
        requires { self.place < 32 }
        ensures { result ≡ 2 ^ min self.width (32 - self.place) - 1 }
    {
        if self.width < 32 - self.place {
            (1u32 << self.width) - 1
        } else {
            0xFFFF_FFFF >> self.place
        }
    }

    // The field's value. Bits past the word's end read as 0.
    #[tactic(auto, using(crate::proofs::ShiftAndMask::get_code, crate::proofs::ShiftAndMask::get_past, std::proofs::lemmas::Nat::pow_pos, crate::proofs::FieldLaws::get_lt))]
    pub fn get(self, word: u32) -> u32
        ensures { (result ≡ get word self) × (result < 2 ^ self.width) }
    {
        if 32 <= self.place {
            return 0;
        }
        (word >> self.place) & self.mask()
    }

    // The word with the value's low bits in the field. Bits past the word's end are lost.
    #[tactic(auto, using(crate::proofs::ShiftAndMask::put_code, crate::proofs::ShiftAndMask::put_past))]
    pub fn put(self, word: u32, value: u32) -> u32
        ensures { result ≡ put word self value }
    {
        if 32 <= self.place {
            return word;
        }
        let mask = self.mask();
        (word & !(mask << self.place)) | ((value & mask) << self.place)
    }

    // The word with the field's bits clear.
    #[tactic(auto, using(crate::proofs::ShiftAndMask::clear_code, crate::proofs::ShiftAndMask::put_past))]
    pub fn clear(self, word: u32) -> u32
        ensures { result ≡ put word self 0 }
    {
        if 32 <= self.place {
            return word;
        }
        word & !(self.mask() << self.place)
    }

    // The word with a field of one bit set or cleared.
    pub fn switch(self, word: u32, on: bool) -> u32
        ensures { result ≡ put word self (digit on) }
    {
        if on {
            self.put(word, 1)
        } else {
            self.clear(word)
        }
    }

    // Whether a field of one bit is set.
    #[tactic(auto, unfolding(crate::specs::Field::is_set))]
    pub fn is_set(self, word: u32) -> bool
        ensures { result ≡ is_set word self }
    {
        self.get(word) == 1
    }
}
