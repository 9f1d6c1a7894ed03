//! The width of a slot.
ghost use Rattle.ternary_words.specs.Limits.{IsSlotWidth};

/// The width of a slot, in bits: 104, 144 or 288.
#[derive(Clone, Copy, Debug, PartialEq, Eq)]
pub struct SlotWidth {
    pub bits: u16,
    pub ghost known: { ∥ IsSlotWidth bits ∥₁ },
}

impl SlotWidth {
    ghost use Rattle.std.specs.Prelude.{◌≡◌, ◌↔◌, IfSome, IsSome};
    ghost use Rattle.ternary_words.specs.Limits.{IsSlotWidth};

    /// The width of so many bits; none where no slot has it.
    pub fn of(bits: u16) -> Option<SlotWidth>
        ensures bits { IfSome result (λ width. width.bits ≡ bits) }
        ensures some { IsSome result ↔ ∥ IsSlotWidth bits ∥₁ }
    {
        match bits {
            104 | 144 | 288 => Some(SlotWidth { bits }),
            _ => None,
        }
    }
}
