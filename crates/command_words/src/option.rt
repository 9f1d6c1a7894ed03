//! The options, and which of them a command takes.
ghost use Rattle.std.specs.Prelude.{◌≡◌, ◌≤◌, IfSome};
ghost use Rattle.razor_limits.specs.declared.limits.TheConstants.{MOST_ENTRIES};
ghost use Rattle.ternary_words.specs.Limits.{IsSlotWidth};
ghost use Rattle.command_words.specs.Options.{option_text, same_option, size_in, slot_width, value_label, width_in};

use crate::number::number_between;
use razor_base::limits::MOST_ENTRIES;

/// The options that there are.
#[derive(Clone, Copy, Debug, PartialEq, Eq)]
pub(crate) enum OptionName {
    /// `--limit`: the most entries of a table, 1 to 262,144.
    Limit,
    /// `--slot`: the bits of a slot, 104, 144 or 288.
    Slot,
    /// `--slots`: how many slots there are, 1 to 262,144.
    Slots,
    /// `--order`: the order of the fields, five digits from 0 to 4 or `best`.
    Order,
    /// `--swap`: how tables are replaced, `whole` or `patch`.
    Swap,
    /// `--by`: how tables are made, `compile` or `shorten`.
    By,
}

/// Whether an option that a command takes has to be there.
#[derive(Clone, Copy, Debug, PartialEq, Eq)]
pub(crate) enum Need {
    Maybe,
    Always,
}

/// An option that a command takes.
#[derive(Clone, Copy, Debug)]
pub(crate) struct Taken {
    pub option: OptionName,
    pub need: Need,
}

/// No option.
pub(crate) const NO_OPTION: [Taken; 0] = [];

/// The sizes of a table.
pub(crate) const SIZES: [Taken; 2] = [
    Taken {
        option: OptionName::Limit,
        need: Need::Maybe,
    },
    Taken {
        option: OptionName::Slot,
        need: Need::Maybe,
    },
];

/// The order of the fields, and the sizes of a table.
pub(crate) const ORDER_AND_SIZES: [Taken; 3] = [
    Taken {
        option: OptionName::Order,
        need: Need::Maybe,
    },
    Taken {
        option: OptionName::Limit,
        need: Need::Maybe,
    },
    Taken {
        option: OptionName::Slot,
        need: Need::Maybe,
    },
];

/// The number of slots of a memory.
pub(crate) const SLOTS: [Taken; 1] = [Taken {
    option: OptionName::Slots,
    need: Need::Always,
}];

/// The number of slots of a memory, the sizes of its tables, how they are replaced, and how they are made.
pub(crate) const SESSION: [Taken; 6] = [
    Taken {
        option: OptionName::Slots,
        need: Need::Always,
    },
    Taken {
        option: OptionName::Limit,
        need: Need::Maybe,
    },
    Taken {
        option: OptionName::Slot,
        need: Need::Maybe,
    },
    Taken {
        option: OptionName::Order,
        need: Need::Maybe,
    },
    Taken {
        option: OptionName::Swap,
        need: Need::Maybe,
    },
    Taken {
        option: OptionName::By,
        need: Need::Maybe,
    },
];

impl OptionName {
    /// Whether both are one option.
    pub fn is(self, other: OptionName) -> bool
        ensures { result ≡ same_option self other }
    {
        match (self, other) {
            (OptionName::Limit, OptionName::Limit)
            | (OptionName::Slot, OptionName::Slot)
            | (OptionName::Slots, OptionName::Slots)
            | (OptionName::Order, OptionName::Order)
            | (OptionName::Swap, OptionName::Swap)
            | (OptionName::By, OptionName::By) => true,
            _ => false,
        }
    }

    /// How the option is written.
    pub fn text(self) -> &'static str
        ensures { result.now ≡ option_text self }
    {
        match self {
            OptionName::Limit => "--limit",
            OptionName::Slot => "--slot",
            OptionName::Slots => "--slots",
            OptionName::Order => "--order",
            OptionName::Swap => "--swap",
            OptionName::By => "--by",
        }
    }

    /// What stands for its value in the usage text, with a blank in front.
    pub fn value_label(self) -> &'static str
        ensures { result.now ≡ value_label self }
    {
        match self {
            OptionName::Limit | OptionName::Slots => " N",
            OptionName::Slot => " W",
            OptionName::Order => " P",
            OptionName::Swap => " S",
            OptionName::By => " M",
        }
    }
}

/// The width of a slot, if it is one.
fn slot_width(bits: u32) -> Option<u32>
    ensures value { result ≡ slot_width bits }
    ensures taken { IfSome result IsSlotWidth }
{
    match bits {
        104 | 144 | 288 => Some(bits),
        _ => None,
    }
}

/// The width of a slot that a value of the option writes; none where the option doesn't take it.
#[tactic(auto, unfolding(crate::specs::Options::width_in))]
pub(crate) fn width_in(value: &[u8]) -> Option<u32>
    ensures value { result ≡ width_in value.now }
    ensures taken { IfSome result IsSlotWidth }
{
    slot_width(number_between(value, 0, 288)?)
}

/// The number of entries or slots that a value of an option writes; none where the option doesn't take it.
#[tactic(auto, unfolding(crate::specs::Options::size_in))]
pub(crate) fn size_in(value: &[u8]) -> Option<u32>
    ensures value { result ≡ size_in value.now }
    ensures taken { IfSome result (λ n. (1 ≤ n) × (n ≤ MOST_ENTRIES)) }
{
    number_between(value, 1, MOST_ENTRIES)
}
