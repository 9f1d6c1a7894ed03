//! What the options of a command come to.
ghost use Rattle.std.specs.Prelude.{◌≡◌, ◌≤◌, Some, IfSome, option_and_then};
ghost use Rattle.std.specs.Option.{option_map};
ghost use Rattle.razor_limits.specs.declared.limits.TheConstants.{MOST_ENTRIES};
ghost use Rattle.ternary_words.specs.Limits.{IsSlotWidth};
ghost use Rattle.command_words.specs.Forms.{form_seen};
ghost use Rattle.command_words.specs.Options.{given, optional, or_usual, size_in, width_in};
ghost use Rattle.command_words.specs.Orders.{order_wanted};
ghost use Rattle.command_words.specs.Parts.{found_seen};
ghost use Rattle.command_words.specs.Spelling.{settings_of};
ghost use Rattle.command_words.specs.Settings.{by_seen, settings_seen, swap_seen, wanted_seen};
ghost use Rattle.command_words.specs.Sessions.{Compiling, by_written};
ghost use Rattle.command_words.specs.Swaps.{Whole, swap_written};

use crate::form::{CommandForm, need_of};
use crate::option::{Need, OptionName, size_in, width_in};
use crate::parts::Parts;
use crate::sessions::{By, by_written};
use crate::sizes::{Sizes, Slots};
use crate::swap::{Swap, swap_written};
use crate::wanted::{Wanted, order_wanted};
use razor_base::limits::MOST_ENTRIES;
use ternary_words::{Limit, SlotWidth};

/// What the options come to, each that is left out to its usual value.
#[derive(Clone, Copy)]
pub(crate) struct Settings {
    pub sizes: Sizes,
    pub slots: Slots,
    pub order: Option<Wanted>,
    pub swap: Swap,
    pub by: By,
}

/// The value of an option as a command takes it, or none of it where it is left out; nothing where the command
/// doesn't take the option, or it has to be there.
fn given<'a>(need: Option<Need>, value: Option<&'a [u8]>) -> Option<Option<&'a [u8]>>
    ensures { option_map (option_map (λ bytes. bytes.now)) result ≡ given need (option_map (λ bytes. bytes.now) value.entry) }
{
    match (need, value) {
        (None, Some(_)) => None,
        (Some(Need::Always), None) => None,
        (_, value) => Some(value),
    }
}

/// A number of entries or slots, the greatest where it is left out.
fn size(need: Option<Need>, value: Option<&[u8]>) -> Option<u32>
    ensures value { result ≡ option_and_then (or_usual MOST_ENTRIES size_in) (given need (option_map (λ bytes. bytes.now) value.entry)) }
    ensures taken { IfSome result (λ n. (1 ≤ n) × (n ≤ MOST_ENTRIES)) }
{
    match given(need, value)? {
        Some(value) => size_in(value),
        None => Some(MOST_ENTRIES),
    }
}

/// The width of a slot, 144 where it is left out.
fn width(need: Option<Need>, value: Option<&[u8]>) -> Option<u32>
    ensures value { result ≡ option_and_then (or_usual 144 width_in) (given need (option_map (λ bytes. bytes.now) value.entry)) }
    ensures taken { IfSome result IsSlotWidth }
{
    match given(need, value)? {
        Some(value) => width_in(value),
        None => Some(144),
    }
}

/// The order that is wanted, none where it is left out.
fn wanted(need: Option<Need>, value: Option<&[u8]>) -> Option<Option<Wanted>>
    ensures { option_map (option_map wanted_seen) result ≡ option_and_then (optional order_wanted) (given need (option_map (λ bytes. bytes.now) value.entry)) }
{
    match given(need, value)? {
        Some(value) => Some(Some(order_wanted(value)?)),
        None => Some(None),
    }
}

/// How tables are replaced, whole where it is left out.
fn swap(need: Option<Need>, value: Option<&[u8]>) -> Option<Swap>
    ensures { option_map swap_seen result ≡ option_and_then (or_usual Whole swap_written) (given need (option_map (λ bytes. bytes.now) value.entry)) }
{
    match given(need, value)? {
        Some(value) => swap_written(value),
        None => Some(Swap::Whole),
    }
}

/// How tables are made, compiled where it is left out.
fn by(need: Option<Need>, value: Option<&[u8]>) -> Option<By>
    ensures { option_map by_seen result ≡ option_and_then (or_usual Compiling by_written) (given need (option_map (λ bytes. bytes.now) value.entry)) }
{
    match given(need, value)? {
        Some(value) => by_written(value),
        None => Some(By::Compiling),
    }
}

/// What the options of the form come to.
pub(crate) fn settings_of(form: &CommandForm, parts: &Parts<'_>) -> Option<Settings>
    ensures { option_map settings_seen result ≡ settings_of (form_seen form.now) (found_seen parts.now) }
{
    let limit = size(need_of(form.options, OptionName::Limit), parts.limit)?;
    let slot = width(need_of(form.options, OptionName::Slot), parts.slot)?;
    let slots = size(need_of(form.options, OptionName::Slots), parts.slots)?;
    let order = wanted(need_of(form.options, OptionName::Order), parts.order)?;
    let swap = swap(need_of(form.options, OptionName::Swap), parts.swap)?;
    let by = by(need_of(form.options, OptionName::By), parts.by)?;
    Some(Settings {
        sizes: Sizes {
            limit: Limit { count: limit },
            slot: SlotWidth { bits: slot as u16 },
        },
        slots: Slots { count: slots },
        order,
        swap,
        by,
    })
}
