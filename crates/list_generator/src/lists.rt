//! Drawing a list, and headers to try it.
ghost use Rattle.std.specs.Prelude.{◌≡◌, ◌≤◌, ◌<◌, ◌^◌, IfOk, OnOk};
ghost use Rattle.razor_limits.specs.declared.limits.TheConstants.{MOST_RULES};
ghost use Rattle.list_generator.specs.DrawnHeaders.{state_behind};
ghost use Rattle.list_generator.specs.Generated.{IsGenerated};
ghost use Rattle.list_generator.specs.Loads.{IsLoad};

use crate::draws::Draws;
use crate::headers::draw_headers;
use crate::load::Load;
use crate::rule::add_drawn;
use field_boxes::{Decisions, RuleList};
use razor_limits::Memory;
use std::alloc::Global;

/// How many headers are drawn to try a list.
const HEADERS: u32 = 256;

/// The list of so many rules that is drawn next.
fn draw_list(alloc: Global, draws: &mut Draws, rules: u32) -> Result<RuleList, Memory>
    requires few { rules ≤ MOST_RULES }
    ensures list { IfOk result (λ list. IsGenerated draws.old.state rules list) }
    ensures state { OnOk result (draws.new.state ≡ state_behind rules draws.old.state) }
{
    let mut list = Vec::new(alloc);
    let mut names = Decisions::new(alloc);
    for _place in 0..rules {
        add_drawn(draws, &mut names, &mut list)?;
    }
    Ok(RuleList {
        rules: list,
        names,
        flagged: 0,
    })
}

/// The list of so many rules that the seed gives, its decisions numbered in first-seen order.
pub fn generate(alloc: Global, seed: u32, rules: u32) -> Result<RuleList, Memory>
    requires seed { seed < 2 ^ 31 }
    requires few { rules ≤ MOST_RULES }
    ensures { IfOk result (λ list. IsGenerated seed rules list) }
{
    draw_list(alloc, &mut Draws { state: seed }, rules)
}

/// The list of so many rules that the seed gives, and the 256 headers that are drawn behind it.
pub fn generate_load(alloc: Global, seed: u32, rules: u32) -> Result<Load, Memory>
    requires seed { seed < 2 ^ 31 }
    requires few { rules ≤ MOST_RULES }
    ensures { IfOk result (λ load. IsLoad seed rules load) }
{
    let mut draws = Draws { state: seed };
    let list = draw_list(alloc, &mut draws, rules)?;
    let headers = draw_headers(alloc, &mut draws, HEADERS)?;
    Ok(Load { list, headers })
}
