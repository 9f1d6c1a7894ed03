//! A compiler of lists one after another.
ghost use Rattle.std.specs.Prelude.{◌≡◌, IfSome, List, ℕ};
ghost use Rattle.redundancy.specs.Removal.{UnlessMemory};
ghost use Rattle.rule_compilation.specs.Kept.{IsTrue};

use crate::kept::Kept;
use field_boxes::{Decisions, Order, Rule};
use razor_limits::Memory;
use std::alloc::Global;
use std::marker::Model;
use table_compose::ComposeError;
use ternary_words::{Limit, SlotWidth, Table};

/// Compiles lists one after another, in one order of the fields, and keeps what it works out: a list that is much like
/// an earlier one takes little time.
///
/// What is kept changes no table. It takes room by all the diagrams that were met; where there are more than twice as many
/// nodes as after the first list, all is given back, and the next list begins anew. So it does after a refusal of memory.
#[derive(Drop)]
pub struct Compiler<'a> {
    alloc: Global,
    order: &'a [u8],
    kept: Option<Kept<'a>>,
}

impl<'a> Model for Compiler<'a> {
    ghost use Rattle.std.specs.Prelude.{IfSome, List, ℕ};
    ghost use Rattle.field_boxes.specs.Orders.{IsOrder};
    ghost use Rattle.rule_compilation.specs.Kept.{IsTrue};

    ghost Value = { List ℕ };

    ghost view = { λ c. c.order.now };

    ghost invariant = { λ c. IsOrder c.order.now × IfSome c.kept (IsTrue c.order.now) };
}

impl<'a> Compiler<'a> {
    ghost use Rattle.std.specs.Prelude.{◌≡◌, ◌≤◌, ℕ, All, IfOk, MatchResult};
    ghost use Rattle.field_boxes.specs.NamedRules.{IsNumberedBy, named_rules};
    ghost use Rattle.ternary_words.specs.Views.{table_of};
    ghost use Rattle.table_compose.specs.Headline.LeastCost.{IsLeastCost};
    ghost use Rattle.rule_compilation.specs.Compiled.{IsCompiledIn, IsRefusedIn};
    ghost use Rattle.rule_compilation.specs.Kept.{IsTrue};

    /// A compiler that has met no list, for tables that are composed in the order of the fields.
    pub fn new(alloc: Global, order: &'a Order) -> Compiler<'a>
        ensures order { result ≡ order.now }
    {
        Compiler {
            alloc,
            order: order.fields(),
            kept: None,
        }
    }

    /// The table that [`crate::compile_in`] makes in the order, with the same promises.
    pub fn compile(
        &mut self,
        rules: &[Rule],
        names: &Decisions,
        limit: Limit,
        slot: SlotWidth,
    ) -> Result<Table, ComposeError>
        requires numbered { All (IsNumberedBy names.now) rules.now }
        ensures table { MatchResult result
            (λ table. IsCompiledIn self.old (named_rules names.now rules.now) slot.bits (table_of table))
            (λ e. IsRefusedIn self.old (named_rules names.now rules.now) limit.count e) }
        ensures names { IfOk result (λ table. table.names ≡ names.now) }
        ensures room { IfOk result (λ table. (needed : ℕ) → IsLeastCost self.old (named_rules names.now rules.now) needed → needed ≤ limit.count) }
        ensures order { self.new ≡ self.old }
    {
        let mut kept = self.taken()?;
        let made = kept.compile(self.alloc, self.order, rules, names, limit, slot);
        self.kept = lasting(kept, &made);
        made
    }

    /// Takes what is kept, or begins anew.
    fn taken(&mut self) -> Result<Kept<'a>, Memory>
        ensures kept { IfOk result (IsTrue self.old) }
        ensures order { self.new ≡ self.old }
    {
        if let Some(kept) = self.kept.take() {
            return Ok(kept);
        }
        Kept::new(self.alloc, self.order)
    }
}

/// What is kept, unless memory was refused, or it has doubled.
fn lasting<'a>(kept: Kept<'a>, made: &Result<Table, ComposeError>) -> Option<Kept<'a>>
    ensures { (order : List ℕ) → UnlessMemory made.now (IsTrue order kept.entry) → IfSome result (IsTrue order) }
{
    match made {
        Ok(_) => unless_doubled(kept),
        Err(ComposeError::TooMany { .. }) => unless_doubled(kept),
        Err(ComposeError::Memory) => None,
    }
}

/// What is kept, unless it has doubled.
///
/// What has doubled is given back now, and not with the next list, which is compiled anew: so neither takes much
/// longer than compiling anew alone.
fn unless_doubled<'a>(mut kept: Kept<'a>) -> Option<Kept<'a>>
    ensures { (order : List ℕ) → IsTrue order kept.entry → IfSome result (IsTrue order) }
{
    kept.count_first();
    if kept.has_doubled() { None } else { Some(kept) }
}
