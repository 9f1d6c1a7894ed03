//! Laws of the definitions, for whoever relies on them. The functions do nothing.
ghost use Rattle.std.specs.Prelude.{◌≡◌, ◌≤◌, ℕ, length, Ok};
ghost use Rattle.ternary_words.specs.Headline.Table.{Table};
ghost use Rattle.memory_text.specs.declared.memory.SlotMemory.{SlotMemory};
ghost use Rattle.memory_text.specs.declared.plan.SlotPlan.{SlotPlan};
ghost use Rattle.memory_text.specs.Memory.{entries_in};
ghost use Rattle.memory_text.specs.MemoryText.{memory_text, plan_text};
ghost use Rattle.memory_text.specs.Reading.{memory_in_text, plan_in_text};
ghost use Rattle.memory_text.specs.Spreading.{spread};
ghost use Rattle.memory_text.specs.Views.{memory_of, plan_of};

/// The text of a memory spells that memory.
pub fn written_memories_are_read()
    ensures { (memory : SlotMemory) → memory_in_text (memory_text (memory_of memory)) ≡ Ok (memory_of memory) }
{}

/// The text of a plan spells that plan.
pub fn written_plans_are_read()
    ensures { (plan : SlotPlan) → plan_in_text (plan_text (plan_of plan)) ≡ Ok (plan_of plan) }
{}

/// In as many slots as it has entries, or more, a table that is spread stands in order.
pub fn spread_tables_stand_in_order()
    ensures { (slots : ℕ) (table : Table) → length table.entries ≤ slots → entries_in (spread slots table).slots ≡ table.entries }
{}
