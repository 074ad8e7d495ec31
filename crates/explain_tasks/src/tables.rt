//! Sets of numbers, as tables of booleans.
ghost use Rattle.std.specs.Prelude.{◌≡◌, ◌∷◌, ◌++◌, [], filter, map, not, IfOk, OnOk};
ghost use Rattle.formulas.specs.Marks.{IsTableOf, Marks, is_marked};
ghost use Rattle.formulas.specs.Mentions.{is_asking};
ghost use Rattle.formulas.specs.MentionViews.{mention_of};
ghost use Rattle.formulas.specs.State.{instance_of};
ghost use Rattle.explain_tasks.specs.Unused as defined;

use faults::NoMemory;
use formulas::{Instance, Mention, is_marked, mark};
use std::alloc::Global;

/// The predicates that are used.
pub(crate) fn asked_table(alloc: Global, mentions: &[Mention]) -> Result<Vec<bool>, NoMemory>
    ensures { IfOk result (λ table. IsTableOf is_asking (map mention_of mentions.now) table.items) }
{
    let mut table = Vec::new(alloc);
    for mention in mentions {
        mark_asked(mention, &mut table)?;
    }
    Ok(table)
}

/// Marks the predicate that is used.
fn mark_asked(mention: &Mention, table: &mut Vec<bool>) -> Result<(), NoMemory>
    ensures { OnOk result (Marks (λ n. is_asking n (mention_of mention.now)) table.old.items table.new.items) }
{
    match mention {
        Mention::Asked(predicate) => mark(predicate.0, table),
        Mention::Named(_) => Ok(()),
    }
}

/// The actions that the instances are of.
pub(crate) fn schema_table(alloc: Global, instances: &[Instance]) -> Result<Vec<bool>, NoMemory>
    ensures { IfOk result (λ table. IsTableOf defined.is_of_schema (map instance_of instances.now) table.items) }
{
    let mut table = Vec::new(alloc);
    for instance in instances {
        mark(instance.schema.0, &mut table)?;
    }
    Ok(table)
}

/// The numbers below `count` that are not marked, in order.
pub(crate) fn unmarked(alloc: Global, table: &[bool], count: usize) -> Result<Vec<usize>, NoMemory>
    ensures { IfOk result (λ found. found.items ≡ defined.without (is_marked table.now) count) }
{
    let mut found = Vec::new(alloc);
    for number in 0..count {
        add_if_unmarked(table, number, &mut found)?;
    }
    Ok(found)
}

/// Adds the number, if it is not marked.
fn add_if_unmarked(table: &[bool], number: usize, found: &mut Vec<usize>) -> Result<(), NoMemory>
    ensures { OnOk result (found.new.items ≡ found.old.items ++ filter (λ n. not (is_marked table.now n)) (number ∷ [])) }
{
    if is_marked(table, number) {
        return Ok(());
    }
    found.push(number)?;
    Ok(())
}
