//! Labels and their places.

ghost use Rattle.std.specs.Prelude.{◌≡◌, List, ℕ, IfOk, OnOk, if◌then◌else◌};
ghost use Rattle.std.specs.BTreeMap.{get_by_text};
ghost use Rattle.std.specs.Option.{option_or};
ghost use Rattle.script_parse.specs.Script.{labels_from, labels_in, instructions_in, definition_of, look_up};
ghost use Rattle.script_parse.specs.Names.{is_text};

use crate::line::{Definition, Entries, Entry, Line};
use ldv_value::Utf8;
use std::alloc::{AllocError, Global};
use std::collections::BTreeMap;

/// The first definition of each label.
pub(crate) type Labels = BTreeMap<String, Definition>;

/// The labels that lines define.
pub(crate) fn labels(alloc: Global, entries: &Entries) -> Result<Labels, AllocError>
    ensures { IfOk result (λ labels. (name : List ℕ) → get_by_text labels name ≡ look_up entries.now name) }
{
    let mut labels = Labels::new(alloc);
    let mut place: usize = 0;
    for entry in entries.items() {
        add_label(alloc, &mut labels, entry, place)?;
        if is_instruction(&entry.line) {
            place += 1;
        }
    }
    Ok(labels)
}

fn is_instruction(line: &Option<Line>) -> bool
    ensures { instructions_in line.now ≡ (if result then 1 else 0) }
{
    match line {
        None => false,
        Some(Line::Blank) => false,
        Some(Line::Label(_)) => false,
        Some(Line::Plain(_)) => true,
        Some(Line::Jumping(_, _)) => true,
    }
}

// Adds the label of a line, if it defines one, with the number of instructions before it.
fn add_label(
    alloc: Global,
    labels: &mut Labels,
    entry: &Entry,
    place: usize,
) -> Result<(), AllocError>
    ensures { OnOk result ((name : List ℕ)
        → get_by_text labels.new name
        ≡ option_or (get_by_text labels.old name) (definition_of (labels_in entry.now.number place
        entry.now.line) name)) }
{
    match &entry.line {
        None => Ok(()),
        Some(Line::Blank) => Ok(()),
        Some(Line::Label(name)) => define(
            alloc,
            labels,
            name,
            Definition {
                line: entry.number,
                place,
            },
        ),
        Some(Line::Plain(_)) => Ok(()),
        Some(Line::Jumping(_, _)) => Ok(()),
    }
}

// Adds a label, if it isn't there.
fn define(
    alloc: Global,
    labels: &mut Labels,
    name: &Utf8,
    definition: Definition,
) -> Result<(), AllocError>
    ensures { OnOk result ((q : List ℕ) → get_by_text labels.new q
        ≡ option_or (get_by_text labels.old q) (if is_text name.now q then Some definition else None)) }
{
    if labels.contains_key(name.as_str()) {
        return Ok(());
    }
    let key = String::from_str(alloc, name.as_str())?;
    labels.insert(key, definition)?;
    Ok(())
}
