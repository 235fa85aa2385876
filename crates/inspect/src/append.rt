//! Parts of the lines of reports.

ghost use Rattle.std.specs.Prelude.{◌≡◌, ◌++◌, OnOk};
ghost use Rattle.inspect.specs.RowReports.{rule_text};

use ldv_value::Bytes;
use sql_model::Rule;
use std::alloc::AllocError;

/// The letter of a rule.
pub(crate) fn append_rule(to: &mut Bytes, rule: Rule) -> Result<(), AllocError>
    ensures { OnOk result (to.new ≡ to.old ++ rule_text rule) }
{
    match rule {
        Rule::L => to.extend(b"L"),
        Rule::H => to.extend(b"H"),
        Rule::K => to.extend(b"K"),
        Rule::P => to.extend(b"P"),
        Rule::C => to.extend(b"C"),
    }
}
