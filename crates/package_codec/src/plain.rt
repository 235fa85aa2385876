//! Whether a version can write all of a package. Version 1 has no foreign keys, and no rules of them.

ghost use Rattle.std.specs.Prelude.{◌≡◌, true};
ghost use Rattle.std.specs.List.{list_all};
ghost use Rattle.package_codec.specs.Plain.{fits_version, is_plain, is_plain_act, is_plain_entry};
ghost use Rattle.package_codec.specs.Plain.{is_plain_event, is_plain_log, is_plain_need, is_plain_refusal};
ghost use Rattle.package_codec.specs.Plain.{is_plain_reply, is_plain_row, is_plain_rule, is_plain_table};
ghost use Rattle.package_codec.specs.CompactPackages.{expanded_package};
ghost use Rattle.package_codec.specs.Runs.{are_runs, events_in, is_run};

use crate::compact_package::CompactPackage;
use crate::trace::event_run::EventRun;
use crate::version::Version;
use run_model::{Act, Entry, Log, PackedRow, PackedTable};
use sql_model::{Need, Reply, Rule, SqlRefusal};

/// Whether a version can write all of a package. It takes no memory.
pub fn fits_version(version: Version, package: &CompactPackage) -> bool
    requires { are_runs «package».now.runs ≡ true }
    ensures { result ≡ fits_version version (expanded_package «package».now) }
{
    match version {
        Version::One => is_plain(package),
        Version::Two => true,
    }
}

#[tactic(auto, using(crate::proofs::Runs::are_all_runs))]
fn is_plain(package: &CompactPackage) -> bool
    requires { are_runs «package».now.runs ≡ true }
    ensures { result ≡ is_plain (expanded_package «package».now) }
{
    are_plain_tables(package.bare.tables.items())
        && are_plain_logs(package.bare.logs.items())
        && are_plain_runs(package.runs.items())
}

fn are_plain_tables(tables: &[PackedTable]) -> bool
    ensures { result ≡ list_all is_plain_table tables.now }
{
    tables.iter().all(|table| is_plain_table(table))
}

fn is_plain_table(table: &PackedTable) -> bool
    ensures { result ≡ is_plain_table table.now }
{
    table.schema.foreign.is_empty() && are_plain_rows(table.rows.items())
}

fn are_plain_rows(rows: &[PackedRow]) -> bool
    ensures { result ≡ list_all is_plain_row rows.now }
{
    rows.iter().all(|row| is_plain_rule(row.rule))
}

fn is_plain_rule(rule: Rule) -> bool
    ensures { result ≡ is_plain_rule rule }
{
    match rule {
        Rule::L => true,
        Rule::H => true,
        Rule::K => true,
        Rule::P => false,
        Rule::C => false,
    }
}

fn are_plain_logs(logs: &[Log]) -> bool
    ensures { result ≡ list_all is_plain_log logs.now }
{
    logs.iter()
        .all(|log| are_plain_entries(log.entries.items()))
}

fn are_plain_entries(entries: &[Entry]) -> bool
    ensures { result ≡ list_all is_plain_entry entries.now }
{
    entries.iter().all(|entry| is_plain_reply(&entry.reply))
}

fn is_plain_reply(reply: &Reply) -> bool
    ensures { result ≡ is_plain_reply reply.now }
{
    match reply {
        Reply::Rows(_) => true,
        Reply::Changed(_) => true,
        Reply::Refused(refusal) => is_plain_refusal(refusal),
    }
}

fn is_plain_refusal(refusal: &SqlRefusal) -> bool
    ensures { result ≡ is_plain_refusal refusal.now }
{
    match refusal {
        SqlRefusal::NoParent { table: _, key: _ } => false,
        SqlRefusal::HasChild { table: _, key: _ } => false,
        _ => true,
    }
}

// The events of a run have one act.
fn are_plain_runs(runs: &[EventRun]) -> bool
    requires { list_all is_run runs.now ≡ true }
    ensures { result ≡ list_all is_plain_event (events_in runs.now) }
{
    are_plain_firsts(runs)
}

fn are_plain_firsts(runs: &[EventRun]) -> bool
    ensures { result ≡ list_all (λ run. is_plain_act run.first.act) runs.now }
{
    runs.iter().all(|run| is_plain_act(&run.first.act))
}

fn is_plain_act(act: &Act) -> bool
    ensures { result ≡ is_plain_act act.now }
{
    match act {
        Act::Asked {
            statement: _,
            tables: _,
            reads,
            made: _,
        } => are_plain_needs(reads.items()),
        _ => true,
    }
}

fn are_plain_needs(needs: &[Need]) -> bool
    ensures { result ≡ list_all is_plain_need needs.now }
{
    needs.iter().all(|need| is_plain_rule(need.rule))
}
