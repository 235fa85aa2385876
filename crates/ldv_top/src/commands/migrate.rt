//! `migrate`: from a package of either version to the same package in the second version.

ghost use Rattle.std.specs.Prelude.{◌≡◌, ◌≤◌, length, map, string_bytes, IfOk, IfSome, OnOk};
ghost use Rattle.ldv_value.specs.Limits.{input_limit};
ghost use Rattle.package_codec.specs.CompactPackages.{expanded_package};
ghost use Rattle.package_codec.specs.Runs.{IsCut};
ghost use Rattle.package_layout.specs.Whole.{spelling};
ghost use Rattle.ldv_top.specs.Due.{response_due, due_spelling};
ghost use Rattle.ldv_top.specs.DueOfMigrations.{due_migrate};
ghost use Rattle.ldv_top.specs.Migrated.{IsMigration};
ghost use Rattle.ldv_top.specs.Words.{IsBounded};
ghost use Rattle.ldv_top.specs.WordsOfMigrations.{migrate_of};
ghost use Rattle.ldv_top.specs.declared.exit.Exit.{Exit};

use crate::command::Command;
use crate::laws::migration_law::migration_law;
use crate::reading::read_compact_of;
use crate::response::Response;
use ldv_value::Bytes;
use package_codec::CompactPackage;
use package_layout::{PackageStop, SpellStop, spell_compact};
use std::alloc::{AllocError, Global};

/// The command of the words after `migrate`.
pub(crate) fn migrate_of(words: &[String]) -> Option<Command>
    ensures command { result ≡ migrate_of (map string_bytes words.now) }
    ensures bounded { IfSome result (λ command. IsBounded command) }
{
    match words {
        [] => Some(Command::Migrate),
        _ => None,
    }
}

/// The response of `migrate` to an input. No list of the package's events is made.
pub(crate) fn migrate_response(alloc: Global, input: Bytes) -> Result<Response, AllocError>
    requires short { length input ≤ input_limit }
    ensures due { IfOk result (λ response. response_due response ≡ due_migrate input) }
    // Bytes to write are the same package.
    ensures migrated { OnOk result ((due_migrate input).exit ≡ Exit.Done
        → IsMigration input (due_migrate input).bytes) }
{
    migration_law();
    match read_compact_of(alloc, input) {
        Ok(package) => spelled_response(alloc, &package),
        Err(PackageStop::Damaged(kind)) => Ok(Response::Damaged(kind)),
        Err(PackageStop::NoMemory) => Err(AllocError),
    }
}

#[tactic(auto, using(crate::proofs::RecordLaws::spelling_ends))]
fn spelled_response(alloc: Global, package: &CompactPackage) -> Result<Response, AllocError>
    requires { IsCut «package».now.runs }
    ensures { IfOk result (λ response. response_due response
        ≡ due_spelling (spelling (expanded_package «package».now))) }
{
    match spell_compact(alloc, package) {
        Ok(bytes) => Ok(Response::Written(bytes)),
        Err(SpellStop::TooLong) => Ok(Response::PackageTooLong),
        Err(SpellStop::NoMemory) => Err(AllocError),
    }
}
