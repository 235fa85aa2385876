//! The law of `migrate`.

ghost use Rattle.std.specs.Prelude.{◌≡◌, ◌≤◌, ℕ, List as Items, Ok, length};
ghost use Rattle.ldv_value.specs.Limits.{input_limit};
ghost use Rattle.run_model.specs.declared.package.Package.{Package};
ghost use Rattle.package_layout.specs.Valid.{IsValidPackage, IsSpelled, reading};
ghost use Rattle.package_layout.specs.Whole.{IsTyped};
ghost use Rattle.ldv_top.specs.DueOfMigrations.{due_migrate};
ghost use Rattle.ldv_top.specs.Migrated.{IsMigration};
ghost use Rattle.ldv_top.specs.declared.exit.Exit.{Exit};

use package_layout::round_trip_law;
use replay_db::audit_law;

/// The migrated package of an input, of either version and either kind, is read as the same package. So
/// replays, tables and reports are the same, and the audit finds both sound or neither. The function does
/// nothing: its contract is the theorem.
pub fn migration_law()
    ensures { (input : Items ℕ) («package» : Package) → length input ≤ input_limit
        → IsTyped «package» → IsValidPackage «package» → IsSpelled input «package»
        → reading input ≡ Ok «package» → (due_migrate input).exit ≡ Exit.Done
        → IsMigration input (due_migrate input).bytes }
{
    audit_law();
    round_trip_law();
}
