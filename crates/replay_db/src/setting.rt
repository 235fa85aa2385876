//! The files and the engine at the start of the run of a world.

ghost use Rattle.std.specs.Prelude.{◌≡◌, true, IfOk};
ghost use Rattle.ldv_value.specs.FileState.{files_test, initial_files};
ghost use Rattle.run_model.specs.SqlDatabase.{initial_database};
ghost use Rattle.sql_engine.specs.Asking.{database};
ghost use Rattle.sql_model.specs.Tables.{tables_test};

use file_tree::Tree;
use ldv_value::Files;
use sql_engine::Engine;
use sql_model::Tables;
use std::alloc::{AllocError, Global};

/// The files and the tables that a run changes.
#[derive(Drop)]
pub(crate) struct Setting {
    pub tree: Tree,
    pub engine: Engine,
}

/// The files of a world with no path touched, and its tables with no row changed.
pub(crate) fn setting_of(alloc: Global, files: Files, tables: Tables) -> Result<Setting, AllocError>
    requires files { files_test files ≡ true }
    requires tables { tables_test tables ≡ true }
    ensures tree { IfOk result (λ setting. setting.tree ≡ initial_files files) }
    ensures database { IfOk result (λ setting. database setting.engine ≡ initial_database tables) }
    ensures latest { IfOk result (λ setting. setting.engine.time ≡ 0) }
{
    let tree = Tree::of_files(alloc, files)?;
    let engine = Engine::of_tables(alloc, tables)?;
    Ok(Setting { tree, engine })
}
