//! Worlds.

use ldv_value::{Files, Words};
use script_parse::Script;
use sql_model::Tables;

/// What a run starts from: the path of the first script and its arguments, the scheduler's seed, the
/// files, sorted by path, and the tables, sorted by name.
#[derive(Drop)]
pub struct World {
    pub start: Words,
    pub seed: u64,
    pub files: Files,
    pub tables: Tables,
}

/// A world with its first script, parsed from the file at the first start word while the world was checked,
/// so it needn't be parsed again.
#[derive(Drop)]
pub struct ParsedWorld {
    pub world: World,
    pub script: Script,
}
