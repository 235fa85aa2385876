//! The commands: of each a file, from its words and its input to its response.

pub(crate) mod audit;
pub(crate) mod generate;
pub(crate) mod inspection;
pub(crate) mod join;
pub(crate) mod migrate;
pub(crate) mod prov;
pub(crate) mod record;
pub(crate) mod replay;
pub(crate) mod replay_run;
pub(crate) mod replay_seed;
pub(crate) mod run;
pub(crate) mod table;
