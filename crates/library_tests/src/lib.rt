//! Tests of the libraries up to the engine, for facts that neither a proof nor a case of bytes shows.
//!
//! They cover that calls succeed if memory is left, values from outside for definitions that no command
//! reaches, streams that fail, the rows that each row of an answer comes from, and tables through time. Tests
//! by bytes belong into the cases of `conformance`. `run_tests` has the tests of runs, packages and the
//! program. Both crates have only tests, so no library is proved twice for its tests; they are two crates, so
//! this one is proved while the upper libraries are.
//!
//! Statements are over one table t with the columns k INT NOT NULL, g TEXT and v INT, the key k and a few
//! rows (`rows.rt`). Their results were worked out by hand.
#![tactic(auto)]

#[cfg(test)]
mod answered;
#[cfg(test)]
mod asked;
#[cfg(test)]
mod chains;
#[cfg(test)]
mod expressions;
#[cfg(test)]
mod flat_rows;
#[cfg(test)]
mod kernels;
#[cfg(test)]
mod lineage_rows;
#[cfg(test)]
mod lineages;
#[cfg(test)]
mod lists;
#[cfg(test)]
mod needs;
#[cfg(test)]
mod parents;
#[cfg(test)]
mod ready;
#[cfg(test)]
mod rows;
#[cfg(test)]
mod schemas;
#[cfg(test)]
mod session;
#[cfg(test)]
mod sets;
#[cfg(test)]
mod shown;
#[cfg(test)]
mod stored;
#[cfg(test)]
mod streams;
#[cfg(test)]
mod times;
#[cfg(test)]
mod trees;
#[cfg(test)]
mod validity;
#[cfg(test)]
mod values;
