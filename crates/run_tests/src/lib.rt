//! Tests of runs, packages and the program, for facts that neither a proof nor a case of bytes shows.
//!
//! They cover sizes, streams that fail, graphs of traces, and calls that no command makes. Tests by bytes
//! belong into the cases of `conformance`, and `library_tests` has the tests of the libraries up to the
//! engine. The expected values were worked out by hand.
#![tactic(auto)]

#[cfg(test)]
mod between;
#[cfg(test)]
mod copies;
#[cfg(test)]
mod exits;
#[cfg(test)]
mod faults;
#[cfg(test)]
mod graphs;
#[cfg(test)]
mod joins;
#[cfg(test)]
mod limits;
#[cfg(test)]
mod long_packages;
#[cfg(test)]
mod recorded;
#[cfg(test)]
mod replays;
#[cfg(test)]
mod sizes;
#[cfg(test)]
mod streams;
#[cfg(test)]
mod worlds;
