//! Tests of the host, of its crates, and of the programs that use it.
//!
//! Worked values: blocks of the arena, numbers of a machine, words of results and of table entries, and measured bytes.
//! With them are scripts of calls that no plan makes, or whose answers no plan prints. The expected values are worked
//! out by hand or by another tool. A proof cannot see a mistake that a definition and the code share.
//!
//! Runs: hosts that builds share, workers in threads, and the parts of the programs over devices in memory. The answers
//! of calls are proved, and so are the operations of a worker after a refusal. These tests are for the rest: each
//! worker has a thread of its own, each thread ends, and a device is called as often as it has to be.
//!
//! Steps are spelled as in a plan, and expected values are rows of tables. One proved function runs the rows of a
//! table, and names the case and the row that fails. Each function of a test is proved, and a row costs next to
//! nothing. What the RMM's commands answer, and what they leave in their pages, is in `traces/`.
//! `tests/test_program.py` compares what the built programs print.
#![tactic(auto)]

#[cfg(test)]
mod blocks;
#[cfg(test)]
mod calls;
#[cfg(test)]
mod devices;
#[cfg(test)]
mod expected;
#[cfg(test)]
mod gates;
#[cfg(test)]
mod guests;
#[cfg(test)]
mod hosts;
#[cfg(test)]
mod left;
#[cfg(test)]
mod lines;
#[cfg(test)]
mod measured;
#[cfg(test)]
mod names;
#[cfg(test)]
mod numbers;
#[cfg(test)]
mod readings;
#[cfg(test)]
mod recorded;
#[cfg(test)]
mod refusals;
#[cfg(test)]
mod refused;
#[cfg(test)]
mod replay;
#[cfg(test)]
mod reports;
#[cfg(test)]
mod run;
#[cfg(test)]
mod scripts;
#[cfg(test)]
mod shared;
#[cfg(test)]
mod steps;
#[cfg(test)]
mod tables;
#[cfg(test)]
mod tellers;
#[cfg(test)]
mod text;
#[cfg(test)]
mod threads;
#[cfg(test)]
mod turns;
#[cfg(test)]
mod visits;
#[cfg(test)]
mod worker;
