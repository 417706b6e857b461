// The non-blocking driver: the calls of a `Link`, by value and lent, and the statements that this crate promises.
#![tactic(auto)]

ghost use Rattle.bench_table.specs.BenchTable.{BenchTable};
ghost use Rattle.nonblocking_meaning.specs.EqualEnding.{EqualEnding};
ghost use Rattle.nonblocking_meaning.specs.NeverImpossible.{NeverImpossible};

mod check;
mod construct;
mod control;
mod getters;
pub mod lent;
pub mod link;
mod master;
mod slave;
mod steps;
mod watchdog;

// The equal-ending statement, as a promise of this crate: two links that take one start end alike, and no stale byte is shown.
#[tactic(auto, using(nonblocking_meaning::proofs::Theorem::equal_ending))]
pub fn equal_ending()
    ensures { EqualEnding }
{}

// No link that calls leave is impossible, as a promise: after any history no call answers 12.
#[tactic(auto, using(nonblocking_meaning::proofs::NeverImpossible::never_impossible))]
pub fn never_impossible()
    ensures { NeverImpossible }
{}

// Document 01's bench table, as a promise: every row of it holds of the definitions that the contracts cite.
#[tactic(auto, using(bench_table::proofs::Theorem::bench_table))]
pub fn bench_table()
    ensures { BenchTable }
{}
