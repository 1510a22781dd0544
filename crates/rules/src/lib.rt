// The rules: what a Rabin table, its translation and a judgement are (specs/), and the laws about them (proofs/).
// It rests on nothing but the toolchain's library. The crates above cite its definitions in their contracts, and write its limits and
// refusals by the names that are given here; its only code gives a refusal and a result their numbers.
#![tactic(auto)]

pub mod limit;
pub mod refusal;
