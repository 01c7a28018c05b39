//! Candidates are settled: marked, round by round, until those that are left keep both rules.
#![tactic(auto)]

mod candidate;
mod covering;
pub mod rounds;
pub mod sifted;
mod standing;
mod standings;
