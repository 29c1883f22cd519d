//! Runs of `roam` over objects in memory: what no clause says of them, and what its contract comes to where
//! nothing outside can fail.
//!
//! For whoever changes the run. `calm_run` is proved for all words and files; the tests are one run of each command,
//! the engines that runs leave, and every call of the outside that fails in turn. Their expected values are worked by
//! hand. Further runs and all refusals are tables of `checks/`, which run the built program. There is no rule of the
//! mesher here.

#![tactic(auto)]

mod calm;
#[cfg(test)]
mod calm_tests;
#[cfg(test)]
mod command_tests;
#[cfg(test)]
mod engine_tests;
#[cfg(test)]
mod fault_tests;
#[cfg(test)]
mod files;
#[cfg(test)]
mod frail_shelf;
#[cfg(test)]
mod ran;
#[cfg(test)]
mod stands;

pub use calm::calm_run;
