//! Tests of a journal in a file: files of the system, the thread that keeps a journal, folds meanwhile, and how an operator's lines end
//! where the file fails.
#![tactic(auto)]

#[cfg(test)]
mod checks;
#[cfg(test)]
mod disk_file_tests;
#[cfg(test)]
mod error_tests;
#[cfg(test)]
mod fold_tests;
#[cfg(test)]
mod given_journal;
#[cfg(test)]
mod given_said;
#[cfg(test)]
mod heavy_turn_tests;
#[cfg(test)]
mod keeper_tests;
#[cfg(test)]
mod operator_tests;
#[cfg(test)]
mod peer_tests;
#[cfg(test)]
mod restart_tests;
#[cfg(test)]
mod timed_input_tests;
