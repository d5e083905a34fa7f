//! Tests of a server over sockets: what its contracts don't say.
//!
//! A test is a `Play` (`given_plays`): the words of a command line, and a list of acts of the operator and of the peers that play the
//! parts of BSCs (`peer`). The octets that peers send and get are written from the layouts of docs/FORMATS.md. A test demands an
//! answer by `expect`, `yes` or `same` and not by `?`: each is a call to the prover, and an early return a case for each value that
//! may be dropped there.
#![tactic(auto)]

#[cfg(test)]
mod alive_tests;
#[cfg(test)]
mod checks;
#[cfg(test)]
mod console_tests;
#[cfg(test)]
mod figure_tests;
#[cfg(test)]
mod fold_tests;
#[cfg(test)]
mod given_options;
#[cfg(test)]
mod given_plays;
#[cfg(test)]
mod given_texts;
#[cfg(test)]
mod keep_tests;
#[cfg(test)]
mod knock_tests;
#[cfg(test)]
mod link_tests;
#[cfg(test)]
mod metrics_page;
#[cfg(test)]
mod operator_tests;
#[cfg(test)]
mod peer;
#[cfg(test)]
mod port_tests;
#[cfg(test)]
mod query_tests;
#[cfg(test)]
mod reset_tests;
#[cfg(test)]
mod serving_tests;
#[cfg(test)]
mod settle_tests;
#[cfg(test)]
mod silent_tests;
#[cfg(test)]
mod socket_console;
#[cfg(test)]
mod telling_tests;
#[cfg(test)]
mod text_files;
#[cfg(test)]
mod word_tests;
