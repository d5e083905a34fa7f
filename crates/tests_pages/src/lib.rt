//! Tests of the page, the tables and the metrics of a picture, and of what makes a BSC forget what it broadcasts: what their contracts
//! don't say.
#![tactic(auto)]

#[cfg(test)]
mod checks;
#[cfg(test)]
mod escape_tests;
#[cfg(test)]
mod figure_tests;
#[cfg(test)]
mod order_tests;
#[cfg(test)]
mod page_tests;
#[cfg(test)]
mod pictures;
#[cfg(test)]
mod reset_tests;
#[cfg(test)]
mod silent_tests;
#[cfg(test)]
mod standing_tests;
#[cfg(test)]
mod values;
