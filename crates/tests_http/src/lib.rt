//! Tests of the page over sockets: what its contracts don't say.
//!
//! A page is served by the thread of `server_http` at a free port, from given pictures, while a client asks (`given_page`). What is
//! wanted is written from RFC 9110 and from docs/INSTALLING.md.
#![tactic(auto)]

#[cfg(test)]
mod answer_tests;
#[cfg(test)]
mod checks;
#[cfg(test)]
mod clients;
#[cfg(test)]
mod given_page;
#[cfg(test)]
mod given_pictures;
#[cfg(test)]
mod visitor_tests;
