//! The page of a server and its figures over HTTP, for those who only look.
//!
//! Begin with `site`, which answers requests, and `serving`, whose one thread has all connections. What a request is answered is
//! defined in `specs/Replies.antt`; HTTP itself is read and written by `http_server`, whose contracts say that each answer goes out
//! as the site gave it. What the page and the figures are stands in `status_pages` and `status_figures`. No clause says what a
//! socket gives or when the thread goes on.
#![tactic(auto)]

mod contents;
mod counted_keys;
mod http_port;
mod pictures;
mod readiness;
mod refreshing;
mod reply;
mod replying;
mod serving;
mod site;
mod turns;
mod visit;
mod visiting;
mod visitor;

pub use contents::Contents;
pub use http_port::HttpPort;
pub use pictures::Pictures;
pub use reply::Reply;
pub use serving::serve_http;
pub use site::Site;
