//! What stands at the paths of the server.

ghost use Rattle.std.specs.Prelude.{◌≡◌, None, Some, bytes_eq};
ghost use Rattle.server_http.specs.Replies.{IsAnswered, health_reply, is_looking, is_old, is_there, picture_reply, reply_at, reply_to, table_reply};

use crate::contents::Contents;
use crate::reply::Reply;
use crate::replying::fill;
use bytes::Bytes;
use http::Request;
use http_server::{Response, Service};
use std::alloc::{AllocError, Global};

/// For how many seconds a picture says how the centre is.
const MOST_AGE: u64 = 10;

/// What stands at the paths of the server at one moment.
#[derive(Drop)]
pub struct Site {
    alloc: Global,
    /// That moment, in seconds after 1970-01-01T00:00:00Z.
    second: u64,
    /// What is shown of the last picture that was taken.
    contents: Option<Contents>,
}

/// Whether a picture that was taken then says no more how the centre is.
fn is_old(now: u64, taken: u64) -> bool
    ensures { result ≡ is_old now taken }
{
    now.saturating_sub(taken) > MOST_AGE
}

fn health_reply(now: u64, contents: &Contents) -> Reply
    ensures { result ≡ health_reply now contents.now }
{
    if is_old(now, contents.taken) {
        Reply::NoNewPicture
    } else if contents.health.is_whole() {
        Reply::Whole
    } else {
        Reply::NotWhole
    }
}

/// What a table is answered: there is none of an old picture, or where the centre has no numbers.
fn table_reply(now: u64, contents: &Contents, table: Reply) -> Reply
    ensures { result ≡ table_reply now contents.now table }
{
    if is_old(now, contents.taken) {
        Reply::NoNewPicture
    } else if contents.health.has_numbers() {
        table
    } else {
        Reply::NotWhole
    }
}

fn is_same(found: &[u8], text: &[u8]) -> bool
    ensures { result ≡ bytes_eq found.now text.now }
{
    found == text
}

/// What stands at the path, which is one of the five, where there is a picture.
fn picture_reply(now: u64, contents: &Contents, path: &[u8]) -> Reply
    ensures { result ≡ picture_reply now contents.now path.now }
{
    if is_same(path, b"/") {
        Reply::Page
    } else if is_same(path, b"/boards.csv") {
        table_reply(now, contents, Reply::Boards)
    } else if is_same(path, b"/bscs.csv") {
        table_reply(now, contents, Reply::Bscs)
    } else if is_same(path, b"/metrics") {
        Reply::Metrics
    } else {
        health_reply(now, contents)
    }
}

/// Whether something stands at the path.
fn is_there(path: &[u8]) -> bool
    ensures { result ≡ is_there path.now }
{
    is_same(path, b"/")
        || is_same(path, b"/boards.csv")
        || is_same(path, b"/bscs.csv")
        || is_same(path, b"/metrics")
        || is_same(path, b"/health")
}

/// Whether it is a method that is answered.
fn is_looking(method: &[u8]) -> bool
    ensures { result ≡ is_looking method.now }
{
    is_same(method, b"GET") || is_same(method, b"HEAD")
}

impl Site {
    /// Nothing stands there yet but that there is no picture.
    pub fn new(alloc: Global) -> Site
        ensures { result.contents ≡ None }
    {
        Site {
            alloc,
            second: 0,
            contents: None,
        }
    }

    /// The moment goes on.
    pub fn set_second(&mut self, second: u64)
        ensures { self.new ≡ record self.old { second = second } }
    {
        self.second = second;
    }

    /// What is shown of another picture stands there.
    pub fn set_contents(&mut self, contents: Contents)
        ensures { self.new ≡ record self.old { contents = Some contents } }
    {
        self.contents = Some(contents);
    }

    /// What stands at the path.
    fn reply_at(&self, path: &[u8]) -> Reply
        ensures { result ≡ reply_at self.now.second self.now.contents path.now }
    {
        match &self.contents {
            Some(contents) => picture_reply(self.second, contents, path),
            None => Reply::NoPicture,
        }
    }

    /// What a request of that method is answered at the path.
    pub fn reply_to(&self, method: &str, path: &str) -> Reply
        ensures { result ≡ reply_to self.now.second self.now.contents method.now path.now }
    {
        if !is_there(path.as_bytes()) {
            Reply::NotFound
        } else if is_looking(method.as_bytes()) {
            self.reply_at(path.as_bytes())
        } else {
            Reply::NotAllowed
        }
    }
}

impl Service for Site {
    ghost answers = { λ old request response new. (new ≡ old) × IsAnswered old request response };

    fn call(
        &mut self,
        request: &Request<Bytes>,
        response: &mut Response,
    ) -> Result<(), AllocError> {
        let reply = self.reply_to(request.method().as_str(), request.uri().path());
        fill(self.alloc, response, self.second, &self.contents, reply)
    }
}
