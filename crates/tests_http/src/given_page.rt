//! A page that is served while a client asks.

use crate::answer_tests::{Row, asks};
use crate::checks::yes;
use crate::given_pictures::{Given, GivenPictures};
use crate::visitor_tests::{ask_at_once, ask_often, rest, send_more, stay};
use server_http::{HttpPort, serve_http};
use std::alloc::Global;
use std::net::{Net, SocketAddr, TcpListener, TcpStream};
use std::process::Abort;
use std::sync::Wait;
use std::sync::atomic::Ordering;
use std::thread;
use std::thread::Threads;
use std::time::Clock;

/// What a client does.
#[derive(Drop)]
pub(crate) enum Client {
    /// It asks so.
    Asks(&'static [Row]),
    /// It asks often.
    AsksOften,
    /// It asks for many pages at once.
    AsksAtOnce,
    /// It sends more behind an answer.
    SendsMore,
    /// Many stay.
    Stays,
    /// It stays, and asks nothing.
    Rests,
}

/// The client does so.
fn plays<R: Clock + Abort + Net<Stream = TcpStream, Listener = TcpListener>>(
    rt: &R,
    alloc: Global,
    address: &SocketAddr,
    client: Client,
) {
    match client {
        Client::Asks(rows) => asks(rt, alloc, address, rows),
        Client::AsksOften => ask_often(rt, alloc, address),
        Client::AsksAtOnce => ask_at_once(rt, alloc, address),
        Client::SendsMore => send_more(rt, alloc, address),
        Client::Stays => stay(rt, alloc, address),
        Client::Rests => rest(rt, address),
    }
}

/// Serves the page of those pictures while the client asks. The answer is how many pictures were taken.
pub(crate) fn served<
    R: Wait + Threads + Clock + Sync + Abort + Net<Stream = TcpStream, Listener = TcpListener>,
>(rt: &R, alloc: Global, given: Given, client: Client) -> u64 {
    let port = HttpPort::open(rt, "127.0.0.1:0").expect(rt, "a free port");
    let pictures = GivenPictures::new(alloc, given);
    let (rt, port, pictures) = (rt, &port, &pictures);
    thread::scope(thread::scope_env(), rt, move |scope| {
        let is_started = scope
            .spawn(move || serve_http(rt, alloc, port, pictures))
            .is_ok();
        yes(rt, is_started, "the page is served");
        plays(rt, alloc, &port.address, client);
        port.close();
    });
    pictures.count.load(Ordering::SeqCst)
}
