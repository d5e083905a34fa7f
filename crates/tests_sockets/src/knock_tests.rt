//! What no clause says of the knock: at which BSCs a start knocks, and that it goes on to listen and to serve.

use crate::checks::yes;
use crate::given_plays::{Act, Play, USUAL, free_port, played};
use crate::given_texts::{Wanted, has};
use crate::keep_tests::{Kept, keeps};
use crate::peer::{connected, narrow_listener};
use server_links::knock;
use std::fs;
use std::net::SocketAddr;

/// What is said of a BSC that is knocked at. Behind its number stands the address, which is left out.
const KNOCKED: &str = "cbc: BSC 1: knocked: its link was up when the centre ended\n";

/// A run over a file whose links are lost by it.
fn lost(before: &'static str, after: &'static str, said: &'static str) -> Kept {
    Kept {
        path: "knocked-journal",
        before: Some(before),
        after,
        play: Play {
            words: &["--links", "2", "--keep", "knocked-journal"],
            acts: &[Act::Lines("quit\n", 0)],
            said: Wanted::Is(said),
            ..USUAL
        },
    }
}

/// The link of the first was up, and nobody listens any more where it came from. That of the second was lost, and where another came
/// from nobody knows.
#[test]
fn a_bsc_whose_link_was_up_is_knocked_at(rt: HostRuntime) {
    for (before, after, said) in LOST {
        keeps(&rt, &lost(before, after, said));
    }
}

/// What stands in the file before and after the run, and what is said.
const LOST: &[(&str, &str, &str)] = &[
    (
        "# cbc journal, network 00f110\nbsc add 1\nup 1\n# link 1 127.0.0.1:9\n",
        "# cbc journal, network 00f110\nbsc add 1\nup 1\n# link 1 127.0.0.1:9\ndown 1\n",
        KNOCKED,
    ),
    (
        "# cbc journal, network 00f110\nbsc add 1\nbsc add 2\nup 1\nup 2\n# link 2 127.0.0.1:9\n# link 1 127.0.0.1:9\ndown 2\n",
        "# cbc journal, network 00f110\nbsc add 1\nbsc add 2\nup 1\nup 2\n# link 2 127.0.0.1:9\n# link 1 127.0.0.1:9\ndown 2\ndown 1\n",
        KNOCKED,
    ),
    (
        "# cbc journal, network 00f110\nbsc add 1\nup 1\n# link 1 127.0.0.1:9\ndown 1\nup 1\n",
        "# cbc journal, network 00f110\nbsc add 1\nup 1\n# link 1 127.0.0.1:9\ndown 1\nup 1\ndown 1\n",
        "",
    ),
];

/// Where the list of peers doesn't name the address any more, nobody is knocked at, and neither are simulated BSCs.
#[test]
fn an_address_that_is_not_named_is_not_knocked_at(rt: HostRuntime) {
    let path = "knocked-peers";
    fs::write(&rt, path, "1 192.0.2.1\n").expect(&rt, "the file is written");
    keeps(&rt, &UNNAMED);
    keeps(&rt, &SIMULATED);
    let _ = fs::remove_file(&rt, path);
}

const UNNAMED: Kept = Kept {
    path: "unnamed-journal",
    before: Some("# cbc journal, network 00f110\nbsc add 1\nup 1\n# link 1 127.0.0.1:9\n"),
    after: "# cbc journal, network 00f110\nbsc add 1\nup 1\n# link 1 127.0.0.1:9\ndown 1\n",
    play: Play {
        words: &["--keep", "unnamed-journal", "--peers", "knocked-peers"],
        acts: &[Act::Lines("quit\n", 0)],
        said: Wanted::Is(""),
        ..USUAL
    },
};

const SIMULATED: Kept = Kept {
    path: "unnamed-journal",
    before: Some("# cbc journal, network 00f110\nbsc add 1\nup 1\n# link 1 127.0.0.1:9\n"),
    after: "# cbc journal, network 00f110\nbsc add 1\nup 1\n# link 1 127.0.0.1:9\ndown 1\n",
    play: Play {
        words: &["--keep", "unnamed-journal", "--sim"],
        acts: &[Act::Lines("quit\n", 0)],
        said: Wanted::Is(""),
        ..USUAL
    },
};

/// Where the link came from stands in the file behind its line.
#[test]
fn where_a_link_came_from_is_kept(rt: HostRuntime) {
    let path = "peer-journal";
    let _ = fs::remove_file(&rt, path);
    played(&rt, rt.alloc(), &CONNECTED);
    let found = fs::read_to_string(&rt, path).expect(&rt, "the file is read");
    let part = b"# cbc journal, network 00f110\nbsc add 1\nup 1\n# link 1 127.0.0.1:";
    yes(&rt, has(found.as_bytes(), part), "the comment is there");
    yes(
        &rt,
        has(found.as_bytes(), b"\ndown 1\n"),
        "and the link is lost at the end",
    );
    let _ = fs::remove_file(&rt, path);
}

const CONNECTED: Play = Play {
    words: &["--keep", "peer-journal"],
    acts: &[
        Act::Types("bsc add 1\n", "ok 1\n"),
        Act::Connects(1, 1),
        Act::Says("link 2 is up"),
        Act::Lines("quit\n", 0),
    ],
    answers: Wanted::Any,
    ..USUAL
};

/// Nobody is waited for who says nothing to a knock, here one whose system has no room for a connection more.
#[test]
fn a_knock_waits_for_nobody(rt: HostRuntime) {
    let listener = narrow_listener(&rt);
    let to = listener.local_addr().expect(&rt, "its address");
    let peer = connected(&rt, 2, to.port());
    let mut from = SocketAddr::parse_ascii(b"127.0.0.1:0").expect(&rt, "an address");
    from.set_port(free_port(&rt));
    yes(&rt, knock(from, to), "a SYN goes out");
    drop(peer);
    drop(listener);
}
