//! What no clause says of a console that follows the journal: that each entry comes to it, once, with its desk and its line.

use crate::checks::same;
use crate::given_consoles::entries_of;
use crate::scripts::Step::{Closes, Connect, Pause, Reads, Sends};
use crate::scripts::{A_MINUTE, Script, Step};

/// Two follow what two others enter, each at a desk of its own. What is entered before isn't handed on, and one that goes makes room for
/// the next.
const FOLLOWED: &[Step] = &[
    Connect(0),
    Sends(0, b"bsc add 1\n"),
    Reads(0, b"ok 1\n"),
    Connect(1),
    Connect(2),
    Connect(3),
    Sends(2, b"area add Coast\nwatch\n"),
    Reads(2, b"ok 2\n"),
    Sends(1, b"watch\nbsc add 9\n"),
    Pause,
    Sends(0, b"cell add 100 7 1\narea put Coast 100\n"),
    Reads(0, b"ok 3\nok 4\n"),
    Sends(3, b"bsc add 7\n"),
    Reads(3, b"ok 5\n"),
    Reads(
        2,
        b"entry 3 desk 1 cell add 100 7 1\nentry 4 desk 1 area put Coast 100\nentry 5 desk 4 bsc add 7\n",
    ),
    Closes(2),
    Pause,
    Connect(2),
    Sends(2, b"bsc add 2\n"),
    Reads(2, b"ok 6\n"),
    // what was entered before the end comes to a console that follows
    Sends(0, b"shutdown\n"),
    Reads(
        1,
        b"entry 3 desk 1 cell add 100 7 1\nentry 4 desk 1 area put Coast 100\nentry 5 desk 4 bsc add 7\nentry 6 desk 3 bsc add 2\n",
    ),
];

#[test]
fn entries_are_handed_on(rt: HostRuntime) {
    let script = Script {
        path: "consoles-that-watch",
        count: 4,
        most_silence: A_MINUTE,
        steps: FOLLOWED,
    };
    let found = entries_of(&rt, rt.alloc(), &script);
    same(&rt, found, 6, "what a watch reads is no entry");
}
