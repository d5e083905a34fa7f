//! What no clause says of an input that is waited for: it answers that nothing has come, and then what comes.

use crate::checks::same;
use server_operator::TimedInput;
use std::io::{ErrorKind, Read, Write, pipe};

/// What a read comes to: how many octets, or why there are none.
fn comes_to<I: Read>(input: &mut I, piece: &mut [u8]) -> Result<usize, ErrorKind> {
    match input.read(piece) {
        Ok(count) => Ok(count),
        Err(error) => Err(error.kind()),
    }
}

#[test]
fn an_input_is_waited_for_a_while(rt: HostRuntime) {
    let (reader, mut writer) = pipe(&rt).expect(&rt, "a pipe");
    let mut input = TimedInput::new(reader);
    let mut piece = [0; 8];
    let nothing = Err(ErrorKind::WouldBlock);
    same(
        &rt,
        comes_to(&mut input, &mut piece),
        nothing,
        "nothing has come",
    );
    writer.write_all(b"quit\n").expect(&rt, "a line is typed");
    same(&rt, comes_to(&mut input, &mut piece), Ok(5), "the line");
    same(
        &rt,
        comes_to(&mut input, &mut piece),
        nothing,
        "and nothing behind it",
    );
    drop(writer);
    same(&rt, comes_to(&mut input, &mut piece), Ok(0), "the end");
}
