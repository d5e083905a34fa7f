//! Worked values from the standard.

use crate::values::same;
use serials::{Scope, Serial, least_free_code};
use std::process::Abort;

fn number(serial: Option<Serial>) -> Option<u16> {
    Some(serial?.to_u16())
}

#[test]
fn serials_have_their_numbers(rt: HostRuntime) {
    for (scope, code, update, want) in &[
        (Scope::CellImmediate, 0, 0, Some(0x0000)),
        (Scope::Plmn, 1, 2, Some(0x4012)),
        (Scope::LocationArea, 0, 15, Some(0x800f)),
        (Scope::Cell, 0, 0, Some(0xc000)),
        (Scope::Cell, 1023, 15, Some(0xffff)),
        (Scope::Cell, 1024, 0, None),
        (Scope::Cell, 0, 16, None),
    ] {
        let serial = Serial::new(*scope, *code, *update);
        same(&rt, &number(serial), want, "a serial number by its parts");
    }
}

#[test]
fn a_serial_has_its_parts(rt: HostRuntime) {
    let serial = Serial::from_u16(0x4012);
    same(&rt, &serial.scope(), &Scope::Plmn, "the scope of 4012");
    same(&rt, &serial.code(), &1, "the code of 4012");
    same(&rt, &serial.update(), &2, "the update of 4012");
    for (number, scope) in &[
        (0, Some(Scope::CellImmediate)),
        (1, Some(Scope::Plmn)),
        (2, Some(Scope::LocationArea)),
        (3, Some(Scope::Cell)),
        (4, None),
    ] {
        let found = Scope::from_number(*number);
        same(&rt, &found, scope, "a scope by its number");
    }
}

#[test]
fn update_number_zero_follows_fifteen(rt: HostRuntime) {
    for (serial, want) in &[
        (0xc000, 0xc001),
        (0x401e, 0x401f),
        (0x401f, 0x4010),
        (0xc00f, 0xc000),
        (0xffff, 0xfff0),
    ] {
        let next = Serial::from_u16(*serial).next();
        same(&rt, &next.to_u16(), want, "the next serial number");
    }
}

/// The least code that isn't in use.
fn has_least(rt: &impl Abort, used: &[u16], want: Option<u16>) {
    same(rt, &least_free_code(used), &want, "the least code");
}

#[test]
fn the_least_code_is_free(rt: HostRuntime) {
    has_least(&rt, &[], Some(0));
    has_least(&rt, &[0, 1, 3], Some(2));
    has_least(&rt, &[3, 0, 1, 0], Some(2));
    let mut used = Vec::new(rt.alloc());
    for code in 0..1023u16 {
        used.push(code).expect(&rt, "memory");
    }
    has_least(&rt, used.as_slice(), Some(1023));
    used.push(1023).expect(&rt, "memory");
    has_least(&rt, used.as_slice(), None);
}
