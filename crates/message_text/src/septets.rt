//! Septets in octets (TS 23.038, 6.1.2.1).

ghost use Rattle.std.specs.Prelude.{◌≡◌, ◌<◌, IfOk};
ghost use Rattle.std.specs.List.{AllByRecursion};
ghost use Rattle.message_text.specs.Septets.{whole_septets, septets_of};
ghost use Rattle.message_text.specs.Writing as written;

use std::alloc::{AllocError, Global};

/// The carriage return, which fills seven bits that are left in a page's last octet.
pub(crate) const CARRIAGE_RETURN: u8 = 0x0D;

/// The septets in octets, the first one in the lowest bits of the first octet. Bits that are left are 0.
pub(crate) fn packed(alloc: Global, septets: &[u8]) -> Result<Vec<u8>, AllocError>
    requires { AllByRecursion (λ septet. septet < 128) septets.now }
    ensures { IfOk result (λ octets. octets.items ≡ written.packed septets.now) }
{
    let mut octets = Vec::new(alloc);
    let mut held = 0u16;
    let mut bits = 0u32;
    for septet in septets {
        let all = held + (u16::from(*septet) << bits);
        if bits == 0 {
            held = all;
            bits = 7;
            continue;
        }
        octets.push((all % 256) as u8)?;
        held = all / 256;
        bits -= 1;
    }
    if bits == 0 {
        return Ok(octets);
    }
    octets.push(held as u8)?;
    Ok(octets)
}

/// The septets that stand whole in the octets.
fn unpacked(alloc: Global, octets: &[u8]) -> Result<Vec<u8>, AllocError>
    ensures { IfOk result (λ septets. septets.items ≡ whole_septets octets.now) }
{
    let mut septets = Vec::new(alloc);
    let mut held = 0u16;
    let mut bits = 0u32;
    for octet in octets {
        let all = held + (u16::from(*octet) << bits);
        septets.push((all % 128) as u8)?;
        held = all / 128;
        if bits < 6 {
            bits += 1;
            continue;
        }
        septets.push(held as u8)?;
        held = 0;
        bits = 0;
    }
    Ok(septets)
}

/// The septets of a page's octets, without a carriage return that fills the last of them.
pub(crate) fn septets_of(alloc: Global, octets: &[u8]) -> Result<Vec<u8>, AllocError>
    ensures { IfOk result (λ septets. septets.items ≡ septets_of octets.now) }
{
    let mut septets = unpacked(alloc, octets)?;
    if octets.len() % 7 == 0 && septets.last() == Some(&CARRIAGE_RETURN) {
        septets.pop();
    }
    Ok(septets)
}
