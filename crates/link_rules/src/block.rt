//! A block of addresses.

ghost use Rattle.std.specs.Prelude.{◌≡◌};
ghost use Rattle.link_rules.specs.Blocks.{bits_of, is_in, is_in_v4, is_in_v6, is_same_block};

use std::net::IpAddr;

/// The addresses whose leading bits are those of this one.
#[derive(Clone, Copy)]
pub struct Block {
    pub(crate) address: IpAddr,
    /// How many bits these are.
    pub(crate) bits: u8,
}

/// How many bits an address has.
pub(crate) fn bits_of(address: IpAddr) -> u8
    ensures { result ≡ bits_of address }
{
    match address {
        IpAddr::V4(_) => 32,
        IpAddr::V6(_) => 128,
    }
}

/// Whether two numbers of 32 bits have so many leading bits in common.
fn is_in_v4(bits: u8, one: u32, other: u32) -> bool
    ensures { result ≡ is_in_v4 bits one other }
{
    let rest = 32u32.saturating_sub(u32::from(bits));
    bits == 0 || u64::from(one) >> rest == u64::from(other) >> rest
}

/// Whether two numbers of 128 bits have so many leading bits in common.
fn is_in_v6(bits: u8, one: u128, other: u128) -> bool
    ensures { result ≡ is_in_v6 bits one other }
{
    if bits == 0 {
        return true;
    }
    let rest = 128u32.saturating_sub(u32::from(bits));
    one >> rest == other >> rest
}

impl Block {
    /// Whether the two are written alike.
    pub(crate) fn is_same(&self, other: &Block) -> bool
        ensures { result ≡ is_same_block self.now other.now }
    {
        let own = Block {
            address: self.address,
            bits: bits_of(self.address),
        };
        self.bits == other.bits && own.has(other.address)
    }

    /// Whether the address is one of the block. An IPv4-mapped IPv6 address is another than the IPv4 address.
    pub(crate) fn has(&self, address: IpAddr) -> bool
        ensures { result ≡ is_in self.now address }
    {
        match (self.address, address) {
            (IpAddr::V4(own), IpAddr::V4(other)) => {
                is_in_v4(self.bits, own.to_bits(), other.to_bits())
            }
            (IpAddr::V6(own), IpAddr::V6(other)) => {
                is_in_v6(self.bits, own.to_bits(), other.to_bits())
            }
            _ => false,
        }
    }
}
