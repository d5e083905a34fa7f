//! The links that are kept, in the order of the numbers of their BSCs, so that one is found by halves.

ghost use Rattle.std.specs.Prelude.{◌≡◌, [], true, false, ltb, IfOk, IsOk, OnOk, OnErr};
ghost use Rattle.std.specs.List.{position_or_len};
ghost use Rattle.std.specs.List.Sorted.{IsPartitionPoint};
ghost use Rattle.std.specs.Option.{is_some, option_copied};
ghost use Rattle.common.specs.Order.{inserted, is_ascending};
ghost use Rattle.centre_past.specs.Links.{is_link_of, link_in, link_lt, with_link, without_link};

use crate::link::Link;
use crate::up_or_down::UpOrDown;
use cell_register::BscId;
use common::insert_in_order;
use std::alloc::{AllocError, Global};
use std::marker::Model;

/// What is kept of the links of BSCs. Contracts see them in the order of the numbers of their BSCs, each BSC once.
pub struct KeptLinks {
    links: Vec<Link>,
}

/// Written out, so that no crate above proves anew how its parts are dropped.
impl Drop for KeptLinks {
    fn drop(self) {
        let KeptLinks { links: _links } = self;
    }
}

impl Model for KeptLinks {
    ghost use Rattle.std.specs.Prelude.{◌≡◌, true, List};
    ghost use Rattle.common.specs.Order.{is_ascending};
    ghost use Rattle.centre_past.specs.Links.{link_lt};
    ghost use Rattle.centre_past.specs.declared.link.Link.{Link};

    ghost Value = { List Link };

    ghost view = { λ l. l.links.items };

    ghost invariant = { λ l. is_ascending link_lt l.links.items ≡ true };
}

/// Where the link of the BSC and those of BSCs of greater numbers begin.
fn start_of(links: &[Link], b: BscId) -> usize
    requires { is_ascending link_lt links.now ≡ true }
    ensures { IsPartitionPoint (λ l. ltb l.bsc b ≡ true) (λ l. ltb l.bsc b ≡ false) links.now result }
{
    links.partition_point(|link| link.bsc.number() < b.number())
}

/// Where the link of the BSC stands, found by halves; past the last where it isn't there.
fn searched_place(links: &[Link], b: BscId) -> usize
    requires { is_ascending link_lt links.now ≡ true }
    ensures { result ≡ position_or_len (is_link_of b) links.now }
{
    let place = start_of(links, b);
    match links.get(place) {
        Some(link) if link.bsc == b => place,
        _ => links.len(),
    }
}

/// Where the link of the BSC stands; past the last where it isn't there. It is first looked for where it stands if BSCs are numbered
/// without gaps.
#[tactic(auto, using(crate::proofs::LinkPlaceLemmas::found_there))]
fn place_of(links: &[Link], b: BscId) -> usize
    requires { is_ascending link_lt links.now ≡ true }
    ensures { result ≡ position_or_len (is_link_of b) links.now }
{
    let likely = usize::from(b.number()) - 1;
    match links.get(likely) {
        Some(link) if link.bsc == b => likely,
        _ => searched_place(links, b),
    }
}

/// The link of the BSC.
fn found(links: &[Link], b: BscId) -> Option<&Link>
    requires { is_ascending link_lt links.now ≡ true }
    ensures { option_copied result ≡ link_in links.now b }
{
    links.get(place_of(links, b))
}

/// Puts the link in its place, where one of its BSC may stand. It takes no memory where one does, and an `Err` leaves all
/// as it was.
fn put_link(links: &mut Vec<Link>, link: Link) -> Result<(), AllocError>
    requires { is_ascending link_lt links.old.items ≡ true }
    ensures put { OnOk result (links.new.items ≡ inserted link_lt link (without_link link.bsc links.old.items)) }
    ensures unchanged { OnErr result (links.new.items ≡ links.old.items) }
    ensures memory { is_some (link_in links.old.items link.bsc) ≡ true → IsOk result }
{
    let place = place_of(links.as_slice(), link.bsc);
    if place < links.len() {
        links[place] = link;
        return Ok(());
    }
    insert_in_order(link, links)?;
    Ok(())
}

/// Takes out the link of the BSC, if it is there.
fn take_link(links: &mut Vec<Link>, b: BscId)
    ensures { links.new.items ≡ without_link b links.old.items }
{
    links.retain(|link| link.bsc != b);
}

/// The same links, in memory of their own.
fn copied(alloc: Global, links: &[Link]) -> Result<Vec<Link>, AllocError>
    ensures { IfOk result (λ copy. copy.items ≡ links.now) }
{
    let mut copy = Vec::with_capacity(alloc, links.len())?;
    for link in links {
        copy.push(Link {
            bsc: link.bsc,
            generation: link.generation,
            state: link.state.copied(alloc)?,
        })?;
    }
    Ok(copy)
}

impl KeptLinks {
    /// Nothing is kept of any link.
    pub fn new(alloc: Global) -> KeptLinks
        ensures { result ≡ [] }
    {
        KeptLinks {
            links: Vec::new(alloc),
        }
    }

    /// The same, in memory of its own.
    pub fn copied(&self, alloc: Global) -> Result<KeptLinks, AllocError>
        ensures { IfOk result (λ copy. copy ≡ self.now) }
    {
        let links = copied(alloc, self.links.as_slice())?;
        Ok(KeptLinks { links })
    }

    /// What is kept of the BSC's link, if something is.
    pub fn get(&self, b: BscId) -> Option<&Link>
        ensures { option_copied result ≡ link_in self.now b }
    {
        found(self.links.as_slice(), b)
    }

    /// Keeps that of the BSC's link, in the place of what was kept. It takes no memory where something was, and an `Err`
    /// leaves all as it was.
    pub fn put(&mut self, b: BscId, generation: u64, state: UpOrDown) -> Result<(), AllocError>
        ensures put { OnOk result (self.new ≡ with_link b generation state self.old) }
        ensures unchanged { OnErr result (self.new ≡ self.old) }
        ensures memory { is_some (link_in self.old b) ≡ true → IsOk result }
    {
        let link = Link {
            bsc: b,
            generation,
            state,
        };
        put_link(&mut self.links, link)?;
        Ok(())
    }

    /// Takes out what is kept of the BSC's link.
    pub fn take_out(&mut self, b: BscId)
        ensures { self.new ≡ without_link b self.old }
    {
        take_link(&mut self.links, b);
    }
}
