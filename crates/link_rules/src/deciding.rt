//! Which connection gets the link of a BSC.

ghost use Rattle.std.specs.Prelude.{◌≡◌};
ghost use Rattle.link_rules.specs.Verdicts.{IsVerdict};

use crate::verdict::Verdict;
use std::net::IpAddr;

/// What is done with a connection from this address. `up` is the address of the link that is up. `is_named` is whether the list
/// of peers names the address for the BSC; `None` where there is no list.
pub fn decide(up: Option<IpAddr>, from: IpAddr, is_named: Option<bool>) -> Verdict
    ensures { IsVerdict up from is_named result }
{
    match (up, is_named) {
        (_, Some(false)) => Verdict::CloseUnnamed,
        (None, _) => Verdict::Take,
        (Some(_), Some(true)) => Verdict::TakePlace,
        (Some(up), None) => {
            if up == from {
                Verdict::TakePlace
            } else {
                Verdict::CloseOther
            }
        }
    }
}
