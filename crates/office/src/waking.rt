//! Whether there is something to do for the link of a BSC, and who is woken for it.

ghost use Rattle.std.specs.Prelude.{◌≡◌, ℕ, true, false, None, Some, is_some, if◌then◌else◌};
ghost use Rattle.cell_register.specs.Register.{is_place};
ghost use Rattle.centre_events.specs.InFlight.{in_flight};
ghost use Rattle.centre_events.specs.Links.{is_bsc, last_link};
ghost use Rattle.centre_past.specs.Legal.{past};
ghost use Rattle.centre_past.specs.LinkStates.{link_state};
ghost use Rattle.office.specs.Affecting.{includes, is_link, wakes};
ghost use Rattle.office.specs.OwnWishes.{is_idle};
ghost use Rattle.office.specs.Wakes.{due, due_over, is_full, query_of};
ghost use Rattle.office.specs.Wishes.{wish_for};

use crate::affected::Affected;
use crate::wake::Wake;
use crate::wish::Wish;
use crate::wishes::wish_for;
use cell_register::BscId;
use centre_core::centre::Centre;
use centre_events::refusal::Refusal;

/// Whether something is in flight to the BSC.
fn is_busy(centre: &Centre, b: BscId) -> bool
    ensures { centre.now.known.stale ≡ false → is_bsc (past centre.now.known) b ≡ true → result ≡ is_some (in_flight (past centre.now.known) b) }
{
    match centre.in_flight_of(b) {
        Ok(Some(_)) => true,
        _ => false,
    }
}

/// What there is to send to the BSC, if there is something: a pending order comes before the query that is wished for.
fn to_send(wishes: &[Wish], b: BscId, has_pending: bool) -> Option<Wake>
    ensures { result ≡ (if has_pending then Some Wake.Order else query_of (wish_for wishes.now b)) }
{
    if has_pending {
        return Some(Wake::Order);
    }
    let wish = wish_for(wishes, b)?;
    Some(Wake::Query(wish.warning, wish.after))
}

/// What there is to do over the link of the BSC, which is up. What is in flight is looked for last, since most BSCs have nothing to
/// send.
fn wake_over(
    centre: &Centre,
    wishes: &[Wish],
    full: bool,
    b: BscId,
    has_pending: bool,
) -> Option<Wake>
    requires whole { centre.now.known.stale ≡ false }
    requires there { is_bsc (past centre.now.known) b ≡ true }
    requires full { full ≡ is_full centre.now.known }
    requires pending { has_pending ≡ (link_state (past centre.now.known) b).has_pending }
    ensures { result ≡ due_over centre.now.known wishes.now b }
{
    if full {
        return Some(Wake::Order);
    }
    let wake = to_send(wishes, b, has_pending)?;
    if is_busy(centre, b) {
        return None;
    }
    Some(wake)
}

/// What there is to do for the link of that generation, if there is something.
pub(crate) fn wake_of(
    centre: &Centre,
    wishes: &[Wish],
    full: bool,
    b: BscId,
    generation: u64,
) -> Option<Wake>
    requires full { full ≡ is_full centre.now.known }
    ensures { result ≡ due centre.now.known wishes.now b generation }
{
    let link = match centre.link_of(b) {
        Ok(link) => link,
        Err(Refusal::Stale) => return Some(Wake::StaleCentre),
        Err(_) => return Some(Wake::Ended),
    };
    if link.last != generation || !link.is_up {
        return Some(Wake::Ended);
    }
    wake_over(centre, wishes, full, b, link.has_pending)
}

/// Whether the link of the BSC is up, and there is nothing to send over it, whatever is in flight: so it is with most BSCs.
fn has_nothing(centre: &Centre, wishes: &[Wish], full: bool, b: BscId) -> bool
    requires full { full ≡ is_full centre.now.known }
    ensures { result ≡ true → due centre.now.known wishes.now b (last_link (past centre.now.known) b) ≡ None }
{
    !full && wish_for(wishes, b).is_none() && centre.is_quiet(b)
}

/// Whether there is something to do for the latest link of the BSC.
pub(crate) fn has_work(centre: &Centre, wishes: &[Wish], full: bool, b: BscId) -> bool
    requires full { full ≡ is_full centre.now.known }
    ensures { result ≡ is_some (due centre.now.known wishes.now b (last_link (past centre.now.known) b)) }
{
    if has_nothing(centre, wishes, full, b) {
        return false;
    }
    match centre.link_of(b) {
        Ok(link) if link.is_up => wake_over(centre, wishes, full, b, link.has_pending).is_some(),
        _ => true,
    }
}

/// Whether the link of the BSC is up, nothing is in flight to it or pending for it, no wish is kept for it, and the journal takes more
/// entries.
pub(crate) fn is_idle(centre: &Centre, wishes: &[Wish], full: bool, b: BscId) -> bool
    requires full { full ≡ is_full centre.now.known }
    ensures { result ≡ is_idle centre.now.known wishes.now b }
{
    match centre.link_of(b) {
        Ok(link) if link.is_up && !full && !link.has_pending => {
            !is_busy(centre, b) && wish_for(wishes, b).is_none()
        }
        _ => false,
    }
}

/// Whether there is something to do for the latest link of the BSC, if there is one.
fn has_work_for(centre: &Centre, wishes: &[Wish], full: bool, b: Option<BscId>) -> bool
    requires full { full ≡ is_full centre.now.known }
    ensures { result ≡ false → (n : ℕ) → is_place b n ≡ true → due centre.now.known wishes.now n (last_link (past centre.now.known) n) ≡ None }
{
    match b {
        Some(b) => has_work(centre, wishes, full, b),
        None => false,
    }
}

/// Whether there may be something to do for one of the BSCs, or for whoever waits, since the centre is stale or its journal full.
pub(crate) fn has_any_work(
    centre: &Centre,
    wishes: &[Wish],
    full: bool,
    affected: &Affected,
) -> bool
    requires full { full ≡ is_full centre.now.known }
    ensures whole { result ≡ false → centre.now.known.stale ≡ false }
    ensures room { result ≡ false → full ≡ false }
    ensures link { result ≡ false → is_link affected.now ≡ false }
    ensures none { result ≡ false → (b : ℕ) → includes affected.now b ≡ true → due centre.now.known wishes.now b (last_link (past centre.now.known) b) ≡ None }
{
    if centre.is_stale() || full {
        return true;
    }
    match affected {
        Affected::None => false,
        Affected::These(one, other) => {
            has_work_for(centre, wishes, full, *one) || has_work_for(centre, wishes, full, *other)
        }
        Affected::Link(_) | Affected::All => true,
    }
}

/// Whether those who wait for the BSC are to be woken, where these are affected: since the centre is stale or its journal full, or
/// since the BSC is affected, and its latest link may be another or down, or there is something to do for it.
pub(crate) fn wakes(
    centre: &Centre,
    wishes: &[Wish],
    full: bool,
    affected: &Affected,
    b: BscId,
) -> bool
    requires full { full ≡ is_full centre.now.known }
    ensures { result ≡ wakes centre.now.known wishes.now affected.now b }
{
    if full || centre.is_stale() {
        return true;
    }
    affected.includes(b) && (affected.is_link() || has_work(centre, wishes, full, b))
}
