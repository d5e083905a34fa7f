//! Entries of one size in a list.

ghost use Rattle.std.specs.Prelude.{◌≡◌, ◌≢◌, ◌*◌, ℕ, IfSome, IfNone};

/// How many entries of the size the octets are, one where neither has an octet.
pub(crate) fn whole_entries(size: usize, octets: usize) -> Option<usize>
    ensures some { IfSome result (λ count. count * size ≡ octets) }
    ensures one { IfSome result (λ count. size ≡ 0 → count ≡ 1) }
    ensures none { IfNone result ((count : ℕ) → count * size ≢ octets) }
{
    if size == 0 {
        return if octets == 0 { Some(1) } else { None };
    }
    if octets % size == 0 {
        Some(octets / size)
    } else {
        None
    }
}
