//! The message codes that are free.

ghost use Rattle.std.specs.Prelude.{◌≡◌, ◌<◌, ℕ, not, nat_eq, find, true, false, IfSome, IfNone};
ghost use Rattle.std.specs.List.{list_any, range_with_len};
ghost use Rattle.serials.specs.Serials.{least_free};

fn is_used(used: &[u16], code: u16) -> bool
    ensures { result ≡ list_any (nat_eq code) used.now }
{
    used.iter().any(|other| code == *other)
}

/// The first of so many codes that is not used.
#[tactic(auto, using(crate::proofs::CodeLemmas::range_more, crate::proofs::CodeLemmas::range_end))]
fn first_free(used: &[u16], count: u16) -> Option<u16>
    ensures value { result ≡ find (λ code. not (list_any (nat_eq code) used.now)) (range_with_len 0 count) }
    ensures bound { IfSome result (λ code. code < count) }
    ensures free { IfSome result (λ code. list_any (nat_eq code) used.now ≡ false) }
    ensures least { IfSome result (λ code. (k : ℕ) → k < code → list_any (nat_eq k) used.now ≡ true) }
    ensures none { IfNone result ((k : ℕ) → k < count → list_any (nat_eq k) used.now ≡ true) }
{
    for code in 0..count {
        if !is_used(used, code) {
            return Some(code);
        }
    }
    None
}

/// The least code from 0 to 1,023 that is not used; `None` where all of them are.
pub fn least_free_code(used: &[u16]) -> Option<u16>
    ensures value { result ≡ least_free used.now }
    ensures bound { IfSome result (λ code. code < 1024) }
    ensures free { IfSome result (λ code. list_any (nat_eq code) used.now ≡ false) }
    ensures least { IfSome result (λ code. (k : ℕ) → k < code → list_any (nat_eq k) used.now ≡ true) }
    ensures none { IfNone result ((k : ℕ) → k < 1024 → list_any (nat_eq k) used.now ≡ true) }
{
    first_free(used, 1024)
}
