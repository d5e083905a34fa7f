//! A failure list, lent from the octets that it was read from.

ghost use Rattle.std.specs.Prelude.{◌≡◌, ◌≤◌, ◌<◌, ◌↔◌, ◌++◌, [], IsTrue, IfOk, IfErr, OnOk, OnErr, length, slice_get, take};
ghost use Rattle.cbsp_ie.specs.FailureList.{AreFailures, IsBadFailureList, IsFailure, StartsBadly};
ghost use Rattle.cbsp_ie.specs.Written.{failures_octets};

use crate::cause::Cause;
use crate::cell_id::CellId;
use crate::fail_entry::FailEntry;
use crate::failures::Failures;
use crate::form::Form;
use crate::ie_fault::IeFault;
use std::alloc::{AllocError, Global};
use std::marker::Model;

/// Failures with identifications of any form, as the octets that spell them.
#[derive(Drop)]
pub struct FailureList<'a> {
    octets: &'a [u8],
    count: usize,
}

impl<'a> Model for FailureList<'a> {
    ghost use Rattle.std.specs.Prelude.{◌≡◌, List, length};
    ghost use Rattle.cbsp_ie.specs.declared.fail_entry.FailEntry.{FailEntry};
    ghost use Rattle.cbsp_ie.specs.FailureList.{AreFailures, entries_after};

    ghost Value = { List FailEntry };

    ghost view = { λ s. entries_after 0 s.octets.now };

    ghost invariant = { λ s. (s.count ≡ length (entries_after 0 s.octets.now)) × AreFailures s.octets.now (entries_after 0 s.octets.now) };
}

impl<'a> FailureList<'a> {
    /// Reads the octets that follow the list's length.
    pub(crate) fn read(listed: &'a [u8]) -> Result<FailureList<'a>, IeFault>
        ensures found { IfOk result (λ failures. AreFailures listed.now failures) }
        ensures fault { IfErr result (IsBadFailureList listed.now) }
    {
        let mut rest = listed;
        let mut count = 0;
        while !rest.is_empty() {
            let (_, used) = read_failure(rest)?;
            (_, rest) = rest.split_at(used);
            count += 1;
        }
        Ok(FailureList {
            octets: listed,
            count,
        })
    }

    pub fn len(&self) -> usize
        ensures { result ≡ length self.now }
    {
        self.count
    }

    pub fn is_empty(&self) -> bool
        ensures { IsTrue result ↔ (self.now ≡ []) }
    {
        self.len() == 0
    }

    /// The entry at the index. The entries before it are walked over, since their sizes differ.
    pub fn get(&self, index: usize) -> Option<FailEntry>
        ensures { result ≡ slice_get self.now index }
    {
        let mut rest = self.octets;
        let mut at = 0;
        while !rest.is_empty() {
            let (entry, used) = read_failure(rest).unwrap();
            if at == index {
                return Some(entry);
            }
            (_, rest) = rest.split_at(used);
            at += 1;
        }
        None
    }

    /// The entries in memory of their own, in one walk.
    pub fn to_entries(&self, alloc: Global) -> Result<Failures, AllocError>
        ensures { IfOk result (λ failures. failures ≡ self.now) }
    {
        let mut failures = Failures::with_capacity(alloc, self.count)?;
        let mut rest = self.octets;
        while !rest.is_empty() {
            let (entry, used) = read_failure(rest).unwrap();
            failures.push(entry)?;
            (_, rest) = rest.split_at(used);
        }
        Ok(failures)
    }

    /// How many octets the list is written as after its length.
    pub fn octets_len(&self) -> usize
        ensures { result ≡ length (failures_octets self.now) }
    {
        self.octets.len()
    }

    // Appends the entries, or at an `Err` perhaps a part of them.
    pub(crate) fn write(&self, out: &mut Vec<u8>) -> Result<(), AllocError>
        ensures ok { OnOk result (out.new.items ≡ out.old.items ++ failures_octets self.now) }
        ensures err { OnErr result (take (length out.old.items) out.new.items ≡ out.old.items) }
    {
        let mut rest = self.octets;
        while !rest.is_empty() {
            let (entry, used) = read_failure(rest).unwrap();
            entry.write(out)?;
            (_, rest) = rest.split_at(used);
        }
        Ok(())
    }
}

// The entry at the front, and how many octets it takes.
fn read_failure(octets: &[u8]) -> Result<(FailEntry, usize), IeFault>
    requires { 0 < length octets.now }
    ensures within { IfOk result (λ r. r.1 ≤ length octets.now) }
    ensures some { IfOk result (λ r. 2 ≤ r.1) }
    ensures found { IfOk result (λ r. IsFailure (take r.1 octets.now) r.0) }
    ensures fault { IfErr result (StartsBadly octets.now) }
{
    let [first, after @ ..] = octets else {
        unreachable!()
    };
    let discriminator = *first % 16;
    let Some(form) = Form::from_discriminator(discriminator) else {
        return Err(IeFault::BadDiscriminator { discriminator });
    };
    let size = form.size();
    if after.len() <= size {
        return Err(IeFault::PartialEntry);
    }
    let entry = FailEntry {
        id: CellId::read(form, after),
        cause: Cause(after[size]),
    };
    Ok((entry, size + 2))
}
