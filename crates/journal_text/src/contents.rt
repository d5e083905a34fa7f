//! Lines of contents: what is issued, and what a version has.

ghost use Rattle.std.specs.Prelude.{◌≡◌, ◌++◌, ◌∷◌, [], ◌<◌, true, IfOk, OnOk, length, map};
ghost use Rattle.std.specs.List.{AllByRecursion};
ghost use Rattle.coverage_plan.specs.declared.edit.Edit.TheVariants as edit;
ghost use Rattle.centre_events.specs.declared.event.Event.TheVariants as event;
ghost use Rattle.hex.specs.Hex.{IsBytes, encode_lower};
ghost use Rattle.journal_text.specs.Reading.{IsWritten};
ghost use Rattle.journal_text.specs.Sayable.{CanBeSaid, are_named};
ghost use Rattle.journal_text.specs.Texts.{content_words, followed, issue_word, pages_word, update_word};
ghost use Rattle.warning_book.specs.Content.{are_pages, have_pages};

use crate::checks::{are_named, are_pages};
use crate::names::push_areas;
use crate::numbers::push_warning;
use crate::words::{push_number, push_octets};
use common::{Names, Octets};
use std::alloc::{AllocError, Global};
use warning_book::{CbsContent, Content, EmergencyContent, Notice, WarningId};

/// Puts pages behind a line that ends with one, each after a `/`.
fn push_more_pages(alloc: Global, line: &mut Vec<u8>, pages: &[Octets]) -> Result<(), AllocError>
    ensures text { OnOk result (line.new.items ≡ followed 47 line.old.items (map encode_lower pages.now)) }
    ensures range { OnOk result (AllByRecursion IsBytes pages.now) }
{
    for page in pages {
        push_octets(alloc, line, b'/', page.as_slice())?;
    }
    Ok(())
}

/// Puts PAGES behind the line.
fn push_pages(alloc: Global, line: &mut Vec<u8>, pages: &[Octets]) -> Result<(), AllocError>
    requires { are_pages pages.now ≡ true }
    ensures text { OnOk result (line.new.items ≡ followed 32 line.old.items (pages_word pages.now ∷ [])) }
    ensures range { OnOk result (AllByRecursion IsBytes pages.now) }
{
    match pages {
        [first, more @ ..] => {
            push_octets(alloc, line, b' ', first.as_slice())?;
            push_more_pages(alloc, line, more)?;
            Ok(())
        }
        [] => unreachable!(),
    }
}

/// Puts DCS CAT PERIOD PAGES behind the line.
fn push_cbs(alloc: Global, line: &mut Vec<u8>, content: &CbsContent) -> Result<(), AllocError>
    requires { are_pages content.now.pages ≡ true }
    ensures text { OnOk result (line.new.items ≡ followed 32 line.old.items (content_words (Content.Cbs content.now))) }
    ensures range { OnOk result (CanBeSaid (Content.Cbs content.now)) }
{
    let dcs = content.dcs;
    let period = content.period;
    push_number(alloc, line, u64::from(dcs))?;
    push_number(alloc, line, u64::from(content.category.to_u8()))?;
    push_number(alloc, line, u64::from(period))?;
    push_pages(alloc, line, content.pages.as_slice())
}

/// Puts I T P SEC behind the line.
fn push_emergency(
    alloc: Global,
    line: &mut Vec<u8>,
    content: &EmergencyContent,
) -> Result<(), AllocError>
    ensures text { OnOk result (line.new.items ≡ followed 32 line.old.items (content_words (Content.Emergency content.now))) }
    ensures range { OnOk result (CanBeSaid (Content.Emergency content.now)) }
{
    let indicator = content.indicator;
    let warning_type = content.warning_type;
    let warning_period = content.warning_period;
    push_number(alloc, line, u64::from(indicator))?;
    push_number(alloc, line, u64::from(warning_type))?;
    push_number(alloc, line, u64::from(warning_period))?;
    let security: &[u8] = &content.security;
    push_octets(alloc, line, b' ', security)
}

/// Whether the content has pages that can be broadcast, where it has pages.
fn have_pages(content: &Content) -> bool
    ensures { result ≡ have_pages content.now }
{
    match content {
        Content::Cbs(content) => are_pages(content.pages.as_slice()),
        Content::Emergency(_) => true,
    }
}

/// Puts DCS CAT PERIOD PAGES or I T P SEC behind the line.
fn push_content(alloc: Global, line: &mut Vec<u8>, content: &Content) -> Result<(), AllocError>
    requires { have_pages content.now ≡ true }
    ensures text { OnOk result (line.new.items ≡ followed 32 line.old.items (content_words content.now)) }
    ensures range { OnOk result (CanBeSaid content.now) }
{
    match content {
        Content::Cbs(content) => push_cbs(alloc, line, content),
        Content::Emergency(content) => push_emergency(alloc, line, content),
    }
}

/// The word with which a warning of this content is issued.
fn issue_word(content: &Content) -> &'static [u8]
    ensures { result.now ≡ issue_word content.now }
{
    match content {
        Content::Cbs(_) => b"issue",
        Content::Emergency(_) => b"alert",
    }
}

/// The word with which a warning gets a version of this content.
fn update_word(content: &Content) -> &'static [u8]
    ensures { result.now ≡ update_word content.now }
{
    match content {
        Content::Cbs(_) => b"update",
        Content::Emergency(_) => b"realert",
    }
}

/// Writes an `update` or a `realert`. The answer is whether there is such a line.
pub fn write_update(
    alloc: Global,
    line: &mut Vec<u8>,
    warning: WarningId,
    content: &Content,
) -> Result<bool, AllocError>
    requires { line.old.items ≡ [] }
    ensures { IfOk result (λ has. IsWritten (event.Edit (edit.Update warning content.now)) has line.new.items) }
{
    if !have_pages(content) {
        return Ok(false);
    }
    line.extend_from_slice(update_word(content))?;
    push_warning(alloc, line, warning)?;
    push_content(alloc, line, content)?;
    Ok(true)
}

/// Writes an `issue` or an `alert`. The answer is whether there is such a line.
pub fn write_issue(
    alloc: Global,
    line: &mut Vec<u8>,
    notice: &Notice,
    areas: &Names,
) -> Result<bool, AllocError>
    requires { line.old.items ≡ [] }
    ensures { IfOk result (λ has. IsWritten (event.Edit (edit.Issue notice.now areas.now)) has line.new.items) }
{
    let content = &notice.content;
    if !have_pages(content) || !are_named(areas.as_slice()) {
        return Ok(false);
    }
    let message_id = notice.message_id;
    line.extend_from_slice(issue_word(content))?;
    push_number(alloc, line, u64::from(message_id))?;
    push_number(alloc, line, u64::from(notice.scope.number()))?;
    push_content(alloc, line, content)?;
    push_areas(line, areas.as_slice())?;
    Ok(true)
}
