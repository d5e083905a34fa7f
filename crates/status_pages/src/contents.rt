//! What a warning broadcasts, on the page.

ghost use Rattle.std.specs.Prelude.{◌≡◌, ◌++◌, OnOk, option_map, string_bytes};
ghost use Rattle.std.specs.List.{flat_map};
ghost use Rattle.status_pages.specs.WarningParts.{cbs_html, content_html, emergency_html, hazard, octets_html, page_digits, shown, text_html};

use crate::escapes::push_escaped;
use crate::piece::{Piece, push_piece};
use common::Octets;
use message_text::text_of;
use status_figures::four_digits;
use std::alloc::{AllocError, Global};
use warning_book::{CbsContent, Content, EmergencyContent};

#[tactic(auto, unfolding(crate::specs::WarningParts::page_digits))]
fn push_page(alloc: Global, out: &mut Vec<u8>, page: &[u8]) -> Result<(), AllocError>
    ensures { OnOk result (out.new.items ≡ out.old.items ++ page_digits page.now) }
{
    let digits = hex::encode(alloc, page)?;
    out.extend_from_slice(digits.as_bytes())?;
    out.extend_from_slice(b" ")
}

fn push_pages(alloc: Global, out: &mut Vec<u8>, pages: &[Octets]) -> Result<(), AllocError>
    ensures { OnOk result (out.new.items ≡ out.old.items ++ flat_map page_digits pages.now) }
{
    for page in pages {
        push_page(alloc, out, page.as_slice())?;
    }
    Ok(())
}

#[tactic(auto, unfolding(crate::specs::WarningParts::octets_html))]
fn push_octets(alloc: Global, out: &mut Vec<u8>, pages: &[Octets]) -> Result<(), AllocError>
    ensures { OnOk result (out.new.items ≡ out.old.items ++ octets_html pages.now) }
{
    push_piece(out, Piece::OctetsFront)?;
    push_pages(alloc, out, pages)?;
    push_piece(out, Piece::ParagraphEnd)
}

#[tactic(auto, unfolding(crate::specs::WarningParts::text_html))]
fn push_text(out: &mut Vec<u8>, text: &[u8]) -> Result<(), AllocError>
    ensures { OnOk result (out.new.items ≡ out.old.items ++ text_html text.now) }
{
    push_piece(out, Piece::TextFront)?;
    push_escaped(out, text)?;
    push_piece(out, Piece::ParagraphEnd)
}

/// Appends the text, where there is one, or else the octets of the pages.
fn push_shown(
    alloc: Global,
    out: &mut Vec<u8>,
    text: &Option<String>,
    pages: &[Octets],
) -> Result<(), AllocError>
    ensures { OnOk result (out.new.items ≡ out.old.items ++ shown (option_map string_bytes text.now) pages.now) }
{
    match text {
        Some(text) => push_text(out, text.as_bytes()),
        None => push_octets(alloc, out, pages),
    }
}

#[tactic(auto, unfolding(crate::specs::WarningParts::cbs_html))]
fn push_cbs(alloc: Global, out: &mut Vec<u8>, content: &CbsContent) -> Result<(), AllocError>
    ensures { OnOk result (out.new.items ≡ out.old.items ++ cbs_html content.now) }
{
    let pages = content.pages.as_slice();
    let text = text_of(alloc, content.dcs, pages)?;
    push_shown(alloc, out, &text, pages)
}

/// What a warning type of these upper seven bits warns of (TS 23.041, 9.3.24).
fn hazard(kind: u16) -> &'static str
    ensures { result.now ≡ hazard kind }
{
    match kind {
        0 => "earthquake",
        1 => "tsunami",
        2 => "earthquake and tsunami",
        3 => "test",
        _ => "other",
    }
}

#[tactic(auto, unfolding(crate::specs::WarningParts::emergency_html))]
fn push_emergency(
    alloc: Global,
    out: &mut Vec<u8>,
    content: &EmergencyContent,
) -> Result<(), AllocError>
    ensures { OnOk result (out.new.items ≡ out.old.items ++ emergency_html content.now) }
{
    let kind = content.warning_type;
    let hazard = hazard(kind / 512);
    let digits = four_digits(alloc, kind)?;
    let text = format!(in alloc;
        "<p class=\"text\">Emergency: {hazard} (warning type {digits})</p>"
    )?;
    out.extend_from_slice(text.as_bytes())
}

/// Appends what the current version of a warning broadcasts.
pub(crate) fn push_content(
    alloc: Global,
    out: &mut Vec<u8>,
    content: &Option<Content>,
) -> Result<(), AllocError>
    ensures { OnOk result (out.new.items ≡ out.old.items ++ content_html content.now) }
{
    match content {
        None => out.extend_from_slice(b"<p class=\"octets\">No content.</p>"),
        Some(Content::Cbs(content)) => push_cbs(alloc, out, content),
        Some(Content::Emergency(content)) => push_emergency(alloc, out, content),
    }
}
