//! The lines of what a version of a warning broadcasts.

ghost use Rattle.std.specs.Prelude.{◌≡◌, ◌++◌, OnOk};
ghost use Rattle.lists_text.specs.ListTexts.{cbs_text, content_text, emergency_text};

use crate::lines::{push_count, push_line};
use crate::pages::push_pages;
use std::alloc::{AllocError, Global};
use warning_book::{CbsContent, Content, EmergencyContent};

/// Puts the lines of a content with pages behind the text, and the number of the pages.
fn push_cbs(alloc: Global, text: &mut Vec<u8>, content: &CbsContent) -> Result<(), AllocError>
    ensures { OnOk result (text.new.items ≡ text.old.items ++ cbs_text content.now) }
{
    let dcs = content.dcs;
    let category = content.category.to_u8();
    let period = content.period;
    let pages = content.pages.as_slice();
    let line = format!(in alloc; "dcs {dcs} category {category} period {period}\n")?;
    push_line(text, line.as_str())?;
    push_pages(alloc, text, dcs, pages)?;
    push_count(alloc, text, "pages", pages.len())
}

/// Puts the line of an emergency warning's content behind the text. It has no pages.
fn push_emergency(
    alloc: Global,
    text: &mut Vec<u8>,
    content: &EmergencyContent,
) -> Result<(), AllocError>
    ensures { OnOk result (text.new.items ≡ text.old.items ++ emergency_text content.now) }
{
    let indicator = content.indicator;
    let warning_type = content.warning_type;
    let warning_period = content.warning_period;
    let security: &[u8] = &content.security;
    let digits = hex::encode(alloc, security)?;
    let line = format!(in alloc;
        "indicator {indicator} type {warning_type} period {warning_period} security {digits}\n"
    )?;
    push_line(text, line.as_str())?;
    push_count(alloc, text, "pages", 0)
}

/// Puts the lines of a content behind the text.
pub(crate) fn push_content(
    alloc: Global,
    text: &mut Vec<u8>,
    content: &Option<Content>,
) -> Result<(), AllocError>
    ensures { OnOk result (text.new.items ≡ text.old.items ++ content_text content.now) }
{
    match content {
        None => push_count(alloc, text, "pages", 0),
        Some(Content::Cbs(content)) => push_cbs(alloc, text, content),
        Some(Content::Emergency(content)) => push_emergency(alloc, text, content),
    }
}
