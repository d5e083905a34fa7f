//! The text of pages.

ghost use Rattle.std.specs.Prelude.{◌≡◌, IfOk};
ghost use Rattle.std.specs.Option.{option_map};
ghost use Rattle.std.specs.Str.{encode_utf8_all};
ghost use Rattle.std.specs.String.{string_bytes};
ghost use Rattle.message_text.specs.Reading.{read_text};

use crate::coding::Coding;
use common::Octets;
use std::alloc::{AllocError, Global};

/// The text that pages have, where their data coding scheme says that they are letters, and they are.
pub fn text_of(alloc: Global, dcs: u8, pages: &[Octets]) -> Result<Option<String>, AllocError>
    ensures { IfOk result (λ text. option_map string_bytes text ≡ option_map encode_utf8_all (read_text dcs pages.now)) }
{
    let Some(coding) = Coding::of_dcs(dcs) else {
        return Ok(None);
    };
    let mut text = String::new(alloc);
    for page in pages {
        if !coding.append_page(alloc, &mut text, page.as_slice())? {
            return Ok(None);
        }
    }
    Ok(Some(text))
}
