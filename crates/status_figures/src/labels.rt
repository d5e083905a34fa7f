//! The values of labels.

ghost use Rattle.std.specs.Prelude.{◌≡◌, ◌++◌, OnOk};
ghost use Rattle.status_figures.specs.Labels.{label_octet, label_text};

use std::alloc::AllocError;

/// Appends the octet as it stands in a value.
fn push_octet(out: &mut Vec<u8>, octet: u8) -> Result<(), AllocError>
    ensures { OnOk result (out.new.items ≡ out.old.items ++ label_octet octet) }
{
    match octet {
        b'\\' => out.extend_from_slice(b"\\\\"),
        b'"' => out.extend_from_slice(b"\\\""),
        b'\n' => out.extend_from_slice(b"\\n"),
        octet => out.extend_from_slice(&[octet]),
    }
}

/// Appends the value of a label.
pub(crate) fn push_label(out: &mut Vec<u8>, value: &[u8]) -> Result<(), AllocError>
    ensures { OnOk result (out.new.items ≡ out.old.items ++ label_text value.now) }
{
    for octet in value {
        push_octet(out, *octet)?;
    }
    Ok(())
}
