//! Writing labels.

ghost use Rattle.std.specs.Prelude.{◌≡◌, ◌+◌, ◌<◌, ◌≤◌, ◌++◌, length, OnOk, OnErr, vec_len};
ghost use Rattle.std.specs.Prelude.{vec_capacity};
ghost use Rattle.gf_token.specs.Label.{label_of};
ghost use Rattle.gf_token.specs.Token.{spelling};
ghost use Rattle.gf_token.specs.Token.Token.{Text};

use crate::label::Label;
use std::alloc::AllocError;

/// Appends the label between quotes.
///
/// # Errors
///
/// `AllocError` if memory is refused; `out` has then the items that it had.
pub fn write_label(label: Label<'_>, out: &mut Vec<u8>) -> Result<(), AllocError>
    ensures ok { OnOk result
        (out.new.items ≡ out.old.items ++ spelling (Text (label_of label.entry))) }
    ensures err { OnErr result (out.new.items ≡ out.old.items) }

    // It fails only if there was no room, and the room never shrinks.
    ensures full { OnErr result
        (vec_capacity out.old < vec_len out.old + length (spelling (Text (label_of label.entry)))) }
    ensures capacity { vec_capacity out.old ≤ vec_capacity out.new }
{
    let raw = label.raw();
    out.reserve(raw.len() + 2)?;
    out.push_reserved(b'"');
    out.extend_from_slice(raw).unwrap();
    out.push_reserved(b'"');
    Ok(())
}
