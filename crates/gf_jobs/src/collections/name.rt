//! How the name of a file stands in a line: as `sha256sum` of the GNU coreutils writes it, or as it is.

ghost use Rattle.std.specs.Prelude.{◌≡◌, ◌++◌, OnOk};
ghost use Rattle.std.specs.List.{flat_map, list_any};
ghost use Rattle.gf_jobs.specs.Lines.{byte_text, is_escaped, name_line};

use gf_words::LineEnd;
use std::alloc::AllocError;

/// Whether a byte of a name would break its line, or be taken for one that does.
fn is_escaped(byte: u8) -> bool
    ensures { result ≡ is_escaped byte }
{
    byte == b'\n' || byte == b'\r' || byte == b'\\'
}

fn has_escaped(name: &[u8]) -> bool
    ensures { result ≡ list_any is_escaped name.now }
{
    name.iter().any(|byte| is_escaped(*byte))
}

fn push_byte(text: &mut Vec<u8>, byte: u8) -> Result<(), AllocError>
    ensures { OnOk result (text.new.items ≡ text.old.items ++ byte_text byte) }
{
    match byte {
        b'\n' => text.extend_from_slice(b"\\n"),
        b'\r' => text.extend_from_slice(b"\\r"),
        b'\\' => text.extend_from_slice(b"\\\\"),
        _ => text.extend_from_slice(&[byte]),
    }
}

#[tactic(auto, using(std::proofs::lemmas::List::flat_map_more))]
fn push_escaped(text: &mut Vec<u8>, name: &[u8]) -> Result<(), AllocError>
    ensures { OnOk result (text.new.items ≡ text.old.items ++ flat_map byte_text name.now) }
{
    for byte in name {
        push_byte(text, *byte)?;
    }
    Ok(())
}

/// Appends the line of a name, after a text that stands before it.
pub(crate) fn push_name_line(
    text: &mut Vec<u8>,
    before: &[u8],
    name: &str,
    end: LineEnd,
) -> Result<(), AllocError>
    ensures { OnOk result (text.new.items ≡ text.old.items ++ name_line end before.now name.now) }
{
    let name = name.as_bytes();
    match end {
        LineEnd::LineFeed => {
            if has_escaped(name) {
                text.push(b'\\')?;
            }
            text.extend_from_slice(before)?;
            push_escaped(text, name)?;
            text.extend_from_slice(b"\n")
        }
        LineEnd::Null => {
            text.extend_from_slice(before)?;
            text.extend_from_slice(name)?;
            text.extend_from_slice(b"\0")
        }
    }
}
