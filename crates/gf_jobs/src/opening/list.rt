//! The names in a list of files, one in each line.

ghost use Rattle.std.specs.Prelude.{◌≡◌, ◌++◌, IfSome, OnOk, map};
ghost use Rattle.gf_jobs.specs.Lines.{end_byte, name_in, names_in};

use gf_words::LineEnd;
use std::alloc::{AllocError, Global};
use std::io;
use std::io::{BufRead, BufReader, Read};

/// The byte that ends a line.
pub(crate) fn end_byte(end: LineEnd) -> u8
    ensures { result ≡ end_byte end }
{
    match end {
        LineEnd::LineFeed => b'\n',
        LineEnd::Null => b'\0',
    }
}

/// Adds the name in a line that had this end, if there is one: before a line feed a carriage return may
/// stand, and an empty line has no name.
fn push_name(names: &mut Vec<Vec<u8>>, mut line: Vec<u8>, end: LineEnd) -> Result<(), AllocError>
    ensures { OnOk result (map (λ name. name.items) names.new.items
        ≡ map (λ name. name.items) names.old.items ++ name_in end line.items) }
{
    if let LineEnd::LineFeed = end {
        if line.as_slice().ends_with(b"\r") {
            line.truncate(line.len() - 1);
        }
        if line.is_empty() {
            return Ok(());
        }
    }
    names.push(line)?;
    Ok(())
}

/// Adds the names in the list that a reader gives, whose lines have this end; the last one may end with
/// the list. Names that came before an error stay.
pub(crate) fn push_names<R: Read + Drop>(
    alloc: Global,
    input: R,
    end: LineEnd,
    names: &mut Vec<Vec<u8>>,
) -> io::Result<()>
    ensures { OnOk result (IfSome (R.remaining input) (λ bytes.
        map (λ name. name.items) names.new.items
        ≡ map (λ name. name.items) names.old.items ++ names_in end bytes)) }
{
    for line in BufReader::new(alloc, input)?.split(alloc, end_byte(end)) {
        push_name(names, line?, end)?;
    }
    Ok(())
}
