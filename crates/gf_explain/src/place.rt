//! The line and the column of a place in a file.

ghost use Rattle.gf_explain.specs.Place.{IsPlaceAfter};

/// A line and a column, both from 1. Columns are counted in bytes.
#[derive(Clone, Copy)]
pub struct Place {
    pub line: usize,
    pub column: usize,
}

/// The place after these bytes: its line is 1 plus the number of line feeds, and its column is 1
/// plus the number of bytes since the last of them.
pub fn place_after(bytes: &[u8]) -> Place
    ensures { IsPlaceAfter bytes.now result }
{
    let mut place = Place { line: 1, column: 1 };
    for byte in bytes {
        if *byte == b'\n' {
            place.line += 1;
            place.column = 1;
        } else {
            place.column += 1;
        }
    }
    place
}
