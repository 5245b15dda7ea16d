//! What the spelling of a refused token shows.

/// A mistake in how a token is spelled.
#[derive(Clone, Copy)]
pub enum Spelling {
    ByteOrderMark,
    Utf16,
    Xml,
    ActionGraph,
    /// A comment of another language, as with `//` or `#`.
    OtherComment,
    /// Quotation marks that are typographic or single.
    OtherQuotes,
    /// A dash or a minus sign that is not the one of ASCII.
    OtherMinus,
    NoBreakSpace,
    /// A small letter where a capital is due.
    SmallLetter,
    /// A fraction with spaces in it.
    ApartFraction,
    NotANumber,
    NumberTooLarge,
}

/// What a first token shows that is not the name of a format.
pub fn of_format(found: &[u8]) -> Option<Spelling> {
    if found.starts_with(b"\xef\xbb\xbf") {
        return Some(Spelling::ByteOrderMark);
    }
    let has_mark = found.starts_with(b"\xff\xfe") || found.starts_with(b"\xfe\xff");
    let has_zeros = found.starts_with(b"E\0F\0G") || found.starts_with(b"N\0F\0G");
    let has_zeros_first = found.starts_with(b"\0E\0F\0G") || found.starts_with(b"\0N\0F\0G");
    if has_mark || has_zeros || has_zeros_first {
        return Some(Spelling::Utf16);
    }
    if found.starts_with(b"<?xml") {
        return Some(Spelling::Xml);
    }
    if found == b"#AGG".as_slice() || found == b"#BAGG".as_slice() {
        return Some(Spelling::ActionGraph);
    }
    of_small_letter(found, b"NFG").or(of_small_letter(found, b"EFG"))
}

/// What a token shows in which a capital of this word is a small letter.
pub fn of_small_letter(found: &[u8], word: &[u8]) -> Option<Spelling> {
    if found.eq_ignore_ascii_case(word) {
        Some(Spelling::SmallLetter)
    } else {
        None
    }
}

/// Whether a token begins with a character from U+2000 to U+203F whose last byte is in this range.
fn begins_between(found: &[u8], first: u8, last: u8) -> bool {
    found.len() > 2 && found.starts_with(b"\xe2\x80") && first <= found[2] && found[2] <= last
}

fn has_no_break_space(found: &[u8]) -> bool {
    for end in 1..found.len() {
        if found[end - 1] == 0xc2 && found[end] == 0xa0 {
            return true;
        }
    }
    false
}

/// What the spelling of a bare token shows, wherever it stands.
pub fn of_spelling(found: &[u8]) -> Option<Spelling> {
    let is_comment = found.starts_with(b"//")
        || found.starts_with(b"/*")
        || found.starts_with(b"#");
    // U+2018 to U+201F, and U+00AB.
    let is_quote = begins_between(found, 0x98, 0x9f)
        || found.starts_with(b"\xc2\xab")
        || found.starts_with(b"'")
        || found.starts_with(b"`");
    // U+2010 to U+2015, and U+2212.
    let is_minus = begins_between(found, 0x90, 0x95) || found.starts_with(b"\xe2\x88\x92");
    if is_comment {
        Some(Spelling::OtherComment)
    } else if is_quote {
        Some(Spelling::OtherQuotes)
    } else if is_minus {
        Some(Spelling::OtherMinus)
    } else if !found.starts_with(b"\"") && has_no_break_space(found) {
        Some(Spelling::NoBreakSpace)
    } else {
        None
    }
}
