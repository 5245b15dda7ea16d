//! Labels: the texts of a file.

ghost use Rattle.std.specs.Prelude.{◌≡◌, ◌↔◌, IsTrue, IsSome, IfSome};
ghost use Rattle.gf_token.specs.LabelSpelling.{is_spelling};

/// A label as a file spells it, between its quotes. Labels are equal if their bytes are.
///
/// A quotation mark in a label is written `\"` (Gambit documentation, "Game representation
/// formats"). A backslash before any other byte stands for itself, a label does not end in one, and
/// its bytes need not be UTF-8 (this project's profile).
#[derive(Clone, Copy, Debug, PartialEq, Eq, Hash)]
pub struct Label<'a> {
    raw: &'a [u8],
    ghost spelled: { IsTrue (is_spelling raw.now) },
}

/// Whether these bytes may stand between the quotes of a label.
fn is_spelling(raw: &[u8]) -> bool
    ensures { result ≡ is_spelling raw.now }
{
    let mut before = b'"';
    for byte in raw {
        if *byte == b'"' && before != b'\\' {
            return false;
        }
        before = *byte;
    }
    before != b'\\'
}

impl<'a> Label<'a> {
    ghost use Rattle.gf_token.specs.Label.{label_of};

    /// The label that `raw` spells, or `None` if `raw` ends in a backslash or has a `"` that does
    /// not directly follow one.
    pub fn new(raw: &'a [u8]) -> Option<Label<'a>>
        ensures spelled { IsSome result ↔ IsTrue (is_spelling raw.entry.now) }
        ensures same { IfSome result (λ label. label_of label ≡ raw.entry.now) }
    {
        if is_spelling(raw) {
            Some(Label { raw })
        } else {
            None
        }
    }

    /// The label that `raw` spells, if it is known to spell one: nothing is checked at run time.
    ///
    /// The caller has to ensure that `raw` does not end in a backslash, and that each `"` in it
    /// directly follows one. `Label::new` checks any bytes.
    // No edit: it puts parts together.
    #[inline(always)]
    pub fn of_spelling(raw: &'a [u8]) -> Label<'a>
        requires { IsTrue (is_spelling raw.now) }
        ensures { label_of result ≡ raw.entry.now }
    {
        Label { raw }
    }

    /// The bytes between the label's quotes.
    // No edit: it returns a part.
    #[inline(always)]
    pub fn raw(self) -> &'a [u8]
        ensures same { result.now ≡ label_of self.entry }
        ensures spelled { IsTrue (is_spelling result.now) }
    {
        self.raw
    }
}
