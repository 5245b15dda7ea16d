//! The bytes that separate tokens, and those that bare tokens are made of.

ghost use Rattle.std.specs.Prelude.{◌≡◌};
ghost use Rattle.gf_token.specs.Byte.{is_space, is_bare};

// An `s` at the place of each byte of whitespace, a dot at the place of each byte of a bare token,
// and every other byte at its own place.
static CLASSES: [u8; 256] = *b"\
    .........sssss..................\
    s.\".........,...................\
    ................................\
    ...........................{.}..\
    ................................\
    ................................\
    ................................\
    ................................";

#[inline(always)]
pub(crate) fn is_space(byte: u8) -> bool
    ensures { result ≡ is_space byte }
{
    CLASSES[byte as usize] == b's'
}

#[inline(always)]
pub(crate) fn is_bare(byte: u8) -> bool
    ensures { result ≡ is_bare byte }
{
    // The bytes of numbers and words need no look-up.
    matches!(byte, b'-'..=b'z') || CLASSES[byte as usize] == b'.'
}
