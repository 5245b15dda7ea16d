//! The SHA-256 digest of a text that is given piece by piece.

ghost use Rattle.std.specs.Prelude.{◌≡◌};
ghost use Rattle.sha2.specs.Sha256.{sha256};

use gf_nfg::TextPieces;
use sha2::{Digest, Sha256};

/// The SHA-256 digest (FIPS 180-4) of a text that is given piece by piece.
pub fn sha256_of(text: TextPieces) -> [u8; 32]
    ensures { result ≡ sha256 text.rest }
{
    let mut text = text;
    let mut hasher = Sha256::new();
    while text.advance() {
        hasher.update(text.piece());
    }
    hasher.finalize()
}
