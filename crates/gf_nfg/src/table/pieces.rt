//! Pieces of a list that is cut at certain ends.

ghost use Rattle.std.specs.Prelude.{◌≡◌, ◌-◌, ◌<◌, Some, length, slice_get, slice_index};
ghost use Rattle.gf_nfg.specs.inner.TableParts.{RisesTo, pieces, start_of};

use std::ops::Range;

/// Where the piece with this number, from 0, is in a list that is cut at these ends.
#[tactic(auto, using(crate::proofs::lemmas::tables::Pieces::start_of_suc))]
pub(crate) fn piece_at(first: usize, ends: &[usize], number: usize) -> Range<usize>
    requires { number < length ends.now }
    ensures start { result.start ≡ start_of first ends.now number }
    ensures end { result.end ≡ slice_index ends.now number }
{
    let start = if number == 0 { first } else { ends[number - 1] };
    start..ends[number]
}

/// The piece with this number, from 0, of bytes that are cut at these ends.
#[tactic(auto, using(crate::proofs::lemmas::tables::Pieces::cut_at))]
pub(crate) fn piece<'a>(bytes: &'a [u8], ends: &[usize], number: usize) -> &'a [u8]
    requires rises { RisesTo (length bytes.now) 0 ends.now }
    requires number { number < length ends.now }
    ensures { slice_get (pieces 0 ends.now bytes.entry.now) number ≡ Some result.now }
{
    let own = piece_at(0, ends, number);
    &bytes[own.start..own.end]
}
