//! Which numbers of two trees correspond, in the form that C gets.

ghost use Rattle.std.specs.Prelude.{◌≡◌};
ghost use Rattle.gf_calls.specs.Pairs.{told_pair};

use gf_canon::{NumberPair, ReceivePairs};
use std::alloc::AllocError;

/// Numbers of two trees that correspond.
#[repr(C)]
#[derive(Clone, Copy, Drop)]
pub struct Pair {
    /// 1 for an information set, 2 for an outcome.
    pub kind: u32,
    /// The player of a set, 0 for chance; 0 for an outcome.
    pub player: u32,
    /// The number in the first tree.
    pub first: u32,
    /// The number in the second.
    pub second: u32,
}

fn told_pair(pair: NumberPair) -> Pair
    ensures { result ≡ told_pair pair }
{
    let (kind, player, first, second) = match pair {
        NumberPair::Set {
            player,
            number,
            new_number,
        } => (1, player, number, new_number),
        NumberPair::Outcome { number, new_number } => (2, 0, number, new_number),
    };
    Pair {
        kind,
        player,
        first,
        second,
    }
}

/// The pairs that were told, in the form that C gets.
#[derive(Drop)]
pub struct ToldPairs {
    pub pairs: Vec<Pair>,
}

impl ReceivePairs for ToldPairs {
    ghost use Rattle.std.specs.Prelude.{◌≡◌, map};
    ghost use Rattle.gf_calls.specs.Pairs.{told_pair};

    ghost holds = { λ told pairs. told.pairs.items ≡ map told_pair pairs };

    fn pair(&mut self, pair: NumberPair) -> Result<(), AllocError> {
        self.pairs.push(told_pair(pair))?;
        Ok(())
    }
}
