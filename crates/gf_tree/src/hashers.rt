//! The hashers of the maps from a file's numbers.

ghost use Rattle.std.specs.Prelude.{◌≡◌, ◌+◌, ◌<◌, ◌≤◌, ◌^◌, ◌++◌, ◌∷◌, [], None, position};
ghost use Rattle.std.specs.Prelude.{IfOk, OnErr, OnOk};
ghost use Rattle.std.specs.Map.{keys_of};
ghost use Rattle.indexmap.specs.IndexMap.{spare};
ghost use Rattle.gf_tree.specs.inner.Hashers.{start_for};

use indexmap::IndexMap;
use std::alloc::{AllocError, Global};
use std::hash::{BuildHasher, DefaultHasher, FoldHasher, Hash, Hasher};

/// A map with this many keys gets the hashers of its input before it gets another key. Among fewer
/// keys, none takes long to find, whatever their hashes are.
const FEW_KEYS: usize = 64;

/// The first bit of a hash that `indexmap` takes for the tag of a key, and not for its place.
const TAG: u64 = 1 << 24;

/// Hashes a number so that a map keeps its neighbours beside it: all but the last two bits choose the
/// place in the map's table, and these two the tag, which tells the keys of one place apart.
///
/// Most files number their sets and outcomes in order: then four of them share a cache line of the
/// table. Four numbers are also the most that a file can bring to one place.
#[derive(Clone, Copy, Drop)]
pub(crate) struct NumberHasher {
    hasher: FoldHasher,
    last_bits: u8,
}

impl Hasher for NumberHasher {
    ghost use Rattle.gf_tree.specs.inner.Hashers.{number_write, number_finish};

    ghost write = { number_write };

    ghost finish = { number_finish };

    fn finish(&self) -> u64 {
        self.hasher.finish() ^ self.last_bits as u64 * TAG
    }

    fn write(&mut self, bytes: &[u8]) {
        if let Some((lowest, others)) = bytes.split_first() {
            self.hasher.write_u8(*lowest / 4);
            self.hasher.write(others);
            self.last_bits = *lowest % 4;
        }
    }
}

/// Makes hashers from the same start.
#[derive(Clone, Copy)]
pub(crate) struct Hashers {
    start: FoldHasher,
}

impl Hashers {
    /// Those of a map that has few keys, from a fixed start.
    pub(crate) fn of_few() -> Hashers {
        Hashers {
            start: FoldHasher::default(),
        }
    }

    /// Those of an input: their start depends on all of it.
    ///
    /// With a fixed start, the writer of a file could choose set numbers whose hashes collide, and
    /// each look-up would then try thousands of them. Here each number that is chosen changes every
    /// hash. The input is hashed by SipHash, since bytes of the file can bring the kit's faster
    /// hasher to any state. The faster hasher hashes the numbers, from a start that nobody chose.
    fn of(input: &[u8]) -> Hashers
        ensures { result.start ≡ start_for input.now }
    {
        let mut whole = DefaultHasher::new();
        whole.write(input);
        let mut start = FoldHasher::default();
        start.write_u64(whole.finish());
        Hashers { start }
    }
}

impl BuildHasher for Hashers {
    ghost use Rattle.gf_tree.specs.inner.Hashers.{number_hasher};

    type Hasher = NumberHasher;

    ghost build_hasher = { number_hasher };

    fn build_hasher(&self) -> NumberHasher {
        NumberHasher {
            hasher: self.start,
            last_bits: 0,
        }
    }
}

/// An input, which is hashed when a map gets many keys: most files have no such map.
#[derive(Clone, Copy)]
pub(crate) struct Seed<'a> {
    input: &'a [u8],
    hashers: Option<Hashers>,
}

impl<'a> Seed<'a> {
    /// The input has not been hashed.
    pub(crate) fn of(input: &'a [u8]) -> Seed<'a> {
        Seed {
            input,
            hashers: None,
        }
    }

    /// The hashers of the input.
    fn hashers(&mut self) -> Hashers {
        if let Some(hashers) = self.hashers {
            return hashers;
        }
        let hashers = Hashers::of(self.input);
        self.hashers = Some(hashers);
        hashers
    }
}

/// The place after this many others. Places are below `u32::MAX`: room for more is refused.
pub(crate) fn next_place(len: usize) -> Result<u32, AllocError>
    ensures ok { IfOk result (λ place. (place ≡ len) × (place + 1 < 2 ^ 32)) }
    ensures err { OnErr result (2 ^ 32 ≤ len + 1) }
{
    if len >= u32::MAX as usize {
        return Err(AllocError);
    }
    Ok(len as u32)
}

/// Gives a map other hashers.
fn rehash<K: Eq + Hash + Drop, V: Drop>(
    map: &mut IndexMap<K, V, Hashers>,
    alloc: Global,
    hashers: Hashers,
) -> Result<(), AllocError>
    ensures { map.new.entries ≡ map.old.entries }
{
    // It is called for its clause that the keys are distinct.
    let _len = map.len();
    let mut all = IndexMap::with_hasher(alloc, hashers);
    all.append(map)?;
    *map = all;
    Ok(())
}

/// The place of a key. It is first looked for at the place that it may have, which spares most
/// look-ups in files that number their sets and outcomes in order of first use.
#[inline(always)]
pub(crate) fn find<K: Eq + Hash, V>(
    map: &IndexMap<K, V, Hashers>,
    key: &K,
    likely: usize,
) -> Option<usize>
    ensures { result ≡ position (K.eq key.now) (keys_of map.now.entries) }
{
    // It is called for its clause that the keys are distinct.
    let _len = map.len();
    if let Some((there, _)) = map.get_index(likely) {
        if *there == *key {
            return Some(likely);
        }
    }
    map.get_index_of(key)
}

/// Makes room for one more key.
pub(crate) fn make_room<K: Eq + Hash + Drop, V: Drop>(
    map: &mut IndexMap<K, V, Hashers>,
    alloc: Global,
    seed: &mut Seed<'_>,
) -> Result<(), AllocError>
    ensures entries { map.new.entries ≡ map.old.entries }
    ensures room { OnOk result (0 < spare map.new) }
{
    if map.len() == FEW_KEYS {
        rehash(map, alloc, seed.hashers())?;
    }
    map.reserve(1)
}

/// Adds a key that is not there yet, and for which there is room.
#[inline(always)]
#[tactic(auto, using(crate::proofs::lemmas::stores::Keys::goes_last))]
pub(crate) fn push<K: Eq + Hash + Drop, V: Drop>(
    map: &mut IndexMap<K, V, Hashers>,
    key: K,
    value: V,
)
    requires absent { position (K.eq key) (keys_of map.old.entries) ≡ None }
    requires room { 0 < spare map.old }
    ensures { map.new.entries ≡ map.old.entries ++ (key, value) ∷ [] }
{
    map.insert(key, value).unwrap();
}
