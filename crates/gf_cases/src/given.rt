//! Trees and tables that are read from a file and lent to a call. No other function owns one that
//! was read: what a function owns is what makes its check long.

use gf_nfg::{Table, read_nfg};
use gf_token::Fault;
use gf_tree::{Game, read_efg};
use std::alloc::Global;

/// What a call gives that is lent the tree of a file, or the fault of the file.
pub fn with_tree<T: Copy, F: FnOnce(&Game<'_>) -> T>(
    alloc: Global,
    file: &[u8],
    call: F,
) -> Result<T, Fault>
    requires { F.IsAlwaysCallable call }
{
    match read_efg(alloc, file) {
        Ok(game) => Ok(call(&game)),
        Err(fault) => Err(fault),
    }
}

/// What a call gives that is lent the table of a file, or the fault of the file.
pub fn with_table<T: Copy, F: FnOnce(&Table) -> T>(
    alloc: Global,
    file: &[u8],
    call: F,
) -> Result<T, Fault>
    requires { F.IsAlwaysCallable call }
{
    match read_nfg(alloc, file) {
        Ok(table) => Ok(call(&table)),
        Err(fault) => Err(fault),
    }
}
