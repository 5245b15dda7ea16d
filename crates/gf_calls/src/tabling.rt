//! A file as a table.

ghost use Rattle.std.specs.Prelude.{◌≡◌, ℕ, IfOk, List};
ghost use Rattle.gf_nfg.specs.TableText.{table_text};
ghost use Rattle.gf_canon.specs.GameFile.GameFile.{extensive};
ghost use Rattle.gf_canon.specs.CanonicalText.{SpellsWithin};
ghost use Rattle.gf_canon.specs.MeaningOf.{file_of};
ghost use Rattle.gf_calls.specs.Numbers.{strategies_by};
ghost use Rattle.gf_calls.specs.Tabled.{IsTabled, IsTabledBy, form_status, profile_of};
ghost use Rattle.gf_calls.specs.inner.MadeText.{IsMadeText};

use crate::fault::{FaultNumbers, report};
use crate::flags::strategies_by;
use crate::handing::hand_out;
use crate::status::Status;
use gf_canon::{Meaning, read_file};
use gf_form::{FormFault, Strategies, form_by};
use gf_nfg::{Table, write_nfg};
use gf_tree::Game;
use std::alloc::{AllocError, Global};

/// The most players that a table can have.
const MOST_PLAYERS: usize = u32::MAX as usize;

/// The canonical text of a table.
fn whole_text(alloc: Global, table: &Table) -> Result<Vec<u8>, AllocError>
    ensures { IfOk result (λ text. text.items ≡ table_text table.now) }
{
    let mut text = Vec::new(alloc);
    write_nfg(table, &mut text)?;
    Ok(text)
}

/// Reports why a game has no table.
fn report_form(fault: FormFault, profile: &mut u64) -> Status
    ensures status { result ≡ form_status fault }
    ensures profile { profile.new ≡ profile_of fault profile.old }
{
    match fault {
        FormFault::TooManyProfiles => Status::TooManyProfiles,
        FormFault::Overflow { profile: at } => {
            *profile = u64::from(at);
            Status::Overflow
        }
        FormFault::Memory => Status::OutOfMemory,
    }
}

/// Writes the canonical text of a table.
fn write_text(alloc: Global, table: &Table, out: &mut [u8], needed: &mut usize) -> Status
    ensures { IsMadeText table.now out.old out.new needed.old needed.new result }
{
    match whole_text(alloc, table) {
        Ok(text) => hand_out(&text, out, needed),
        Err(_) => Status::OutOfMemory,
    }
}

/// Writes the form of a game by these strategies, or reports why there is none.
fn write_form(
    alloc: Global,
    game: &Game<'_>,
    strategies: Strategies,
    out: &mut [u8],
    needed: &mut usize,
    profile: &mut u64,
) -> Status
    ensures { (bytes : List ℕ) (numbers : FaultNumbers) → SpellsWithin bytes (extensive game.now)
        → IsTabled strategies bytes
        (record { out = out.old; needed = needed.old; numbers = numbers; profile = profile.old })
        (record { out = out.new; needed = needed.new; numbers = numbers; profile = profile.new })
        result }
{
    if game.players().len() > MOST_PLAYERS {
        return Status::Misuse;
    }
    match form_by(alloc, game, strategies) {
        Ok(table) => write_text(alloc, &table, out, needed),
        Err(fault) => report_form(fault, profile),
    }
}

/// Writes what a file means as a table.
fn write_meaning(
    alloc: Global,
    meaning: &Meaning<'_>,
    strategies: Strategies,
    out: &mut [u8],
    needed: &mut usize,
    profile: &mut u64,
) -> Status
    ensures { (bytes : List ℕ) (numbers : FaultNumbers) → SpellsWithin bytes (file_of meaning.now)
        → IsTabled strategies bytes
        (record { out = out.old; needed = needed.old; numbers = numbers; profile = profile.old })
        (record { out = out.new; needed = needed.new; numbers = numbers; profile = profile.new })
        result }
{
    match meaning {
        Meaning::Tree(game) => write_form(alloc, game, strategies, out, needed, profile),
        Meaning::Table(table) => write_text(alloc, table, out, needed),
    }
}

/// Writes a file as a table, with strategies as the flags say. Answers as the head of this crate
/// says.
pub fn write_table(
    alloc: Global,
    input: &[u8],
    flags: u32,
    out: &mut [u8],
    needed: &mut usize,
    fault: &mut FaultNumbers,
    profile: &mut u64,
) -> Status
    ensures { IsTabledBy (strategies_by flags) input.now
        (record { out = out.old; needed = needed.old; numbers = fault.old; profile = profile.old })
        (record { out = out.new; needed = needed.new; numbers = fault.new; profile = profile.new })
        result }
{
    let Some(strategies) = strategies_by(flags) else {
        return Status::Misuse;
    };
    match read_file(alloc, input) {
        Ok(meaning) => write_meaning(alloc, &meaning, strategies, out, needed, profile),
        Err(refusal) => report(refusal, fault),
    }
}
