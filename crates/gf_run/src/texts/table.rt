//! The answer that is a table: the strategic form of a tree, or its reduced form; a table as it is.

ghost use Rattle.std.specs.Prelude.{◌≡◌, ◌≤◌, IfErr, IfOk, MatchResult, length};
ghost use Rattle.gf_nfg.specs.Table.{Table as table};
ghost use Rattle.gf_nfg.specs.TableText.{table_text};
ghost use Rattle.gf_form.specs.Forms.{HasFewPlayers, IsFormOf, IsWithoutForm};
ghost use Rattle.gf_run.specs.Faults.{form_fault};
ghost use Rattle.gf_run.specs.Texts.{IsFaultOfBytes, IsFormText};
ghost use Rattle.gf_run.specs.Streams.{limit};

use crate::fault::{RunFault, refused};
use crate::texts::answer::Answer;
use gf_canon::{Meaning, read_file};
use gf_form::{FormFault, Strategies, form_by};
use gf_nfg::{Table, text_of};
use gf_tree::Game;
use std::alloc::Global;

/// The canonical text of a table.
fn table_answer(alloc: Global, table: Table) -> Result<Answer<()>, RunFault>
    ensures text { IfOk result (λ answer. answer.text.rest ≡ table_text table) }
    ensures memory { IfErr result (λ fault. fault ≡ RunFault.Memory) }
{
    let text = text_of(alloc, table)?;
    Ok(Answer { value: (), text })
}

/// The canonical text of the strategic form of a game, or of its reduced form.
fn form_answer(
    alloc: Global,
    game: &Game<'_>,
    strategies: Strategies,
) -> Result<Answer<()>, RunFault>
    requires { HasFewPlayers game.now }
    ensures form { IfOk result (λ answer.
        (t : table) × IsFormOf strategies game.now t × (answer.text.rest ≡ table_text t)) }
    ensures without { IfErr result (λ fault. (why : FormFault)
        × IsWithoutForm strategies game.now why × (fault ≡ form_fault why)) }
{
    table_answer(alloc, form_by(alloc, game, strategies)?)
}

/// The canonical text of the strategic form of a tree, or of its reduced form; or of a table.
pub fn table(alloc: Global, bytes: &[u8], strategies: Strategies) -> Result<Answer<()>, RunFault>
    requires { length bytes.now ≤ limit }
    ensures { MatchResult result
        (λ answer. IsFormText strategies bytes.now answer.text.rest)
        (IsFaultOfBytes strategies bytes.now) }
{
    match read_file(alloc, bytes) {
        Ok(Meaning::Tree(game)) => form_answer(alloc, &game, strategies),
        Ok(Meaning::Table(table)) => table_answer(alloc, table),
        Err(fault) => Err(refused(fault)),
    }
}
