//! The form of a game by its pure or its reduced strategies.

ghost use Rattle.std.specs.Prelude.{IfErr, IfOk};
ghost use Rattle.gf_form.specs.Forms.{HasFewPlayers, IsFormOf, IsWithoutForm};

use crate::reduced_form::table_reduced;
use crate::strategic_form::table;
use gf_nfg::Table;
use gf_token::FormFault;
use gf_tree::Game;
use std::alloc::Global;

/// The strategies of a form.
#[derive(Clone, Copy)]
pub enum Strategies {
    /// All pure strategies.
    Pure,
    /// The reduced ones, which leave out the choices that cannot matter.
    Reduced,
}

/// The form of a game by these strategies: what [`table`](crate::table) or
/// [`table_reduced`](crate::table_reduced) returns. These say what the caller has to ensure, and
/// when each error comes.
// No edit: it passes on `table`.
pub fn form_by(alloc: Global, game: &Game<'_>, strategies: Strategies) -> Result<Table, FormFault>
    requires { HasFewPlayers game.now }
    ensures form { IfOk result (IsFormOf strategies game.now) }
    ensures without { IfErr result (IsWithoutForm strategies game.now) }
{
    match strategies {
        Strategies::Pure => table(alloc, game),
        Strategies::Reduced => table_reduced(alloc, game),
    }
}
