//! Whether names count.

ghost use Rattle.std.specs.Prelude.{◌≡◌, ◌↔◌, IsTrue};
ghost use Rattle.gf_token.specs.Label.{label_of};
ghost use Rattle.gf_token.specs.NameBy.{name_by};

use crate::label::Label;

/// Whether names count when files are compared, or their canonical text is written.
#[derive(Clone, Copy, Debug, PartialEq, Eq)]
pub enum Names {
    /// All names count.
    Kept,
    /// Title, comment, and the names of nodes, information sets and outcomes count as empty. The
    /// labels of players, actions and strategies count.
    Aside,
}

impl Names {
    /// What counts of a name: the whole label, or an empty one.
    pub fn of(self, name: Label<'_>) -> Label<'_>
        ensures { label_of result ≡ name_by self (label_of name.entry) }
    {
        match self {
            Names::Kept => name,
            Names::Aside => Label::new(&[]).unwrap(),
        }
    }

    /// Whether two names are the same, as far as they count.
    #[inline(always)]
    pub fn agree(self, a: Label<'_>, b: Label<'_>) -> bool
        ensures { IsTrue result
            ↔ (name_by self (label_of a.entry) ≡ name_by self (label_of b.entry)) }
    {
        self == Names::Aside || a.raw() == b.raw()
    }
}
