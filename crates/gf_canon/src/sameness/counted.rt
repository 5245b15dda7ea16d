//! What counts of a heading and of a node, and when two are the same.

ghost use Rattle.std.specs.Prelude.{◌≡◌, ◌↔◌, IsTrue, option_map};
ghost use Rattle.gf_tree.specs.FileNodeOf.{described_outcome, described_set, file_node_of};
ghost use Rattle.gf_tree.specs.FileNodeOf.{outcome_use_of, set_use_of};
ghost use Rattle.gf_tree.specs.Told.{heading_of, told_of};
ghost use Rattle.gf_tree.specs.Unnamed.{use_by};
ghost use Rattle.gf_canon.specs.inner.NamedBy.{heading_by, node_by, outcome_by, set_by};

use gf_token::Names;
use gf_tree::{
    FileNode, NumberedNode, OutcomeDescription, OutcomeUse, SetDescription, SetUse, ToldHeading,
    same_actions,
};

/// What counts of a heading.
pub(crate) fn counted_heading<'n, 'a>(
    heading: ToldHeading<'n, 'a>,
    names: Names,
) -> ToldHeading<'n, 'a>
    ensures { heading_of result ≡ heading_by names (heading_of heading.entry) }
{
    ToldHeading {
        title: names.of(heading.title),
        comment: names.of(heading.comment),
        ..heading
    }
}

/// What counts of a node.
#[inline(always)]
pub(crate) fn counted_node<'n, 'a>(node: FileNode<'n, 'a>, names: Names) -> FileNode<'n, 'a>
    ensures { file_node_of result ≡ node_by names (file_node_of node.entry) }
{
    match names {
        Names::Kept => node,
        Names::Aside => node.unnamed(),
    }
}

/// Whether two descriptions of sets are the same, or both are absent.
#[inline(always)]
fn same_set_description(
    a: Option<SetDescription<'_, '_>>,
    b: Option<SetDescription<'_, '_>>,
    names: Names,
) -> bool
    ensures { IsTrue result ↔ (option_map (set_by names) (option_map described_set a.entry)
        ≡ option_map (set_by names) (option_map described_set b.entry)) }
{
    match (a, b) {
        (Some(a), Some(b)) => { names.agree(a.name, b.name) && same_actions(a.actions, b.actions) }
        (None, None) => true,
        _ => false,
    }
}

/// Whether two descriptions of outcomes are the same, or both are absent.
#[inline(always)]
#[tactic(auto, using(crate::proofs::lemmas::sameness::NodesNamed::equal_payoffs))]
fn same_outcome_description(
    a: Option<OutcomeDescription<'_, '_>>,
    b: Option<OutcomeDescription<'_, '_>>,
    names: Names,
) -> bool
    ensures { IsTrue result ↔ (option_map (outcome_by names) (option_map described_outcome a.entry)
        ≡ option_map (outcome_by names) (option_map described_outcome b.entry)) }
{
    match (a, b) {
        (Some(a), Some(b)) => names.agree(a.name, b.name) && a.payoffs == b.payoffs,
        (None, None) => true,
        _ => false,
    }
}

/// Whether two uses of sets are the same, or both are absent.
#[inline(always)]
fn same_set(a: Option<SetUse<'_, '_>>, b: Option<SetUse<'_, '_>>, names: Names) -> bool
    ensures { IsTrue result ↔ (option_map (use_by (set_by names)) (option_map set_use_of a.entry)
        ≡ option_map (use_by (set_by names)) (option_map set_use_of b.entry)) }
{
    match (a, b) {
        (Some(a), Some(b)) => {
            a.player == b.player
                && a.number == b.number
                && same_set_description(a.description, b.description, names)
        }
        (None, None) => true,
        _ => false,
    }
}

/// Whether two uses of outcomes are the same, or both are absent.
#[inline(always)]
fn same_outcome(a: Option<OutcomeUse<'_, '_>>, b: Option<OutcomeUse<'_, '_>>, names: Names) -> bool
    ensures { IsTrue result
        ↔ (option_map (use_by (outcome_by names)) (option_map outcome_use_of a.entry)
        ≡ option_map (use_by (outcome_by names)) (option_map outcome_use_of b.entry)) }
{
    match (a, b) {
        (Some(a), Some(b)) => {
            a.number == b.number && same_outcome_description(a.description, b.description, names)
        }
        (None, None) => true,
        _ => false,
    }
}

/// Whether two nodes are the same, part by part.
#[inline(always)]
#[tactic(auto, using(crate::proofs::lemmas::sameness::NodesNamed::by_parts))]
fn same_parts(a: &FileNode<'_, '_>, b: &FileNode<'_, '_>, names: Names) -> bool
    ensures { IsTrue result
        ↔ (node_by names (file_node_of a.now) ≡ node_by names (file_node_of b.now)) }
{
    names.agree(a.name, b.name)
        && same_set(a.set, b.set, names)
        && same_outcome(a.outcome, b.outcome, names)
}

/// Whether two nodes are the same, of which one describes something. In most files, few nodes do.
#[cold]
#[inline(never)]
fn same_described(a: NumberedNode<'_, '_>, b: NumberedNode<'_, '_>, names: Names) -> bool
    ensures { IsTrue result
        ↔ (node_by names (told_of a.entry).node ≡ node_by names (told_of b.entry).node) }
{
    same_parts(&a.file_node(), &b.file_node(), names)
}

/// Whether two nodes are the same.
#[inline(always)]
pub(crate) fn same_node(a: NumberedNode<'_, '_>, b: NumberedNode<'_, '_>, names: Names) -> bool
    ensures { IsTrue result
        ↔ (node_by names (told_of a.entry).node ≡ node_by names (told_of b.entry).node) }
{
    if a.describes_nothing() && b.describes_nothing() {
        same_parts(&a.undescribed(), &b.undescribed(), names)
    } else {
        same_described(a, b, names)
    }
}

/// Whether everything before the nodes of two games is the same.
#[tactic(auto, using(crate::proofs::Common::equal_headings))]
pub(crate) fn same_heading(a: ToldHeading<'_, '_>, b: ToldHeading<'_, '_>, names: Names) -> bool
    ensures { IsTrue result
        ↔ (heading_by names (heading_of a.entry) ≡ heading_by names (heading_of b.entry)) }
{
    counted_heading(a, names) == counted_heading(b, names)
}
