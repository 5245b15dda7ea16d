//! The strategies of players, in memory of their own.

ghost use Rattle.std.specs.Prelude.{◌≡◌, ◌<◌, ◌++◌, ◌∷◌, [], Some, get_or, length, map, IfOk};
ghost use Rattle.std.specs.Prelude.{◌↔◌, IsTrue, OnOk, slice_get};
ghost use Rattle.std.specs.List.{AllByRecursion};
ghost use Rattle.gf_token.specs.Label.{label_of};
ghost use Rattle.gf_nfg.specs.Sentence.{counted_labels};
ghost use Rattle.gf_nfg.specs.Spellable.{AreSpellings};
ghost use Rattle.gf_nfg.specs.inner.TableParts.{groups};
ghost use Rattle.gf_nfg.specs.inner.ListsLeft.{size_of};

use crate::table::labels::Labels;
use crate::table::pieces::piece_at;
use gf_token::Label;
use std::alloc::{AllocError, Global};
use std::marker::Model;

/// A list of labels for each player.
#[derive(Drop)]
pub(crate) struct StrategyLists {
    /// Those of one player after another.
    labels: Labels,
    /// Where each player's end.
    ends: Vec<usize>,
}

impl Model for StrategyLists {
    ghost use Rattle.std.specs.Prelude.{List, length, ℕ};
    ghost use Rattle.gf_nfg.specs.inner.TableParts.{RisesTo, pieces};

    ghost Value = { List (List (List ℕ)) };

    ghost view = { λ s. pieces 0 s.ends.items s.labels };

    ghost invariant = { λ s. RisesTo (length s.labels) 0 s.ends.items };
}

impl StrategyLists {
    /// No lists.
    pub(crate) fn new(alloc: Global) -> StrategyLists
        ensures { result ≡ [] }
    {
        StrategyLists {
            labels: Labels::new(alloc),
            ends: Vec::new(alloc),
        }
    }

    /// Adds those of one more player. If memory is refused, some of them may have been added.
    #[tactic(auto, using(crate::proofs::lemmas::tables::Pieces::one_piece_more))]
    fn push(&mut self, own: &[Label<'_>]) -> Result<(), AllocError>
        ensures { OnOk result (self.new ≡ self.old ++ map label_of own.now ∷ []) }
    {
        self.ends.reserve(1)?;
        let added = self.labels.extend(own);
        self.ends.push_reserved(self.labels.len());
        added
    }

    /// Adds those of one more player: the labels "1" to this count. If memory is refused, some of
    /// them may have been added.
    #[tactic(auto, using(crate::proofs::lemmas::tables::Pieces::one_piece_more))]
    fn push_counted(&mut self, count: u32) -> Result<(), AllocError>
        ensures { OnOk result (self.new ≡ self.old ++ counted_labels count ∷ []) }
    {
        self.ends.reserve(1)?;
        let added = self.labels.extend_counted(count);
        self.ends.push_reserved(self.labels.len());
        added
    }

    /// These, and those of one more player, which are not copied if there are no labels so far.
    #[tactic(auto, using(crate::proofs::lemmas::tables::Pieces::one_piece_more))]
    fn with_labels(self, own: Labels) -> Result<StrategyLists, AllocError>
        ensures all { IfOk result (λ all. all ≡ self ++ own ∷ []) }
        ensures spelled { OnOk result (AreSpellings own) }
    {
        // Its clause says that they are spelled.
        let _own = own.len();
        let StrategyLists { labels, mut ends } = self;
        let labels = labels.followed_by(own)?;
        ends.push(labels.len())?;
        Ok(StrategyLists { labels, ends })
    }

    /// These lists.
    pub(crate) fn of_lists(
        alloc: Global,
        lists: &[Vec<Label<'_>>],
    ) -> Result<StrategyLists, AllocError>
        ensures { IfOk result (λ all. all ≡ map (λ own. map label_of own.items) lists.now) }
    {
        let mut all = StrategyLists::new(alloc);
        for own in lists {
            all.push(own)?;
        }
        Ok(all)
    }

    /// These lists. If only one has labels, they are not copied.
    pub(crate) fn of_labels(alloc: Global, lists: Vec<Labels>) -> Result<StrategyLists, AllocError>
        ensures all { IfOk result (λ all. all ≡ lists.items) }
        ensures spelled { OnOk result (AllByRecursion (λ own. AreSpellings own) lists.items) }
    {
        let mut all = StrategyLists::new(alloc);
        for own in lists {
            all = all.with_labels(own)?;
        }
        Ok(all)
    }

    /// A count of n stands for the labels "1" to n.
    #[inline(never)]
    pub(crate) fn counted(alloc: Global, counts: &[u32]) -> Result<StrategyLists, AllocError>
        ensures { IfOk result (λ all. all ≡ map counted_labels counts.now) }
    {
        let mut all = StrategyLists::new(alloc);
        for count in counts {
            all.push_counted(*count)?;
        }
        Ok(all)
    }

    /// Labels that come one after another, this many for each player.
    #[tactic(auto, using(crate::proofs::lemmas::tables::Strategies::next_group))]
    #[inline(never)]
    pub(crate) fn grouped(
        alloc: Global,
        counts: &[u32],
        labels: &[Label<'_>],
    ) -> Result<StrategyLists, AllocError>
        ensures { IfOk result (λ all. all ≡ groups counts.now (map label_of labels.now)) }
    {
        let mut all = StrategyLists::new(alloc);
        let mut start = 0;
        for count in counts {
            let end = labels.len().min(start + *count as usize);
            all.push(&labels[start..end])?;
            start = end;
        }
        Ok(all)
    }

    /// Whether both are the same lists.
    #[tactic(auto, using(crate::proofs::lemmas::tables::Pieces::one_way_cut))]
    pub(crate) fn is_same(&self, o: &StrategyLists) -> bool
        ensures { IsTrue result ↔ (self.now ≡ o.now) }
    {
        self.ends == o.ends && self.labels.is_same(&o.labels)
    }

    /// The labels of all players, one player after another.
    pub(crate) fn labels(&self) -> &Labels {
        &self.labels
    }

    /// How many lists there are.
    #[tactic(auto, using(crate::proofs::lemmas::tables::Pieces::as_many_pieces))]
    pub(crate) fn len(&self) -> usize
        ensures { result ≡ length self.now }
    {
        self.ends.len()
    }

    /// How many bytes the labels have, all together.
    #[tactic(auto, using(crate::proofs::lemmas::texts::Lists::size_of_pieces))]
    pub(crate) fn size(&self) -> usize
        ensures { result ≡ size_of self.now }
    {
        self.labels.size()
    }

    /// How many strategies the player at this place, from 0, has.
    #[tactic(auto, using(crate::proofs::lemmas::tables::Strategies::kept_lists))]
    pub(crate) fn count(&self, at: usize) -> usize
        requires { at < length self.now }
        ensures { result ≡ length (get_or self.now at []) }
    {
        let own = piece_at(0, &self.ends, at);
        own.end - own.start
    }

    /// The label of a strategy of the player at this place, both from 0.
    pub(crate) fn label(&self, at: usize, strategy: usize) -> Label<'_>
        requires { strategy < length (get_or self.now at []) }
        ensures { slice_get (get_or self.now at []) strategy ≡ Some (label_of result) }
    {
        let own = piece_at(0, &self.ends, at);
        self.labels.label(own.start + strategy)
    }
}
