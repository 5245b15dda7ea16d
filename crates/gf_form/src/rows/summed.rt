//! Terms that demand nothing at the slowest digit, added up for each choice at the faster ones: if
//! they are many, they are not to be merged anew for each action.

ghost use Rattle.std.specs.Prelude.{◌≡◌, ◌<◌, ◌^◌, ◌++◌, ◌∷◌, IfOk, OnOk, map};
ghost use Rattle.gf_nfg.specs.Profiles.{product};
ghost use Rattle.gf_form.specs.inner.rows.ChoiceSums.{AddUpTo, AreAddedUp, MayAddUp};
ghost use Rattle.gf_form.specs.inner.rows.Demands.{spans};
ghost use Rattle.gf_form.specs.inner.rows.GameDigits.{HaveSteps, actions_at};
ghost use Rattle.gf_form.specs.inner.rows.TermLists.{AreAlike, AreInOrder, EndsBelow, IsShaped};
ghost use Rattle.gf_form.specs.inner.rows.TermLists.{all_terms, with_demands};

use crate::rows::chosen::{Chosen, count_near};
use crate::rows::digits::Digit;
use crate::rows::terms::Terms;
use std::alloc::AllocError;

/// Terms are many if there are more than this for each choice.
const MANY: usize = 4;

impl Terms {
    /// Whether the terms that demand nothing at the slowest digit are many, both for the choices at
    /// the faster ones and beside the terms that demand an action. `choices` is how many choices
    /// there are at all digits.
    #[inline(always)]
    pub(crate) fn have_many_free(&self, slowest: Digit, choices: u32) -> bool {
        let all = self.demands.len();
        let actions = (slowest.actions as usize).max(1);
        let many = MANY * choices as usize;
        if all.saturating_mul(actions) <= many {
            return false;
        }
        // With few actions little is saved, so more terms have to be free: more than two thirds of
        // them for two actions, half for three or four, any number for five or more.
        let by_share = all.saturating_sub(all / (4 / actions + 1));
        let by_choices = many / actions;
        match self.demands.get(by_share.max(by_choices)) {
            Some(demands) => *demands < slowest.step,
            None => false,
        }
    }

    /// Appends all terms of an alike list, with these demands.
    fn push_all(&mut self, from: &Terms, demands: u64) -> Result<(), AllocError>
        requires alike { AreAlike self.old from.now }
        requires order { AreInOrder self.old }
        requires shaped { IsShaped from.now }
        requires ends { EndsBelow self.old.demands.items demands }
        ensures pushed { OnOk result (all_terms self.new
            ≡ all_terms self.old ++ map (with_demands demands) (all_terms from.now)) }
        ensures alike { AreAlike self.new self.old }
        ensures order { OnOk result (AreInOrder self.new) }
        ensures ends { OnOk result (EndsBelow self.new.demands.items demands) }
    {
        for place in 0..from.demands.len() {
            self.push_as(from, place, demands)?;
        }
        Ok(())
    }

    /// These terms, of which those that demand nothing at the slowest digit are added up for each
    /// choice at the faster ones. `choices` is how many choices there are at all digits.
    #[cycle(sums)]
    pub(crate) fn summed(
        &self,
        slowest: Digit,
        faster: &[Digit],
        choices: u32,
        spare: &mut Vec<Terms>,
    ) -> Result<Terms, AllocError>
        requires order { AreInOrder self.now }
        requires steps { HaveSteps (slowest ∷ faster.now) }
        requires within { product (spans (actions_at (slowest ∷ faster.now))) < 2 ^ 64 }
        ensures sums { IfOk result (λ list. AddUpTo (slowest.actions ∷ actions_at faster.now)
            (all_terms self.now) (all_terms list)) }
        ensures alike { IfOk result (λ list. AreAlike list self.now) }
        ensures order { IfOk result AreInOrder }
    {
        let free = count_near(&self.demands, slowest.step, 0);
        let mut first = Terms::reused(spare, self.players);
        first.clear(self.den);
        first.push_part(self, 0, free, 0)?;
        let mut list = Terms::reused(spare, self.players);
        list.clear(self.den);
        list.push_sums(&first, faster, choices / slowest.actions.max(1), 0, spare)?;
        spare.push(first)?;
        list.push_part(self, free, self.demands.len(), 0)?;
        Ok(list)
    }

    /// Appends, for each choice at these digits, what the terms of a list come to there, as a term
    /// with the demands of the choice plus `raised`. `choices` is how many choices there are.
    #[cycle(sums)]
    fn push_sums(
        &mut self,
        from: &Terms,
        digits: &[Digit],
        choices: u32,
        raised: u64,
        spare: &mut Vec<Terms>,
    ) -> Result<(), AllocError>
        requires may { MayAddUp digits.now raised from.now self.old }
        ensures added { OnOk result (AreAddedUp digits.now raised from.now self.old self.new) }
        ensures alike { AreAlike self.new self.old }
    {
        let Some((slowest, faster)) = digits.split_first() else {
            return self.push_all(from, raised);
        };
        if from.demand_nothing() {
            return self.push_all(from, raised);
        }
        if from.have_many_free(*slowest, choices) {
            let list = from.summed(*slowest, faster, choices, spare)?;
            return self.push_each(&list, *slowest, faster, choices, raised, spare);
        }
        self.push_each(from, *slowest, faster, choices, raised, spare)
    }

    /// Appends these sums, one choice at the slowest digit after another.
    #[cycle(sums)]
    fn push_each(
        &mut self,
        from: &Terms,
        slowest: Digit,
        faster: &[Digit],
        choices: u32,
        raised: u64,
        spare: &mut Vec<Terms>,
    ) -> Result<(), AllocError>
        requires may { MayAddUp (slowest ∷ faster.now) raised from.now self.old }
        ensures added { OnOk result
            (AreAddedUp (slowest ∷ faster.now) raised from.now self.old self.new) }
        ensures alike { AreAlike self.new self.old }
    {
        let mut level = Terms::reused(spare, from.players);
        let mut chosen = Chosen::none();
        for before in 0..slowest.actions {
            let action = u64::from(before) + 1;
            chosen = chosen.next(&from.demands, slowest.step, action);
            level.merge(from, chosen, slowest.step, action)?;
            let first = raised + action * slowest.step;
            self.push_sums(&level, faster, choices / slowest.actions, first, spare)?;
        }
        spare.push(level)?;
        Ok(())
    }
}
