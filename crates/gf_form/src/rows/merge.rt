//! What terms become if an action is chosen at the slowest digit: those that demand nothing there
//! and those that demand the action, merged in order of demands.

ghost use Rattle.std.specs.Prelude.{◌≡◌, ◌+◌, ◌*◌, ◌<◌, ◌≤◌, ◌^◌, ℕ, OnOk};
ghost use Rattle.gf_form.specs.inner.rows.TermLists.{AreChosen, AreInOrder, AreMerged};
ghost use Rattle.gf_form.specs.inner.rows.TermLists.{all_terms};

use crate::rows::chosen::Chosen;
use crate::rows::terms::Terms;
use std::alloc::AllocError;

impl Terms {
    /// Replaces these by what the terms of a list become if this action is chosen at the slowest
    /// digit. `step` is that digit's step, and `chosen` says which terms count there.
    #[inline(always)]
    pub(crate) fn merge(
        &mut self,
        from: &Terms,
        chosen: Chosen,
        step: u64,
        action: u64,
    ) -> Result<(), AllocError>
        requires players { self.old.players ≡ from.now.players }
        requires order { AreInOrder from.now }
        requires some { 1 ≤ action }
        requires within { action * step + step < 2 ^ 64 }
        requires chosen { AreChosen from.now.demands.items step action chosen }
        ensures merged { OnOk result
            (AreMerged step action (all_terms from.now) (all_terms self.new)) }
        ensures order { OnOk result (AreInOrder self.new) }
        ensures players { self.new.players ≡ self.old.players }
        ensures den { self.new.den ≡ from.now.den }
    {
        self.clear(from.den);
        let lowest = action * step;
        let mut free = 0;
        let mut own = chosen.start;
        while free < chosen.free && own < chosen.end {
            let stays = from.demands[free];
            let goes = from.demands[own] - lowest;
            if stays == goes {
                self.push_sum(from, free, own)?;
                free += 1;
                own += 1;
            } else if stays < goes {
                self.push(from, free, 0)?;
                free += 1;
            } else {
                self.push(from, own, lowest)?;
                own += 1;
            }
        }
        if own < chosen.end {
            return self.push_part(from, own, chosen.end, lowest);
        }
        self.push_part(from, free, chosen.free, 0)
    }
}
