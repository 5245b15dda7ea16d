//! Rows of numbers, one for each player, that are added up. An empty row stands for zeros.

ghost use Rattle.std.specs.Prelude.{◌≡◌, ◌<◌, ◌≤◌, ℕ, None, Some, IfOk, OnOk, IfSome, IsErrOf, length};
ghost use Rattle.gf_fraction.specs.Ratio.{IsFraction};
ghost use Rattle.gf_form.specs.inner.values.Rows.{IsRow, at_place};
ghost use Rattle.gf_form.specs.inner.values.Values.{plus_of, times_of};

use crate::fault::EvalFault;
use gf_fraction::Fraction;
use std::alloc::AllocError;

/// A row of these numbers, in the room of one that is no longer needed: a walk allocates no more rows
/// once it has as many as it needs at a time.
pub(crate) fn row_of(
    spare: &mut Vec<Vec<Fraction>>,
    numbers: &[Fraction],
) -> Result<Vec<Fraction>, AllocError>
    ensures { IfOk result (λ row. row.items ≡ numbers.now) }
{
    let mut row = match spare.pop() {
        Some(row) => row,
        None => Vec::new(*spare.allocator()),
    };
    row.clear();
    row.extend_from_slice(numbers)?;
    Ok(row)
}

/// Writes the zeros of an empty row out.
pub(crate) fn write_out(row: &mut Vec<Fraction>, players: usize) -> Result<(), AllocError>
    requires { IsRow players row.old.items }
    ensures length { OnOk result (length row.new.items ≡ players) }
    ensures row { OnOk result (IsRow players row.new.items) }
    ensures same { (k : ℕ) → at_place row.new.items k ≡ at_place row.old.items k }
{
    if row.is_empty() {
        row.reserve(players)?;
        while row.len() < players {
            row.push(Fraction::zero())?;
        }
    }
    Ok(())
}

/// Their sum, if it fits.
#[tactic(auto, using(crate::proofs::lemmas::values::ValuesComputed::sum_steps))]
fn sum(x: Fraction, y: Fraction) -> Option<Fraction>
    requires x { IsFraction x }
    requires y { IsFraction y }
    ensures is { result ≡ plus_of (Some x) (Some y) }
    ensures fraction { IfSome result IsFraction }
{
    match x.add(y) {
        Ok(total) => Some(total),
        Err(_) => None,
    }
}

/// A number and another one times a probability, if the product fits, and the sum of both. Most
/// numbers are zero, and are left out.
fn weighed(number: Fraction, chance: Fraction, other: Fraction) -> Option<Fraction>
    requires number { IsFraction number }
    requires chance { IsFraction chance }
    requires other { IsFraction other }
    ensures is { result ≡ plus_of (Some number) (times_of chance (Some other)) }
    ensures fraction { IfSome result IsFraction }
{
    if other.num() == 0 {
        return Some(number);
    }
    let Ok(product) = chance.mul(other) else {
        return None;
    };
    if number.num() == 0 {
        return Some(product);
    }
    sum(number, product)
}

/// Adds a row times a probability to a sum.
#[tactic(auto, using(crate::proofs::lemmas::values::ValuesComputed::weigh_steps))]
pub(crate) fn weigh(
    sum: &mut Vec<Fraction>,
    chance: Fraction,
    row: &[Fraction],
) -> Result<(), EvalFault>
    requires { (players : ℕ) × IsRow players sum.old.items × IsRow players row.now }
    ensures row { OnOk result ((players : ℕ) → IsRow players sum.old.items → IsRow players row.now
        → IsRow players sum.new.items) }
    ensures added { OnOk result ((k : ℕ) → plus_of (Some (at_place sum.old.items k))
        (times_of chance (Some (at_place row.now k))) ≡ Some (at_place sum.new.items k)) }
    ensures overflow { IsErrOf result EvalFault.Overflow → (k : ℕ) × (k < length row.now)
        × (plus_of (Some (at_place sum.old.items k)) (times_of chance (Some (at_place row.now k)))
        ≡ None) }
{
    if chance.num() == 0 || row.is_empty() {
        return Ok(());
    }
    write_out(sum, row.len())?;
    for i in 0..row.len() {
        let Some(total) = weighed(sum[i], chance, row[i]) else {
            return Err(EvalFault::Overflow);
        };
        sum[i] = total;
    }
    Ok(())
}

/// Adds payoffs to a row.
#[tactic(auto, using(crate::proofs::lemmas::values::ValuesComputed::pay_steps))]
pub(crate) fn pay(payoffs: &[Fraction], row: &mut Vec<Fraction>) -> Result<(), EvalFault>
    requires { (players : ℕ) × IsRow players payoffs.now × IsRow players row.old.items }
    ensures row { OnOk result ((players : ℕ) → IsRow players payoffs.now
        → IsRow players row.old.items → IsRow players row.new.items) }
    ensures added { OnOk result ((k : ℕ) → plus_of (Some (at_place payoffs.now k))
        (Some (at_place row.old.items k)) ≡ Some (at_place row.new.items k)) }
    ensures overflow { IsErrOf result EvalFault.Overflow → (k : ℕ) × (k < length payoffs.now)
        × (plus_of (Some (at_place payoffs.now k)) (Some (at_place row.old.items k)) ≡ None) }
{
    if payoffs.is_empty() {
        return Ok(());
    }
    write_out(row, payoffs.len())?;
    for i in 0..payoffs.len() {
        let Some(total) = sum(payoffs[i], row[i]) else {
            return Err(EvalFault::Overflow);
        };
        row[i] = total;
    }
    Ok(())
}
