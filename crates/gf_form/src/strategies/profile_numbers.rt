//! The numbers of profiles among all, from 0.

ghost use Rattle.std.specs.Prelude.{◌≡◌, ◌<◌, ◌+◌, ◌*◌, ◌^◌, ◌++◌, ℕ, IfOk, OnOk, length, map};
ghost use Rattle.std.specs.List.{AllByRecursion, flat_map};
ghost use Rattle.gf_nfg.specs.Profiles.{numbers_from, product};
ghost use Rattle.gf_form.specs.inner.strategies.ProfileNumbers.{AreBelow, ArePicked};

use std::alloc::{AllocError, Global};

/// This many numbers, from 0.
pub(crate) fn numbers_below(alloc: Global, count: u32) -> Result<Vec<u32>, AllocError>
    ensures { IfOk result (λ numbers. numbers.items ≡ numbers_from 0 count) }
{
    let mut numbers = Vec::with_capacity(alloc, count as usize)?;
    for number in 0..count {
        numbers.push(number)?;
    }
    Ok(numbers)
}

/// Appends the sum of each of these numbers and another one.
fn push_sums(numbers: &[u32], other: u32, sums: &mut Vec<u32>) -> Result<(), AllocError>
    requires { AllByRecursion (λ number. number + other < 2 ^ 32) numbers.now }
    ensures { OnOk result
        (sums.new.items ≡ sums.old.items ++ map (λ number. number + other) numbers.now) }
{
    for number in numbers {
        sums.push(*number + other)?;
    }
    Ok(())
}

/// The numbers of profiles of some players and one more before them, who has this many strategies,
/// from those of the others and those of their strategies.
fn with_player(
    alloc: Global,
    count: u32,
    own: &[u32],
    others: &[u32],
) -> Result<Vec<u32>, AllocError>
    requires own { AllByRecursion (λ number. number < count) own.now }
    requires others { (size : ℕ) × AllByRecursion (λ rest. rest < size) others.now
        × (count * size < 2 ^ 32) }
    ensures { IfOk result (λ numbers. numbers.items
        ≡ flat_map (λ rest. map (λ number. number + count * rest) own.now) others.now) }
{
    let mut numbers = Vec::with_capacity(alloc, own.len().saturating_mul(others.len()))?;
    for rest in others {
        push_sums(own, count * *rest, &mut numbers)?;
    }
    Ok(numbers)
}

/// The number of each profile of some strategies of each player, from the numbers of these. There
/// are this many strategies of each player.
pub(crate) fn profile_numbers(
    alloc: Global,
    counts: &[u32],
    picked: &[Vec<u32>],
) -> Result<Vec<u32>, AllocError>
    requires as_many { length picked.now ≡ length counts.now }
    requires below { AreBelow counts.now (map (λ own. own.items) picked.now) }
    requires some { 0 < product counts.now }
    requires few { product counts.now < 2 ^ 32 }
    ensures { IfOk result
        (λ numbers. ArePicked counts.now (map (λ own. own.items) picked.now) numbers.items) }
{
    let mut numbers = Vec::new(alloc);
    numbers.push(0)?;
    for place in (0..counts.len()).rev() {
        numbers = with_player(alloc, counts[place], &picked[place], &numbers)?;
    }
    Ok(numbers)
}
