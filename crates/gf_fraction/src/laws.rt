//! Laws of fractions and of their texts: facts about the definitions alone, each as the contract of
//! a function that does nothing.

ghost use Rattle.std.specs.Prelude.{◌≡◌, ◌<◌, ◌⊎◌, ℕ, ℤ, List, Result};
ghost use Rattle.gf_fraction.specs.Ratio.{HasValue, IsFraction, Ratio};
ghost use Rattle.gf_fraction.specs.Sum.{IsSum, SumFits};
ghost use Rattle.gf_fraction.specs.Product.{IsProduct, ProductFits};
ghost use Rattle.gf_fraction.specs.NumberSpelling.{IsNumber};
ghost use Rattle.gf_fraction.specs.NoNumber.{Reads};
ghost use Rattle.gf_fraction.specs.NumberText.{number_text};
ghost use Rattle.gf_fraction.specs.declared.fraction.NumberFault.{NumberFault};

/// A value has only one fraction, so fractions are equal if their values are.
pub fn one_fraction()
    ensures { (r s : Ratio) (n : ℤ) (d : ℕ) → IsFraction r → IsFraction s → 0 < d
        → HasValue r n d → HasValue s n d → r ≡ s }
{}

/// A text has at most one answer: at most one value, at most one fault, and never both.
pub fn one_answer()
    ensures { (text : List ℕ) (a b : Result Ratio NumberFault) → Reads text a → Reads text b
        → a ≡ b }
{}

/// What is written for a fraction reads back to it.
pub fn written_is_read()
    ensures { (r : Ratio) → IsFraction r → IsNumber (number_text r) r }
{}

/// So different fractions have different texts.
pub fn one_text()
    ensures { (r s : Ratio) → IsFraction r → IsFraction s → number_text r ≡ number_text s
        → r ≡ s }
{}

/// A text has an answer: it is a number, or it has a fault.
pub fn some_answer()
    ensures { (text : List ℕ) → (a : Result Ratio NumberFault) × Reads text a }
{}

/// A sum fits and is a fraction, or it does not fit.
pub fn sum_or_overflow()
    ensures { (x y : Ratio) → IsFraction x → IsFraction y
        → ((r : Ratio) × SumFits x y × IsFraction r × IsSum r x y) ⊎ (¬ (SumFits x y)) }
{}

/// A product is a fraction, or it does not fit.
pub fn product_or_overflow()
    ensures { (x y : Ratio) → IsFraction x → IsFraction y
        → ((r : Ratio) × IsFraction r × IsProduct r x y) ⊎ (¬ (ProductFits x y)) }
{}
