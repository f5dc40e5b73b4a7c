//! Laws of the conversion, each the contract of a function that does nothing.
ghost use Rattle.std.specs.Prelude.{ℕ, List};
ghost use Rattle.decimal_import.specs.Grammar.{IsCutInto};
ghost use Rattle.decimal_import.specs.Literal.{Literal};
ghost use Rattle.decimal_import.specs.Rounding.{IsCeiling, over, under, least_whole};
ghost use Rattle.decimal_import.specs.Token.{cut};

/// A text is cut from the left into its longest tokens, up to the first byte where no token begins
/// or the token isn't whole.
pub fn tokens_are_the_longest()
    ensures { (bytes : List ℕ) → IsCutInto bytes (cut bytes).0 (cut bytes).1 }
{}

/// The whole number that stands for a literal is the least one that isn't below the literal's
/// value, without its sign, times 10 to the power of the digits.
pub fn wholes_are_the_least()
    ensures { (digits : ℕ) (literal : Literal) →
        IsCeiling (over digits literal) (under literal) (least_whole digits literal) }
{}
