//! Small lemmas that the laws of the roles share: what a test lets through, what is found first in a list, what stands in lists that
//! are made of lists, and what the rules read and combine. A law says two of them.
#![tactic(auto)]

ghost use Rattle.std.specs.Prelude.{◌≡◌, ℕ, List, Option, Some, true};
ghost use Rattle.fw_trace.specs.Lists.{In};
ghost use Rattle.fw_frame.specs.View.{Given};
ghost use Rattle.fw_rules.specs.Choices.{first_some};
ghost use Rattle.fw_rules.specs.Roles.{same_answers};

/// What is found first in a list is found at an element of it, and answers that are found the same are the same.
pub fn law_words()
    ensures found { (f : ℕ → Option ℕ) (xs : List ℕ) (y : ℕ) → first_some f xs ≡ Some y → (x : ℕ) × In x xs × (f x ≡ Some y) }
    ensures same { (gs hs : List Given) → same_answers gs hs ≡ true → gs ≡ hs }
{}
