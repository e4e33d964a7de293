//! Texts cut into words.

ghost use Rattle.std.specs.Prelude.{◌≡◌, ◌↔◌, [], ◌∷◌, codes, MatchOption, IsTrue};
ghost use Rattle.fw_op.specs.Words.{words_of};

/// The first word and what follows it, or none where the text is one word.
pub(crate) fn cut(text: &str) -> Option<(&str, &str)>
    ensures { MatchOption result (words_of text.now ≡ text.now ∷ []) (λ pair. words_of text.now ≡ pair.0.now ∷ words_of pair.1.now) }
{
    text.split_once(' ')
}

/// Whether the one word is `bad`.
pub(crate) fn is_bad(text: &str) -> bool
    ensures { IsTrue result ↔ (words_of text.now ≡ codes "bad" ∷ []) }
{
    text == "bad"
}

/// Whether the one word is `null`.
pub(crate) fn is_null(text: &str) -> bool
    ensures { IsTrue result ↔ (words_of text.now ≡ codes "null" ∷ []) }
{
    text == "null"
}
