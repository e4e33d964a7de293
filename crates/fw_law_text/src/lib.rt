//! The spelling of texts is one to one, what is hashed of a text is a digest, and a digest is fixed by its bits.
#![tactic(auto)]

ghost use Rattle.fw_law_text.specs.OneText.{OneText};
ghost use Rattle.fw_law_text.specs.ByBits.{IsDigest, FixedByBits};
ghost use Rattle.fw_text.specs.Texts.{Text, hash};

/// Two texts that fit and are spelled alike are one text, whatever their kinds.
pub fn law_one_text()
    ensures { OneText }
{}

/// Two digests with equal bits at all 256 places are equal.
pub fn law_digest_by_bits()
    ensures { FixedByBits }
{}

/// What is hashed of a text is a digest: 32 bytes.
pub fn law_hash()
    ensures { (text : Text) → IsDigest (hash text) }
{}
