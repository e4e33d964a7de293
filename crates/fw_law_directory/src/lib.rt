//! A deal's directory is one: whatever has the digest of each value that is dealt is the same list of digests.
#![tactic(auto)]

ghost use Rattle.std.specs.Prelude.{◌≡◌};
ghost use Rattle.fw_secret.specs.Dealt.{Origin};
ghost use Rattle.fw_directory.specs.Directories.{PlainDirectory};
ghost use Rattle.fw_deal.specs.Deals.{IsDirectoryOf};

/// Two directories of one deal are equal.
pub fn law_one_directory()
    ensures { (o : Origin) (d e : PlainDirectory) → IsDirectoryOf o d → IsDirectoryOf o e → d ≡ e }
{}
