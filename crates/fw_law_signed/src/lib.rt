//! Signing and checking belong together: what is signed with the values of a deal is valid in the deal's directory.
#![tactic(auto)]

ghost use Rattle.fw_law_signed.specs.Signed.{SignedIsValid};

/// For every deal, slot, point and digest of 32 bytes: what is signed with the dealt values is valid in the deal's directory.
/// What `fw_lamport::sign` makes with a slot's values is signed with them, and `fw_lamport::verify` accepts exactly what is valid
/// in the directory's rows of the slot: so it accepts what `sign` makes with the values of a deal.
pub fn law_signed()
    ensures { SignedIsValid }
{}
