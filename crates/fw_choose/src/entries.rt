//! Entries: their digests, and the requests in them.

ghost use Rattle.std.specs.Prelude.{◌≡◌, bytes_eq, map};
ghost use Rattle.std.specs.List.{find};
ghost use Rattle.std.specs.Option.{option_copied, option_map};
ghost use Rattle.fw_text.specs.Texts.{hash};
ghost use Rattle.fw_rules.specs.Agree as agree;
ghost use Rattle.fw_rules.specs.Signing as signing;
ghost use Rattle.fw_owned.specs.Pieces.{entry_of};

use fw_frame::entry_digest;
use fw_owned::OwnedEntry;

/// The digest of an entry, which votes name.
pub(crate) fn digest_of(entry: &OwnedEntry) -> [u8; 32]
    ensures { result ≡ signing.entry_digest hash (entry_of entry.now) }
{
    entry_digest(&entry.lent())
}

/// Whether this is the digest of an entry.
fn is_digest_of(entry: &OwnedEntry, digest: &[u8]) -> bool
    ensures { result ≡ bytes_eq (signing.entry_digest hash (entry_of entry.now)) digest.now }
{
    digest_of(entry).as_slice() == digest
}

/// The first of these entries that has a digest.
fn first_of<'a>(seen: &'a [OwnedEntry], digest: &[u8]) -> Option<&'a OwnedEntry>
    ensures { option_copied result ≡ find (λ e. bytes_eq (signing.entry_digest hash (entry_of e)) digest.now) seen.now }
{
    seen.iter().find(|entry| is_digest_of(entry, digest))
}

/// The first entry that was seen and has a digest.
pub(crate) fn seen_of<'a>(seen: &'a [OwnedEntry], digest: &[u8]) -> Option<&'a OwnedEntry>
    ensures { option_map entry_of (option_copied result) ≡ agree.seen_of hash (map entry_of seen.now) digest.now }
{
    first_of(seen, digest)
}

/// Whether an entry has a request of a client under a stamp.
pub(crate) fn has_request(entry: &OwnedEntry, client: u32, stamp: u32) -> bool
    ensures { result ≡ agree.has_request client stamp (entry_of entry.now) }
{
    match entry {
        OwnedEntry::Null => false,
        OwnedEntry::Request(request) => request.client == client && request.stamp == stamp,
    }
}
