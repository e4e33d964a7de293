//! The directory: the digest of each dealt value, by its place.

ghost use Rattle.std.specs.Prelude.{◌≡◌, ◌≤◌, length, IsTrue};
ghost use Rattle.fw_base.specs.Sizes.{accepted};
ghost use Rattle.fw_base.specs.Places.{slot_fits, place_fits, last_point};
ghost use Rattle.fw_list.specs.declared.limits.TheConstants.{ROW_LEN};
ghost use Rattle.fw_directory.specs.Directories.{rows, digest_at, row_at, IsDirectory};

use fw_base::{Params, Place, Slot, place_index};
use fw_list::{Bytes, ROW_LEN};
use std::marker::Model;

/// How many rows of 512 places a deployment has.
pub fn row_count(params: &Params) -> u32
    requires { IsTrue (accepted params.now) }
    ensures { result ≡ rows params.now }
{
    params.keys() + params.numbers * (params.executors() + 1)
}

/// The digests of all values that are dealt in a deployment.
#[derive(Debug, Drop)]
pub struct Directory {
    params: Params,
    digests: Bytes,
}

impl Model for Directory {
    ghost use Rattle.fw_directory.specs.Directories.{PlainDirectory, IsDirectory};

    ghost Value = { PlainDirectory };

    ghost view = { λ d. record { params = d.params; digests = d.digests } };

    ghost invariant = { λ d. IsDirectory (record { params = d.params; digests = d.digests }) };
}

impl Directory {
    /// The directory of these digests, 32 bytes for each place in the order of their indices.
    pub fn new(params: Params, digests: Bytes) -> Directory
        requires { IsDirectory (record { params = params; digests = digests }) }
        ensures { result ≡ record { params = params; digests = digests } }
    {
        Directory { params, digests }
    }

    /// The sizes of the deployment.
    pub fn params(&self) -> &Params
        ensures same { result.now ≡ self.now.params }
        ensures whole { IsDirectory self.now }
    {
        &self.params
    }

    /// The digest of a place.
    pub fn row(&self, place: &Place) -> [u8; 32]
        requires { IsTrue (place_fits self.now.params place.now) }
        ensures { result ≡ digest_at self.now place.now }
    {
        let at = 32 * place_index(&self.params, place) as usize;
        let mut digest = [0; 32];
        digest.copy_from_slice(&self.digests.items()[at..at + 32]);
        digest
    }

    /// The 512 digests of a slot at a point.
    pub fn rows(&self, slot: Slot, point: u32) -> &[u8]
        requires fits { IsTrue (slot_fits self.now.params slot) }
        requires point { point ≤ last_point self.now.params slot }
        ensures rows { result.now ≡ row_at self.now slot point }
        ensures len { length result.now ≡ ROW_LEN }
    {
        let first = Place {
            slot,
            bit: 0,
            side: 0,
            point,
        };
        let at = 32 * place_index(&self.params, &first) as usize;
        &self.digests.items()[at..at + ROW_LEN]
    }

    /// All digests, in the order of their places.
    pub fn digests(&self) -> &[u8]
        ensures { result.now ≡ self.now.digests }
    {
        self.digests.items()
    }
}
