//! The certificates that a list permits.

ghost use Rattle.std.specs.Prelude.{◌≡◌, ◌≤◌, length, map, IfOk, IsTrue};
ghost use Rattle.std.specs.List.{list_all};
ghost use Rattle.fw_base.specs.Sizes.{accepted};
ghost use Rattle.fw_record.specs.Records.{starts_fit};
ghost use Rattle.fw_frame.specs.Plain.{plain_entry};
ghost use Rattle.fw_frame.specs.Ranges.{entry_fits, number_fits};
ghost use Rattle.fw_text.specs.Texts.{hash, Answered};
ghost use Rattle.fw_ref.specs.Certificates.{permitted, keys_of, secrets_for, certificate};

use crate::{Answer, Keys, Replica};
use fw_base::{Place, Slot};
use fw_deal::Deal;
use fw_digest::digest;
use fw_frame::{Entry, Frame, three_numbers};
use fw_list::{Bytes, Items, Memory, SIGNATURE_LEN};
use fw_op::Start;
use fw_store::Store;
use fw_text::bit_of;
use std::alloc::Global;

/// The bytes of certificates, number after number.
pub type Certs = Items<Bytes>;

/// The certificates of a list of entries: for each number from 1 on the bytes of the reply frame that a wholly correct row of filters
/// may let down, by the deal, the records to start with and the list alone.
pub fn permitted(
    alloc: Global,
    deal: &Deal,
    starts: &[Start],
    list: &[Entry<'_>],
) -> Result<Certs, Memory>
    requires starts { IsTrue (starts_fit deal.now.origin.params.clients starts.now) }
    requires few { length list.now ≤ deal.now.origin.params.numbers }
    requires entries { IsTrue (list_all (entry_fits deal.now.origin.params) (map plain_entry list.now)) }
    ensures { IfOk result (λ certs. certs ≡ permitted deal.now.origin starts.now (map plain_entry list.now)) }
{
    let keys = keys_of(alloc, deal)?;
    let mut replica = Replica::new(alloc, Store::new(alloc, starts)?);
    let mut certs = Items::new(alloc);
    for entry in list {
        let number = replica.done() + 1;
        let answer = replica.execute(&keys, number, entry)?;
        certs.push(certificate(alloc, deal, number, &answer)?)?;
    }
    Ok(certs)
}

/// The keys of all clients' bodies.
fn keys_of(alloc: Global, deal: &Deal) -> Result<Keys, Memory>
    ensures keys { IfOk result (λ keys. keys ≡ keys_of deal.now.origin) }
    ensures sizes { IsTrue (accepted deal.now.origin.params) }
{
    let mut keys = Items::new(alloc);
    for client in 0..deal.directory().params().clients {
        keys.push(*deal.key(client))?;
    }
    Ok(keys)
}

/// The secrets of a number's reply on the sides of a digest.
fn secrets_for(deal: &Deal, number: u32, digest: &[u8; 32]) -> [u8; SIGNATURE_LEN]
    requires { IsTrue (number_fits deal.now.origin.params number) }
    ensures { result ≡ secrets_for deal.now.origin number digest.now }
{
    let mut values = [0; SIGNATURE_LEN];
    for bit in 0..256 {
        let place = Place {
            slot: Slot::Reply { number },
            bit,
            side: u32::from(bit_of(digest, bit as usize)),
            point: 0,
        };
        let at = 32 * bit as usize;
        values[at..at + 32].copy_from_slice(&deal.dealt(&place));
    }
    values
}

/// The certificate of an answer at a number.
fn certificate(alloc: Global, deal: &Deal, number: u32, answer: &Answer) -> Result<Bytes, Memory>
    requires { IsTrue (number_fits deal.now.origin.params number) }
    ensures { IfOk result (λ bytes. bytes ≡ certificate deal.now.origin number answer.now) }
{
    let digest = digest_of(number, answer);
    let secrets = secrets_for(deal, number, &digest);
    let frame = Frame::Reply {
        number,
        client: answer.client,
        stamp: answer.stamp,
        body: &answer.body.bytes,
        secrets: &secrets,
    };
    frame.write(alloc)
}

/// The digest of a reply's text.
#[tactic(auto, unfolding(fw_text::specs::Texts::hash, fw_text::specs::Texts::text_bytes))]
fn digest_of(number: u32, answer: &Answer) -> [u8; 32]
    ensures { result ≡ hash (Answered number answer.now.client answer.now.stamp answer.now.body.bytes) }
{
    let head = three_numbers(number, answer.client, answer.stamp);
    digest(22, &head, &answer.body.bytes)
}
