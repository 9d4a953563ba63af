ghost use Rattle.std.specs.Prelude.{◌≡◌, ◌++◌, length, OnOk, OnErr};
ghost use Rattle.lil_base.specs.Fields.{bytes16, bytes32, field16};

use crate::{Bytes, Memory};

/// The number of two bytes that begins at a place from 0, or None where the list ends before it does.
pub fn get16(b: &Bytes, at: u32) -> Option<u16>
    ensures { result ≡ field16 b.now at }
{
    match b.as_slice().get(at as usize..) {
        Some([high, low, ..]) => Some(u16::from(*high) * 256 + u16::from(*low)),
        _ => None,
    }
}

/// Appends a number of two bytes. After a refusal the list is as before.
#[tactic(auto, using(crate::proofs::FieldLaws::last_field16))]
pub fn put16(b: &mut Bytes, v: u16) -> Result<(), Memory>
    ensures ok { OnOk result (b.new ≡ b.old ++ bytes16 v) }
    ensures back { OnOk result (field16 b.new (length b.old) ≡ Some v) }
    ensures err { OnErr result (b.new ≡ b.old) }
{
    b.extend(&[(v / 256) as u8, (v % 256) as u8])
}

/// Appends a number of four bytes. After a refusal the list is as before.
pub fn put32(b: &mut Bytes, v: u32) -> Result<(), Memory>
    ensures ok { OnOk result (b.new ≡ b.old ++ bytes32 v) }
    ensures err { OnErr result (b.new ≡ b.old) }
{
    let (high, low) = (v / 65_536, v % 65_536);
    b.extend(&[
        (high / 256) as u8,
        (high % 256) as u8,
        (low / 256) as u8,
        (low % 256) as u8,
    ])
}
