// Stream names of an MSI database: packed into fewer UTF-16 units, and back.
// The rules are document 01, "Stream names, in UTF-16 units"; specs/Names.antt says them, specs/Calls.antt what each call answers.
#![tactic(auto)]

mod decoding;
mod encoding;
mod letters;

ghost use Rattle.std.specs.Prelude.{◌≡◌};
ghost use Rattle.common.specs.Refusals.{answered};
ghost use Rattle.streamname.specs.Calls.{decoded_as, encode_outcome, decode_outcome, valid_answer};

use crate::decoding::{decoded_bound, is_table_name, strip, write_decoded};
use crate::encoding::{encoded_bound, tally_stored, write_encoded};
use common::Refusal;
use common::sizes::{MAX_NAME, MAX_STORED};

// The unit in front of a table's name.
const TABLE_PREFIX: u16 = 0x4840;

// The longest name of a stream in a compound file, in units.
const MAX_STREAM: usize = 31;

// What `decode` gives: how many units it wrote, and whether the name is a table's.
#[derive(Clone, Copy)]
pub struct Decoded {
    pub units: usize,
    pub is_table: bool,
}

// Encodes a stream name into the front of `out`, and answers how many units that is.
pub fn encode(name: &[u16], is_table: bool, out: &mut [u16]) -> Result<usize, Refusal>
    ensures { (answered result, out.new) ≡ encode_outcome name.now is_table out.old }
{
    if MAX_NAME < name.len() {
        return Err(Refusal::OverSize);
    }
    if out.len() < encoded_bound(name, is_table, out.len()) {
        return Err(Refusal::OutputRoom);
    }
    if is_table {
        out[0] = TABLE_PREFIX;
        let units = write_encoded(name, &mut out[1..]);
        return Ok(units + 1);
    }
    Ok(write_encoded(name, out))
}

// Decodes a stream name into the front of `out`, and answers how many units that is and whether it is a table's.
pub fn decode(stored: &[u16], out: &mut [u16]) -> Result<Decoded, Refusal>
    ensures { (decoded_as result, out.new) ≡ decode_outcome stored.now out.old }
{
    if MAX_STORED < stored.len() {
        return Err(Refusal::OverSize);
    }
    let packed = strip(stored);
    let most = decoded_bound(packed, out.len());
    if MAX_NAME < most {
        return Err(Refusal::OverSize);
    }
    if out.len() < most {
        return Err(Refusal::OutputRoom);
    }
    let units = write_decoded(packed, out);
    Ok(Decoded {
        units,
        is_table: is_table_name(stored),
    })
}

// Whether a name works as a stream's once it is encoded.
pub fn is_valid(name: &[u16], is_table: bool) -> Result<bool, Refusal>
    ensures { answered result ≡ valid_answer name.now is_table }
{
    if MAX_NAME < name.len() {
        return Err(Refusal::OverSize);
    }
    // A plain name that begins with the prefix would be taken for a table's.
    if name.is_empty() || (is_table_name(name) && !is_table) {
        return Ok(false);
    }
    let stored = tally_stored(name, is_table);
    Ok(stored.units <= MAX_STREAM && stored.allowed)
}
