// Undoing a stored name: its length, and its units.
ghost use Rattle.std.specs.Prelude.{◌≡◌, ◌+◌, ◌≤◌, length};
ghost use Rattle.streamname.specs.Names.{undone, decoded, is_table, stripped};
ghost use Rattle.streamname.specs.inner.Packing.{units_of, Put, Bound};
ghost use Rattle.common.specs.Sizes.{max_name};

use crate::TABLE_PREFIX;
use crate::letters::from_b64;
use common::sizes::MAX_NAME;

// What a stored unit stands for.
#[derive(Clone, Copy)]
pub(crate) enum Unpacked {
    One(u16),
    Two(u16, u16),
}

// Undoes a stored unit: two letters, one, or any other unit as it is.
#[tactic(auto, using(crate::proofs::DecodeLaws::undoing))]
pub(crate) fn unpack(unit: u16) -> Unpacked
    ensures { units_of result ≡ undone unit }
{
    match unit {
        0x3800..=0x47FF => {
            let value = unit - 0x3800;
            Unpacked::Two(from_b64(value % 64), from_b64(value / 64))
        }
        0x4800..=0x483F => Unpacked::One(from_b64(unit - 0x4800)),
        _ => Unpacked::One(unit),
    }
}

pub(crate) fn width(u: Unpacked) -> usize
    ensures { result ≡ length (units_of u) }
{
    match u {
        Unpacked::One(_) => 1,
        Unpacked::Two(_, _) => 2,
    }
}

// How many units the undone name has.
pub(crate) fn decoded_len(stored: &[u16]) -> usize
    ensures { result ≡ length (decoded stored.now) }
{
    stored.iter().map(|unit| width(unpack(*unit))).sum()
}

// How many units the undone name has, or more, but no unit is looked at where two places for each are there in any case, within the size of a name.
#[tactic(auto, using(crate::proofs::DecodeLaws::decoded_short))]
pub(crate) fn decoded_bound(stored: &[u16], places: usize) -> usize
    ensures { Bound (length (decoded stored.now)) places result × Bound (length (decoded stored.now)) max_name result }
{
    if stored.len() <= places / 2 && stored.len() <= MAX_NAME / 2 {
        return stored.len() * 2;
    }
    decoded_len(stored)
}

// Writes a stored unit's units to `out` from `at` on, which has room for them, and answers where they end.
fn put_units(units: Unpacked, out: &mut [u16], at: usize) -> usize
    requires { at + length (units_of units) ≤ length out.old }
    ensures { Put (units_of units) at out.old result out.new }
{
    match units {
        Unpacked::One(a) => {
            out[at] = a;
            at + 1
        }
        Unpacked::Two(a, b) => {
            out[at] = a;
            out[at + 1] = b;
            at + 2
        }
    }
}

// Writes the undone name to the front of `out`, which has room for it, and answers how many units that is.
pub(crate) fn write_decoded(stored: &[u16], out: &mut [u16]) -> usize
    requires { length (decoded stored.now) ≤ length out.old }
    ensures { Put (decoded stored.now) 0 out.old result out.new }
{
    let mut at = 0;
    for unit in stored {
        at = put_units(unpack(*unit), out, at);
    }
    at
}

// Whether a stored name is a table's.
pub(crate) fn is_table_name(stored: &[u16]) -> bool
    ensures { result ≡ is_table stored.now }
{
    stored.first() == Some(&TABLE_PREFIX)
}

// A stored name without its table's prefix.
pub(crate) fn strip(stored: &[u16]) -> &[u16]
    ensures { result.now ≡ stripped stored.now }
{
    if is_table_name(stored) {
        return &stored[1..];
    }
    stored
}
