// Packing a name: its length, and its units.
ghost use Rattle.std.specs.Prelude.{◌≡◌, ◌≤◌, ◌<◌, length, get_or};
ghost use Rattle.streamname.specs.Letters.{to_b64_lem};
ghost use Rattle.streamname.specs.Names.{encoded, encoded_name, allowed};
ghost use Rattle.streamname.specs.inner.Packing.{Front, Tallied, Put, Bound};
ghost use Rattle.common.specs.Lists.{every};

use crate::letters::to_b64;

// A packed unit, and how many units of the name it takes.
#[derive(Clone, Copy)]
pub(crate) struct Packed {
    pub unit: u16,
    pub used: usize,
}

// The number of the letter at `at`: none where another unit stands there, and past the end.
#[tactic(auto, using(crate::proofs::LetterLaws::past_end))]
fn letter_at(name: &[u16], at: usize) -> Option<u16>
    ensures { result ≡ to_b64_lem (get_or name.now at 0) }
{
    to_b64(*name.get(at)?)
}

// Packs what stands at `at`: two letters, a lone one, or any other unit as it is.
#[tactic(auto, using(crate::proofs::LetterLaws::letter_below))]
pub(crate) fn pack(name: &[u16], at: usize) -> Packed
    requires { at < length name.now }
    ensures { Front name.now at result }
{
    let Some(a) = letter_at(name, at) else {
        return Packed {
            unit: name[at],
            used: 1,
        };
    };
    let Some(b) = letter_at(name, at + 1) else {
        return Packed {
            unit: 0x4800 + a,
            used: 1,
        };
    };
    Packed {
        unit: 0x3800 + 64 * b + a,
        used: 2,
    }
}

// Whether the container takes a unit of a name, and its stored form gives it back.
fn is_allowed(unit: u16) -> bool
    ensures { result ≡ allowed unit }
{
    !matches!(unit, 0x21 | 0x2F | 0x3A | 0x5C | 0x3800..=0x483F)
}

// How many packed units stand for a name, or for a part of it, and whether all its own are allowed.
#[derive(Clone, Copy)]
pub(crate) struct Tally {
    pub units: usize,
    pub allowed: bool,
}

// How many units the packed name has, and whether all units of the name are allowed. Letters are, so only what stands alone is judged.
#[tactic(auto, using(crate::proofs::EncodeLaws::tallying))]
fn tally_units(name: &[u16]) -> Tally
    ensures { (result.units ≡ length (encoded name.now)) × (result.allowed ≡ every allowed name.now) }
{
    let mut all = Tally {
        units: 0,
        allowed: true,
    };
    let mut at = 0;
    // A step of one unit or two, which no range has.
    while at < name.len() {
        let packed = pack(name, at);
        if packed.used < 2 {
            all.allowed &= is_allowed(name[at]);
        }
        all.units += 1;
        at += packed.used;
    }
    all
}

// How many units `encode` writes, the prefix too, and whether all units of the name are allowed.
#[tactic(auto, using(crate::proofs::EncodeLaws::no_longer))]
pub(crate) fn tally_stored(name: &[u16], is_table: bool) -> Tally
    ensures { (result.units ≡ length (encoded_name name.now is_table)) × (result.allowed ≡ every allowed name.now) }
{
    let all = tally_units(name);
    Tally {
        units: all.units + usize::from(is_table),
        ..all
    }
}

// How many units `encode` writes, or more, but no unit is looked at where a place for each and for the prefix is there in any case.
#[tactic(auto, using(crate::proofs::EncodeLaws::no_longer))]
pub(crate) fn encoded_bound(name: &[u16], is_table: bool, places: usize) -> usize
    ensures { Bound (length (encoded_name name.now is_table)) places result }
{
    if name.len() < places {
        return name.len() + 1;
    }
    tally_stored(name, is_table).units
}

// Writes the packed name to the front of `out`, which has room for it, and answers how many units that is.
// Called twice, and not inlined: with a loop at each call 1,000 names took 32 to 52 µs, by where the loops lay, and so 32 to 42.
#[inline(never)]
pub(crate) fn write_encoded(name: &[u16], out: &mut [u16]) -> usize
    requires { length (encoded name.now) ≤ length out.old }
    ensures { Put (encoded name.now) 0 out.old result out.new }
{
    let mut at = 0;
    let mut i = 0;
    // A step of one unit or two, which no range has.
    while i < name.len() {
        let packed = pack(name, i);
        out[at] = packed.unit;
        at += 1;
        i += packed.used;
    }
    at
}
