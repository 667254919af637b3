// How one text is put in the place of another, and bytes are copied into an output.
ghost use Rattle.std.specs.Prelude.{◌≡◌, ◌+◌, ◌-◌, ◌≤◌, length};
ghost use Rattle.common.specs.Refusals.{answered};
ghost use Rattle.text_room.specs.Texts.{splice, replace_fits_lem, replace_outcome, copy_outcome};

use common::Refusal;
use common::sizes::MAX_BYTES;

// The bytes of a text room that are to be replaced: `old` of them at `start`, where `used` bytes are in use.
#[derive(Clone, Copy)]
pub struct Part {
    pub start: usize,
    pub old: usize,
    pub used: usize,
}

// Puts new in the place of the part: later bytes move, and bytes given up at the end of the used ones become 0.
fn put(text: &mut [u8], part: Part, new: &[u8])
    requires { (part.start + part.old ≤ part.used) × (part.used ≤ length text.old) × (part.used - part.old + length new.now ≤ length text.old) }
    ensures { text.new ≡ splice text.old part.start part.old part.used new.now }
{
    let Part { start, old, used } = part;
    let to = start + new.len();
    text.copy_within(start + old..used, to);
    text[start..to].copy_from_slice(new);
    let end = used - old + new.len();
    if end < used {
        text[end..used].fill(0);
    }
}

// Whether a text of that size may take the place of the part.
fn replace_fits(room: usize, part: Part, size: usize) -> Result<(), Refusal>
    ensures { answered result ≡ replace_fits_lem room part.start part.old part.used size }
{
    let Part { start, old, used } = part;
    if room > MAX_BYTES || size > MAX_BYTES {
        return Err(Refusal::OverSize);
    }
    if used > room || start > used || old > used - start {
        return Err(Refusal::Unsound);
    }
    if used - old + size > room {
        return Err(Refusal::TextRoom);
    }
    Ok(())
}

// Puts new in the place of the part of a text room: later bytes move, and bytes given up at the end of the used ones become 0.
pub fn replace(text: &mut [u8], part: Part, new: &[u8]) -> Result<(), Refusal>
    ensures { (answered result, text.new) ≡ replace_outcome text.old part.start part.old part.used new.now }
{
    replace_fits(text.len(), part, new.len())?;
    put(text, part, new);
    Ok(())
}

// Writes the bytes to the front of the output.
pub fn copy_in(bytes: &[u8], out: &mut [u8]) -> Result<usize, Refusal>
    ensures { (answered result, out.new) ≡ copy_outcome bytes.now out.old }
{
    let size = bytes.len();
    if size > MAX_BYTES {
        return Err(Refusal::OverSize);
    }
    if size > out.len() {
        return Err(Refusal::OutputRoom);
    }
    out[..size].copy_from_slice(bytes);
    Ok(size)
}
