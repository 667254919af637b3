// Numbers in a few bytes, the lowest byte first. Document 01: "All numbers are little-endian."
#![tactic(auto)]

ghost use Rattle.std.specs.Prelude.{◌≡◌, ◌+◌, ◌≤◌, length, get_or};
ghost use Rattle.common.specs.Lists.{over_at};
ghost use Rattle.common.specs.Refusals.{answered};
ghost use Rattle.little_endian.specs.Numbers.{bytes_of, read_answer, put_outcome};

use common::Refusal;

// A number read or written has at most four bytes.
const MAX_WIDTH: usize = 4;

// The number in the `width` bytes of `bytes` from `at` on, in the first four of them where there are more;
// a byte past the end counts 0.
pub fn read(bytes: &[u8], at: usize, width: usize) -> u32
    ensures { result ≡ read_answer bytes.now at width }
{
    let mut value: u32 = 0;
    for i in (0..width.min(MAX_WIDTH)).rev() {
        value = value * 256 + byte_at(bytes, at, i);
    }
    value
}

// The byte at `at + i`, 0 past the end.
fn byte_at(bytes: &[u8], at: usize, i: usize) -> u32
    ensures { result ≡ get_or bytes.now (at + i) 0 }
{
    if at < bytes.len() && i < bytes.len() - at {
        bytes[at + i] as u32
    } else {
        0
    }
}

// Writes the lowest `width` bytes of `number` to `out` from `at` on, and answers how many that is.
pub fn write(number: u32, width: usize, out: &mut [u8], at: usize) -> Result<usize, Refusal>
    ensures { (answered result, out.new) ≡ put_outcome number width out.old at }
{
    if out.len() < at || out.len() - at < width {
        return Err(Refusal::OutputRoom);
    }
    put(number, width, out, at);
    Ok(width)
}

fn put(number: u32, width: usize, out: &mut [u8], at: usize)
    requires { at + width ≤ length out.old }
    ensures { out.new ≡ over_at at (bytes_of width number) out.old }
{
    let mut rest = number;
    for i in 0..width {
        out[at + i] = (rest % 256) as u8;
        rest /= 256;
    }
}
