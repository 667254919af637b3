// Lists put into bytes, the low byte of each first, as `held` shows them: how many bytes they take. What has no room is left out.
ghost use Rattle.std.specs.Prelude.{◌≡◌, ◌≤◌, length};

use crate::words::product;

// What a list holds that is put into bytes: its `N` bytes.
pub trait Kept<const N: usize>: Copy {
    fn bytes(self) -> [u8; N];
}

impl Kept<1> for u8 {
    fn bytes(self) -> [u8; 1] {
        self.to_le_bytes()
    }
}

impl Kept<2> for u16 {
    fn bytes(self) -> [u8; 2] {
        self.to_le_bytes()
    }
}

impl Kept<4> for i32 {
    fn bytes(self) -> [u8; 4] {
        self.to_le_bytes()
    }
}

pub fn list<T: Kept<N>, const N: usize>(list: &[T], out: &mut [u8]) -> usize
    ensures { (result ≤ length out.new) × (length out.new ≡ length out.old) }
{
    let mut at = 0;
    for item in list {
        if out.len() - at < N {
            return at;
        }
        out[at..at + N].copy_from_slice(&item.bytes());
        at += N;
    }
    at
}

// Cells as the calls on tables leave them for C: their kinds, then their numbers.
pub fn cells(kinds: &[u8], numbers: &[i32], out: &mut [u8]) -> usize
    ensures { length out.new ≡ length out.old }
{
    let n = list(kinds, out);
    list(numbers, &mut out[n..]);
    product(n, 5)
}

// What an output holds before a call writes it.
pub const FILL: u8 = 0xEE;

pub fn fill(out: &mut [u8])
    ensures { length out.new ≡ length out.old }
{
    out.fill(FILL);
}
