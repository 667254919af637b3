// Sums of lengths, in loops without a branch that the compiler makes loops over vectors.
ghost use Rattle.std.specs.Prelude.{◌≡◌, ◌+◌, ◌<◌, ◌≤◌, length, sum};
ghost use Rattle.pool_entries.specs.inner.Adding.{Tallied, Summed};

// A sum of lengths in 32 bits, good only where `bits`, all their bits together, are at most 65,535.
#[derive(Clone, Copy)]
struct Narrow {
    sum: u32,
    bits: u32,
}

// A sum of lengths, and all their bits together: at most 65,535 only where none is above it.
#[derive(Clone, Copy)]
pub(crate) struct Sum {
    pub sum: u64,
    pub bits: u32,
}

// The lengths, at most 4,096.
fn tally(lengths: &[u32]) -> Narrow
    requires { length lengths.now ≤ 4096 }
    ensures { result.bits ≤ 65535 → Tallied lengths.now (length lengths.now) result.sum }
{
    let mut sum: u32 = 0;
    let mut bits: u32 = 0;
    for size in lengths {
        sum = sum.wrapping_add(*size);
        bits |= *size;
    }
    Narrow { sum, bits }
}

// The sum of the lengths, at most 4,096 of any size.
fn sum_any(lengths: &[u32]) -> u64
    requires { length lengths.now ≤ 4096 }
    ensures { result ≡ sum lengths.now }
{
    lengths.iter().map(|size| u64::from(*size)).sum()
}

// The lengths, at most 4,096, summed.
fn sum_block(lengths: &[u32]) -> Sum
    requires { length lengths.now ≤ 4096 }
    ensures { Summed lengths.now result.sum result.bits }
{
    let t = tally(lengths);
    let bits = t.bits;
    if bits <= 65535 {
        return Sum {
            sum: u64::from(t.sum),
            bits,
        };
    }
    Sum {
        sum: sum_any(lengths),
        bits,
    }
}

// The lengths, summed.
pub(crate) fn add_up(lengths: &[u32]) -> Sum
    requires { length lengths.now ≤ 16777215 }
    ensures { Summed lengths.now result.sum result.bits }
{
    let mut sum: u64 = 0;
    let mut bits: u32 = 0;
    for block in lengths.chunks(4096) {
        let b = sum_block(block);
        sum += b.sum;
        bits |= b.bits;
    }
    Sum { sum, bits }
}
