// Passing entries by their lengths.
ghost use Rattle.std.specs.Prelude.{◌≡◌, ◌+◌, ◌<◌, ◌≤◌, length, slice_index};
ghost use Rattle.pool_entries.specs.inner.Look.{SumTo, PassedBy};

// A place, and the sum of the lengths before it.
#[derive(Clone, Copy)]
pub(crate) struct Step(pub usize, pub usize);

// The length at i.
pub(crate) fn length_at(lengths: &[u32], i: usize) -> usize
    requires { i < length lengths.now }
    ensures { (result ≡ slice_index lengths.now i) × (result ≤ 4294967295) }
{
    lengths[i] as usize
}

// Four entries from `from` on, where those before it use begin bytes: to the first whose length is size, or past all.
// The four are added up among themselves, so that a turn waits for one addition to the sum before it.
fn skip_four(lengths: &[u32], from: usize, size: usize, begin: usize) -> Step
    requires { (from + 3 < length lengths.now) × (from ≤ 16777215) × SumTo lengths.now from begin }
    ensures { PassedBy lengths.now size from (from + 4) result.0 result.1 }
{
    let a = length_at(lengths, from);
    if a == size {
        return Step(from, begin);
    }
    let b = length_at(lengths, from + 1);
    if b == size {
        return Step(from + 1, begin + a);
    }
    let c = length_at(lengths, from + 2);
    if c == size {
        return Step(from + 2, begin + (a + b));
    }
    let d = length_at(lengths, from + 3);
    if d == size {
        return Step(from + 3, begin + (a + b + c));
    }
    Step(from + 4, begin + (a + b + (c + d)))
}

// From `from` on, entries whose length is not size are passed by, four in a turn: to the first of that length, or to the last three before `to`.
// A walk: a turn that finds the length stops within the four.
pub(crate) fn skip(lengths: &[u32], from: usize, to: usize, size: usize, begin: usize) -> Step
    requires { (from ≤ to) × (to ≤ length lengths.now) × (to ≤ 16777215) × SumTo lengths.now from begin }
    ensures { PassedBy lengths.now size from to result.0 result.1 }
{
    let mut s = Step(from, begin);
    while to - s.0 > 3 {
        let i = s.0;
        s = skip_four(lengths, i, size, s.1);
        if s.0 < i + 4 {
            return s;
        }
    }
    s
}
