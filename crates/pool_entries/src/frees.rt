// Which entry is free.
ghost use Rattle.std.specs.Prelude.{◌≡◌, ◌==◌, length, position};
ghost use Rattle.pool_entries.specs.inner.Look.{FreeAt};

// Counts that are looked at together for a free entry.
pub(crate) const BLOCK: usize = 1024;

// Where the first free entry is.
fn first(counts: &[u16]) -> Option<usize>
    ensures { result ≡ position (λ c. c == 0) counts.now }
{
    counts.iter().position(|count| *count == 0)
}

// The first free entry, found at once where none is, since `contains` looks at many in a turn; with none, the place after the last.
pub(crate) fn first_in(counts: &[u16]) -> usize
    ensures { FreeAt counts.now 0 (length counts.now) result }
{
    if counts.contains(&0) {
        return first(counts).unwrap_or(counts.len());
    }
    counts.len()
}

// The same of any number, block by block.
pub(crate) fn first_free(counts: &[u16]) -> usize
    ensures { FreeAt counts.now 0 (length counts.now) result }
{
    let mut passed = 0;
    for block in counts.chunks(BLOCK) {
        let free = first_in(block);
        if free < block.len() {
            return passed + free;
        }
        passed += block.len();
    }
    passed
}
