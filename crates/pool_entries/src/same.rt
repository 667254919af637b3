// Whether two texts are the same bytes, the last eight first, then sixteen at a time; and whether an entry can count up.
ghost use Rattle.std.specs.Prelude.{◌≡◌, ℕ, ◌+◌, ◌^◌, ◌<◌, ◌≤◌, false, not, ◌&&◌, List, length, take, drop, slice_index};
ghost use Rattle.common.specs.Choice.{◌=?◌, ◌<?◌};
ghost use Rattle.pool_entries.specs.Entries.{entry};
ghost use Rattle.pool_entries.specs.Choose.{same_bytes, can_count_up_lem};
ghost use Rattle.pool_entries.specs.inner.Look.{Word, Ends};

// The eight bytes at `at` as a number: one load.
fn eight(s: &[u8], at: usize) -> u64
    requires { at + 8 ≤ length s.now }
    ensures { Word s.now at result }
{
    u64::from_le_bytes(s[at..at + 8].try_into().unwrap())
}

// The last eight bytes of a text as a number; 0 where it has fewer.
pub(crate) fn last_eight(s: &[u8]) -> u64
    ensures { Ends s.now result }
{
    let n = s.len();
    if n < 8 {
        return 0;
    }
    eight(s, n - 8)
}

// Whether eight bytes are the same: then the texts from there on are, if they are after them.
fn same_eight(a: &[u8], b: &[u8], at: usize) -> bool
    requires { (length a.now ≡ length b.now) × (at + 8 ≤ length a.now) }
    ensures { same_bytes (drop at a.now) (drop at b.now) ≡ (result && same_bytes (drop (at + 8) a.now) (drop (at + 8) b.now)) }
{
    eight(a, at) == eight(b, at)
}

// Whether two texts are the same bytes, sixteen at a time. By `==` texts that differ in the middle took three times as long; eight at a
// time, long ones that differ near their end a third more.
fn same(a: &[u8], b: &[u8]) -> bool
    ensures { result ≡ same_bytes a.now b.now }
{
    if a.len() != b.len() {
        return false;
    }
    let turns = a.len() / 16;
    for turn in 0..turns {
        let at = 16 * turn;
        if !same_eight(a, b, at) || !same_eight(a, b, at + 8) {
            return false;
        }
    }
    same_end(a, b, 16 * turns)
}

// The same of two texts of the same length, of fewer than sixteen bytes from a place on.
fn same_end(a: &[u8], b: &[u8], from: usize) -> bool
    requires { (length a.now ≡ length b.now) × (from ≤ length a.now) }
    ensures { result ≡ same_bytes (drop from a.now) (drop from b.now) }
{
    if a.len() - from < 8 {
        return same_from(a, b, from);
    }
    same_eight(a, b, from) && same_from(a, b, from + 8)
}

// The same, byte by byte.
fn same_from(a: &[u8], b: &[u8], from: usize) -> bool
    requires { (length a.now ≡ length b.now) × (from ≤ length a.now) }
    ensures { result ≡ same_bytes (drop from a.now) (drop from b.now) }
{
    for i in from..a.len() {
        if a[i] != b[i] {
            return false;
        }
    }
    true
}

// Whether an entry of that count is used and can be used once more.
fn counts_up(count: u16) -> bool
    ensures { result ≡ (not (count =? 0) && count <? 65535) }
{
    count > 0 && count < 65535
}

// Whether an entry has the same bytes and can count up.
fn can_count_up(count: u16, text: &[u8], new: &[u8]) -> bool
    ensures { result ≡ can_count_up_lem new.now (entry text.now count) }
{
    counts_up(count) && same(text, new)
}

// False where the bytes of a text of that size at `at` are not all in the room, or end otherwise than one whose last eight bytes are `word`.
fn may_be(text: &[u8], at: usize, size: usize, word: u64) -> bool
    requires { at + size < 2 ^ 64 }
    ensures { result ≡ false → (t : List ℕ) → length t ≡ size → Ends t word → at + size ≤ length text.now
        → same_bytes (take size (drop at text.now)) t ≡ false }
{
    let end = at + size;
    if end > text.len() {
        return false;
    }
    if size > 7 {
        return eight(text, end - 8) == word;
    }
    true
}

// Whether the entry at `at` in the text room, as long as new, has the same bytes and can count up; false where its bytes are not all there.
fn up_at(count: u16, text: &[u8], at: usize, new: &[u8]) -> bool
    requires { at + length new.now < 2 ^ 64 }
    ensures { at + length new.now ≤ length text.now
        → result ≡ can_count_up_lem new.now (entry (take (length new.now) (drop at text.now)) count) }
{
    let end = at + new.len();
    if end > text.len() {
        return false;
    }
    can_count_up(count, &text[at..end], new)
}

// The same, where `word` is new's end: most texts are told apart by theirs.
pub(crate) fn up_by_end(count: u16, text: &[u8], at: usize, new: &[u8], word: u64) -> bool
    requires { (at + length new.now < 2 ^ 64) × Ends new.now word }
    ensures { at + length new.now ≤ length text.now
        → result ≡ can_count_up_lem new.now (entry (take (length new.now) (drop at text.now)) count) }
{
    may_be(text, at, new.len(), word) && up_at(count, text, at, new)
}
