// Entries that their rooms hold, and those of a sound state.
ghost use Rattle.std.specs.Prelude.{◌≡◌, ◌≤◌, length, take};
ghost use Rattle.common.specs.Lists.{total};

use crate::rooms::Rooms;

// The first n entries of rooms that hold as many.
#[derive(Clone, Copy)]
pub struct HeldEntries<'a> {
    pub n: usize,
    pub rooms: Rooms<'a, 'a>,
    ghost within: { (n ≤ length rooms.lengths.now) × (n ≤ length rooms.counts.now) × (n ≤ 16777215) },
}

// The entries of a sound state, and how many bytes their texts use.
#[derive(Clone, Copy)]
pub struct SoundEntries<'a> {
    pub entries: HeldEntries<'a>,
    pub used: usize,
    ghost sums: { (used ≡ total (take entries.n entries.rooms.lengths.now)) × (used ≤ length entries.rooms.text.now) × (length entries.rooms.text.now ≤ 268435455) },
}
