// Lists joined by commas, `-` for none. An item may be written `ITEM*N` for N of it.
ghost use Rattle.std.specs.Prelude.{◌≡◌, ◌≤◌, length, min, MatchOption};
ghost use Rattle.commands.specs.Words.{end_of, times_at_lem, first_at, first_times, after_end, next_at, next_times, items_left, kind_at, cell_number_at, IsPlace};
ghost use Rattle.cell.specs.Handed.{cell_of};
ghost use Rattle.cell.specs.Kinds.{ref_kind, ref_number};
ghost use Rattle.std.specs.Iterator.{at_most};

use crate::words::{End, Words};
use cell::{Cell, ValueRef};

// Where the item after this one stands. A number, as how often it stands is: room for an item that is answered would be filled at each
// step. Neither is inlined, so that a step is short where it is taken.
#[inline(never)]
fn past(words: Words<'_>) -> usize
    ensures { result ≡ after_end words.entry.text.now (end_of words.entry.text.now words.entry.at 3) }
{
    words.end(End::Item).after().at
}

// How often the item here stands.
#[inline(never)]
fn times(words: Words<'_>) -> u64
    ensures { result ≡ times_at_lem words.entry.text.now (end_of words.entry.text.now words.entry.at 2) }
{
    words.end(End::Times).times()
}

// An item, and how often it stands from here on. Past the end of the word there is none.
#[derive(Clone, Copy)]
pub struct Item<'a> {
    pub words: Words<'a>,
    pub left: u64,
}

impl<'a> Item<'a> {
    fn at(words: Words<'a>) -> Item<'a>
        ensures { IsPlace result.words words.entry words.entry.at × (result.left ≡ times_at_lem words.entry.text.now (end_of words.entry.text.now words.entry.at 2)) }
    {
        Item {
            words,
            left: times(words),
        }
    }

    pub fn first(words: Words<'a>) -> Item<'a>
        ensures { IsPlace result.words words.entry (first_at words.entry.text.now words.entry.at) × (result.left ≡ first_times words.entry.text.now words.entry.at) }
    {
        if words.is_none() {
            return Item {
                words: words.end(End::Word),
                left: 1,
            };
        }
        Item::at(words)
    }

    // In place, and inlined: where an item is handed over and back for each of its times, a list takes up to three times as long.
    #[inline(always)]
    fn step(&mut self)
        ensures { IsPlace self.new.words self.old.words (next_at self.old.words.text.now self.old.words.at self.old.left) × (self.new.left ≡ next_times self.old.words.text.now self.old.words.at self.old.left) }
    {
        if self.left > 1 {
            self.left -= 1;
        } else {
            self.words.at = past(self.words);
            self.left = times(self.words);
        }
    }

    pub fn next(mut self) -> Item<'a>
        ensures { IsPlace result.words self.entry.words (next_at self.entry.words.text.now self.entry.words.at self.entry.left) × (result.left ≡ next_times self.entry.words.text.now self.entry.words.at self.entry.left) }
    {
        self.step();
        self
    }
}

// The items of the list here, one after another, as often as each stands.
#[derive(Clone, Copy, Drop)]
pub struct Items<'a> {
    item: Item<'a>,
    end: usize,
}

impl<'a> Items<'a> {
    pub fn of(words: Words<'a>) -> Items<'a>
        ensures { IsPlace result.item.words words.entry (first_at words.entry.text.now words.entry.at) × (result.item.left ≡ first_times words.entry.text.now words.entry.at) × (result.end ≡ end_of words.entry.text.now words.entry.at 4) }
    {
        Items {
            item: Item::first(words),
            end: words.end(End::Word).at,
        }
    }
}

impl<'a> Iterator for Items<'a> {
    type Item = Words<'a>;

    ghost next_gives = { λ s r t. MatchOption r (min s.end (length s.item.words.text.now) ≤ s.item.words.at) (λ x. IsPlace x s.item.words s.item.words.at × IsPlace t.item.words x (next_at x.text.now x.at s.item.left) × (t.item.left ≡ next_times x.text.now x.at s.item.left) × (t.end ≡ s.end)) };

    ghost remaining = { λ s. at_most (items_left s.item.words.text.now s.item.words.at s.item.left s.end) };

    fn next(&mut self) -> Option<Words<'a>> {
        let here = self.item.words;
        if here.at >= self.end.min(here.text.len()) {
            return None;
        }
        self.item.step();
        Some(here)
    }
}

// Where the item stands that has `n` before it.
pub fn nth<'a>(words: Words<'a>, n: usize) -> Words<'a> {
    let mut item = Item::first(words);
    for _ in 0..n {
        item = item.next();
    }
    item.words
}

// A cell as it is handed over: a kind, known or not, and a number, looked at or not.
#[derive(Clone, Copy, PartialEq, Eq)]
pub struct Handed {
    pub kind: u8,
    pub number: i32,
}

impl From<ValueRef> for Handed {
    ghost from_gives = { λ v h. (h.kind ≡ ref_kind v) × (h.number ≡ ref_number v) };

    fn from(value: ValueRef) -> Handed {
        Handed {
            kind: value.kind(),
            number: value.number(),
        }
    }
}

// `n`, `iNUM`, `sREF`, `b`, or `kKIND:NUM`; a text, `tBYTES`, is a Str with no number.
pub fn handed_at(words: Words<'_>) -> Handed
    ensures { (result.kind ≡ kind_at words.entry.text.now words.entry.at) × (result.number ≡ cell_number_at words.entry.text.now words.entry.at) }
{
    let rest = words.after();
    match words.byte() {
        b'n' => Handed { kind: 0, number: 0 },
        b'i' => Handed {
            kind: 1,
            number: rest.signed(),
        },
        b's' => Handed {
            kind: 2,
            number: rest.signed(),
        },
        b't' => Handed { kind: 2, number: 0 },
        b'b' => Handed { kind: 3, number: 0 },
        _ => Handed {
            kind: (rest.count() % 256) as u8,
            number: words.end(End::Kind).after().signed(),
        },
    }
}

// The same, read.
pub fn cell_at(words: Words<'_>) -> Cell
    ensures { result ≡ cell_of (kind_at words.entry.text.now words.entry.at) (cell_number_at words.entry.text.now words.entry.at) }
{
    let handed = handed_at(words);
    Cell::new(handed.kind, handed.number)
}

// The cells of a list: how many there are. Their kinds and numbers lie apart, as the calls on tables take them for C.
pub fn cells_in(words: Words<'_>, kinds: &mut [u8], values: &mut [i32]) -> usize
    ensures { (result ≤ length kinds.new) × (result ≤ length values.new) }
{
    let mut items = Items::of(words);
    let places = kinds.len().min(values.len());
    for i in 0..places {
        let Some(item) = items.next() else {
            return i;
        };
        let cell = handed_at(item);
        kinds[i] = cell.kind;
        values[i] = cell.number;
    }
    places
}

// Signed numbers of a list: how many there are.
pub fn signed_in(words: Words<'_>, out: &mut [i32]) -> usize
    ensures { result ≤ length out.new }
{
    let mut items = Items::of(words);
    for (i, place) in out.iter_mut().enumerate() {
        let Some(item) = items.next() else {
            return i;
        };
        *place = item.signed();
    }
    out.len()
}
