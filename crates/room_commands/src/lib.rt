// Lent memory: the rooms of the one pool, the places of an output, and the commands on them. The crate owns its memory; the port is
// lent it.
#![tactic(auto)]

pub mod held;
pub mod hold;
pub mod lend;

ghost use Rattle.std.specs.Prelude.{◌≡◌, IfOk, OnOk, codes};
ghost use Rattle.std.specs.Io.KnownBytes.{Appends};
ghost use Rattle.common.specs.Choice.{when◌then◌else◌, ◌=?◌};
ghost use Rattle.commands.specs.Words.{is_none, count_at_lem};

use commands::shown;
use commands::words::Words;
use std::io;
use std::io::Write;
use stringpool::StringPool;

// All places that there are, or as many as an output needs. A number, since a command may give it.
pub const ALL: usize = 4_294_967_295;

// What the commands have beside the arrays of the rooms and of the last output.
#[derive(Clone, Copy)]
pub struct Desk {
    pub pool: StringPool,
    // How many places of each room are lent.
    pub lengths: usize,
    pub counts: usize,
    pub text: usize,
    // How many places an output has.
    pub places: usize,
    // The last output: how many bytes it has, and how many each of its places: 5 for a cell.
    pub left: usize,
    pub width: usize,
}

impl Desk {
    // An empty pool, short, of code page 1252.
    pub fn new() -> Desk
        ensures { (result.lengths ≡ 4294967295) × (result.counts ≡ 4294967295) × (result.text ≡ 4294967295) × (result.places ≡ 4294967295) × (result.left ≡ 0) × (result.width ≡ 1) }
    {
        Desk {
            pool: StringPool {
                num_strings: 0,
                long_string_refs: false,
                codepage: 1252,
            },
            lengths: ALL,
            counts: ALL,
            text: ALL,
            places: ALL,
            left: 0,
            width: 1,
        }
    }

    // The places of an output that needs so many.
    pub fn output(self, enough: usize) -> usize
        ensures { result ≡ (when self.places =? 4294967295 then enough else self.places) }
    {
        if self.places == ALL {
            return enough;
        }
        self.places
    }

    pub fn leaves(mut self, left: usize, width: usize) -> Desk
        ensures { (result.left ≡ left) × (result.width ≡ width) × (result.pool ≡ self.pool) × (result.lengths ≡ self.lengths) × (result.counts ≡ self.counts) × (result.text ≡ self.text) × (result.places ≡ self.places) }
    {
        self.left = left;
        self.width = width;
        self
    }

    pub fn with_pool(mut self, pool: StringPool) -> Desk
        ensures { (result.pool ≡ pool) × (result.lengths ≡ self.lengths) × (result.counts ≡ self.counts) × (result.text ≡ self.text) × (result.places ≡ self.places) × (result.left ≡ self.left) × (result.width ≡ self.width) }
    {
        self.pool = pool;
        self
    }
}

// `out N`, `out -`
pub fn out<W: Write>(w: &mut W, words: Words<'_>, mut desk: Desk) -> io::Result<Desk>
    ensures answers { IfOk result (λ d. (d.places ≡ (when is_none words.entry.text.now words.entry.at then 4294967295 else count_at_lem words.entry.text.now words.entry.at)) × (d.pool ≡ desk.pool) × (d.lengths ≡ desk.lengths) × (d.counts ≡ desk.counts) × (d.text ≡ desk.text) × (d.left ≡ desk.left) × (d.width ≡ desk.width)) }
    ensures written { OnOk result (Appends (W.contents w.old) (W.contents w.new) (codes "ok")) }
{
    shown::say(w, b"ok")?;
    desk.places = if words.is_none() {
        ALL
    } else {
        words.count() as usize
    };
    Ok(desk)
}

// `pool ENTRIES LONG CP`
pub fn pool<W: Write>(w: &mut W, words: Words<'_>, desk: Desk) -> io::Result<Desk>
    ensures answers { IfOk result (λ d. (d.lengths ≡ desk.lengths) × (d.counts ≡ desk.counts) × (d.text ≡ desk.text) × (d.places ≡ desk.places) × (d.left ≡ desk.left) × (d.width ≡ desk.width)) }
    ensures written { OnOk result (Appends (W.contents w.old) (W.contents w.new) (codes "ok")) }
{
    let long = words.next();
    shown::say(w, b"ok")?;
    Ok(desk.with_pool(StringPool {
        num_strings: words.count() as usize,
        long_string_refs: long.byte() == b'1',
        codepage: long.next().count(),
    }))
}
