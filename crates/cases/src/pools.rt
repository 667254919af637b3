// Cases k and l: a pool, and a take on it.
ghost use Rattle.std.specs.Prelude.{◌≡◌};
ghost use Rattle.common.specs.Refusals.{answered};
ghost use Rattle.stringpool.specs.Pool.{rooms};
ghost use Rattle.stringpool.specs.Load.{load_outcome};
ghost use Rattle.stringpool.specs.Take.{taken_as};
ghost use Rattle.cases.specs.Shown.{room, take_on, called};
ghost use Rattle.cases.specs.Cases as cases;

use common::Refusal;
use stringpool::{RoomsMut, StringPool, Taken};

// What a call answers, and the rooms afterwards.
#[derive(Clone, Copy)]
pub struct Left<T> {
    pub answer: Result<T, Refusal>,
    pub lengths: [u32; 4],
    pub counts: [u16; 4],
    pub text: [u8; 6],
}

// What `load` answers, and what `incref_first` does.
pub type Pool = Left<StringPool>;

pub type Take = Left<Taken>;

// A load into rooms for four entries and six bytes.
pub fn loaded(pool: &[u8], texts: &[u8]) -> Pool
    ensures { (answered result.answer, rooms result.lengths result.counts result.text) ≡ load_outcome pool.now texts.now room }
{
    let mut lengths = [0u32; 4];
    let mut counts = [0u16; 4];
    let mut text = [0u8; 6];
    let mut rooms = RoomsMut {
        lengths: &mut lengths,
        counts: &mut counts,
        text: &mut text,
    };
    let answer = StringPool::load(pool, texts, &mut rooms);
    Left {
        answer,
        lengths,
        counts,
        text,
    }
}

// A take on what was loaded, by the first free or equal: document 01's choice, which case l names.
pub fn taken_on(pool: Pool, new: &[u8]) -> Take
    ensures { (taken_as result.answer, rooms result.lengths result.counts result.text)
        ≡ take_on new.now (answered pool.answer, rooms pool.lengths pool.counts pool.text) }
{
    let mut lengths = pool.lengths;
    let mut counts = pool.counts;
    let mut text = pool.text;
    let mut rooms = RoomsMut {
        lengths: &mut lengths,
        counts: &mut counts,
        text: &mut text,
    };
    let answer = match pool.answer {
        Ok(state) => state.incref_first(&mut rooms, new),
        Err(why) => Err(why),
    };
    Left {
        answer,
        lengths,
        counts,
        text,
    }
}

pub fn case_k() -> Pool
    ensures { (answered result.answer, rooms result.lengths result.counts result.text) ≡ called (cases.k).asked }
{
    let pool = [
        0xE4u8, 4, 0, 0, 4, 0, 2, 0, 0, 0, 0, 0, 0, 0, 1, 0, 0, 0, 0, 0,
    ];
    loaded(&pool, b"Name")
}

pub fn case_l() -> Take
    ensures { (taken_as result.answer, rooms result.lengths result.counts result.text) ≡ called (cases.l).asked }
{
    taken_on(case_k(), b"")
}
