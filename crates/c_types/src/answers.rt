// What the exported calls answer: the refusal, all 0 where there is none, then what was given, all 0 where the call was refused.
// Inside, an answer is a Result with C's refusal; `from` makes C's struct of it.
ghost use Rattle.std.specs.Prelude.{◌≡◌};
ghost use Rattle.common.specs.Answers.{gives, nowhere};
ghost use Rattle.common.specs.Refusals.{number_of, where_of, place_as, answered};
ghost use Rattle.c_types.specs.Answers.{refusal_at, told_lem, refusal_told, given_told, count_told, flag_told};
ghost use Rattle.c_types.specs.Unknown.{on_kind, refusal_number};

use common::{Place, Refusal};
use stringpool::StringPool;

// `place` is 0 where there is none, 1 for a column, 2 for a cell.
#[repr(C)]
#[derive(Clone, Copy, Default)]
pub struct Refused {
    pub number: u32,
    pub place: u32,
    pub row: usize,
    pub column: usize,
}

#[repr(C)]
#[derive(Clone, Copy)]
pub struct Count {
    pub refused: Refused,
    pub value: usize,
}

#[repr(C)]
#[derive(Clone, Copy)]
pub struct Name {
    pub refused: Refused,
    pub units: usize,
    pub is_table: bool,
}

#[repr(C)]
#[derive(Clone, Copy)]
pub struct Flag {
    pub refused: Refused,
    pub value: bool,
}

// A pool's state; its rooms are lent beside it.
#[repr(C)]
#[derive(Clone, Copy)]
pub struct PoolAnswer {
    pub refused: Refused,
    pub pool: StringPool,
}

#[repr(C)]
#[derive(Clone, Copy)]
pub struct TakeAnswer {
    pub refused: Refused,
    pub pool: StringPool,
    pub reference: i32,
}

#[repr(C)]
#[derive(Clone, Copy)]
pub struct Reference {
    pub refused: Refused,
    pub value: i32,
}

// A cell's kind (0 Null, 1 Int, 2 Str, 3 Binary) and number.
#[repr(C)]
#[derive(Clone, Copy)]
pub struct CellAnswer {
    pub refused: Refused,
    pub kind: u8,
    pub number: i32,
}

// A column, or one being made: its type (0 Int16, 1 Int32, 2 Str, 3 Binary, any other unknown) with the maximum of a Str, its
// marks, and its range, which counts where `has_range` is set.
#[repr(C)]
#[derive(Clone, Copy, Default)]
pub struct ColumnParts {
    pub coltype: u32,
    pub max_len: u32,
    pub is_localizable: bool,
    pub is_nullable: bool,
    pub is_primary_key: bool,
    pub has_range: bool,
    pub min: i32,
    pub max: i32,
}

#[repr(C)]
#[derive(Clone, Copy)]
pub struct ColumnAnswer {
    pub refused: Refused,
    pub column: ColumnParts,
}

// A layout, handed over whole: its first `count` columns are in use.
#[repr(C)]
#[derive(Clone, Copy)]
pub struct TableParts {
    pub columns: [ColumnParts; 64],
    pub count: usize,
    pub long_string_refs: bool,
}

// With no columns in use where it was refused.
#[repr(C)]
#[derive(Clone, Copy)]
pub struct TableAnswer {
    pub refused: Refused,
    pub table: TableParts,
}

// A cell and the place of the reader after it; `found` is not set past the last cell.
#[repr(C)]
#[derive(Clone, Copy)]
pub struct StepAnswer {
    pub refused: Refused,
    pub at: usize,
    pub found: bool,
    pub kind: u8,
    pub number: i32,
}

#[repr(C)]
#[derive(Clone, Copy)]
pub struct CreateAnswer {
    pub refused: Refused,
    pub pool: StringPool,
    pub kind: u8,
    pub number: i32,
}

// The number of a kind or a type that is unknown.
const UNKNOWN: u32 = 16;

impl Refused {
    pub fn new(number: u32, place: Place) -> Refused
        ensures { result ≡ refusal_at number (place_as place) }
    {
        match place {
            Place::Nowhere => Refused {
                number,
                ..Refused::default()
            },
            Place::Column(column) => Refused {
                number,
                place: 1,
                row: 0,
                column,
            },
            Place::Cell { row, column } => Refused {
                number,
                place: 2,
                row,
                column,
            },
        }
    }
}

impl From<Refusal> for Refused {
    ghost from_gives = { λ why r. r ≡ refusal_at (number_of why) (where_of why) };

    fn from(why: Refusal) -> Refused {
        Refused::new(why.number(), why.place())
    }
}

// A call's answer, its refusal as C has it.
pub fn told<T>(answer: Result<T, Refusal>) -> Result<T, Refused>
    ensures { result ≡ told_lem (answered answer) }
{
    answer.map_err(Refused::from)
}

// The two halves of what C is answered: the refusal, all 0 where there is none, and what was given, `nothing` where there is none.
pub(crate) fn halves<T: Drop>(answer: Result<T, Refused>, nothing: T) -> (Refused, T)
    ensures { result ≡ (refusal_told answer, given_told nothing answer) }
{
    match answer {
        Ok(given) => (Refused::default(), given),
        Err(refused) => (refused, nothing),
    }
}

// 16 where a value's kind is unknown: it stands at the column that the value is beside, or nowhere.
pub fn known(kind: u8, place: Place) -> Result<(), Refused>
    ensures { result ≡ told_lem (on_kind (place_as place) kind (gives tt)) }
{
    if kind > 3 {
        return Err(Refused::new(UNKNOWN, place));
    }
    Ok(())
}

// The answer to a value of this kind, handed over by itself. One of an unknown kind was judged as a Binary is, and is refused where that was
// not.
pub fn of_kind<T: Drop>(kind: u8, answer: Result<T, Refusal>) -> Result<T, Refused>
    ensures { result ≡ told_lem (on_kind nowhere kind (answered answer)) }
{
    let given = answer?;
    known(kind, Place::Nowhere)?;
    Ok(given)
}

// A refusal on columns, where the one that it names was handed over with this type: it is 16 where that is unknown.
pub fn told_of(why: Refusal, coltype: u32) -> Refused
    ensures { result ≡ refusal_at (refusal_number (λ c. coltype) (number_of why) (where_of why)) (where_of why) }
{
    match why.place() {
        Place::Column(column) if coltype > 3 => Refused::new(UNKNOWN, Place::Column(column)),
        _ => Refused::from(why),
    }
}

impl From<Result<(), Refused>> for Refused {
    ghost from_gives = { λ a r. r ≡ refusal_told a };

    fn from(answer: Result<(), Refused>) -> Refused {
        let (refused, _) = halves(answer, ());
        refused
    }
}

impl From<Result<usize, Refused>> for Count {
    ghost from_gives = { λ a c. c ≡ count_told a };

    fn from(answer: Result<usize, Refused>) -> Count {
        let (refused, value) = halves(answer, 0);
        Count { refused, value }
    }
}

impl From<Result<u16, Refused>> for Count {
    ghost from_gives = { λ a c. c ≡ count_told a };

    fn from(answer: Result<u16, Refused>) -> Count {
        Count::from(answer.map(usize::from))
    }
}

impl From<Result<bool, Refused>> for Flag {
    ghost from_gives = { λ a c. c ≡ flag_told a };

    fn from(answer: Result<bool, Refused>) -> Flag {
        let (refused, value) = halves(answer, false);
        Flag { refused, value }
    }
}
