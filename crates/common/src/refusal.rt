// The refusals of document 01 by name, and what it says of each: its number, and its place where it has one.
ghost use Rattle.std.specs.Prelude.{◌≡◌};
ghost use Rattle.common.specs.Refusals.{number_of, where_of, place_as};

// Why a call was refused, in the order of document 01's table. Places are 0-based.
#[derive(Clone, Copy, Debug, PartialEq, Eq)]
pub enum Refusal {
    PoolStreamShort,
    EntryCut,
    TooManyEntries,
    EntryRoom,
    DataStreamShort,
    TextRoom,
    OutputRoom,
    ReferenceRange,
    CellReferenceRange { row: usize, column: usize },
    DropPastEnd,
    CountZero,
    ShortReferencesFull,
    EntriesFull,
    IntegerSize { column: usize },
    TooManyRows,
    OutsideTable,
    CellKind { row: usize, column: usize },
    CellIntegerRange { row: usize, column: usize },
    CellReferenceLong { row: usize, column: usize },
    StringMaximum { column: usize },
    TooManyColumns,
    CodepageRange,
    OverSize,
    CellCount,
    Unsound,
}

// Where in a table a refusal stands.
#[derive(Clone, Copy, Debug, PartialEq, Eq)]
pub enum Place {
    Nowhere,
    Column(usize),
    Cell { row: usize, column: usize },
}

impl Refusal {
    pub fn number(self) -> u32
        ensures { result ≡ number_of self }
    {
        match self {
            Refusal::PoolStreamShort => 1,
            Refusal::EntryCut => 2,
            Refusal::TooManyEntries => 3,
            Refusal::EntryRoom => 4,
            Refusal::DataStreamShort => 5,
            Refusal::TextRoom => 6,
            Refusal::OutputRoom => 7,
            Refusal::ReferenceRange => 8,
            Refusal::CellReferenceRange { row: _, column: _ } => 8,
            Refusal::DropPastEnd => 9,
            Refusal::CountZero => 10,
            Refusal::ShortReferencesFull => 11,
            Refusal::EntriesFull => 12,
            Refusal::IntegerSize { column: _ } => 13,
            Refusal::TooManyRows => 14,
            Refusal::OutsideTable => 15,
            Refusal::CellKind { row: _, column: _ } => 16,
            Refusal::CellIntegerRange { row: _, column: _ } => 17,
            Refusal::CellReferenceLong { row: _, column: _ } => 18,
            Refusal::StringMaximum { column: _ } => 19,
            Refusal::TooManyColumns => 20,
            Refusal::CodepageRange => 21,
            Refusal::OverSize => 22,
            Refusal::CellCount => 23,
            Refusal::Unsound => 24,
        }
    }

    pub fn place(self) -> Place
        ensures { place_as result ≡ where_of self }
    {
        match self {
            Refusal::PoolStreamShort => Place::Nowhere,
            Refusal::EntryCut => Place::Nowhere,
            Refusal::TooManyEntries => Place::Nowhere,
            Refusal::EntryRoom => Place::Nowhere,
            Refusal::DataStreamShort => Place::Nowhere,
            Refusal::TextRoom => Place::Nowhere,
            Refusal::OutputRoom => Place::Nowhere,
            Refusal::ReferenceRange => Place::Nowhere,
            Refusal::CellReferenceRange { row, column } => Place::Cell { row, column },
            Refusal::DropPastEnd => Place::Nowhere,
            Refusal::CountZero => Place::Nowhere,
            Refusal::ShortReferencesFull => Place::Nowhere,
            Refusal::EntriesFull => Place::Nowhere,
            Refusal::IntegerSize { column } => Place::Column(column),
            Refusal::TooManyRows => Place::Nowhere,
            Refusal::OutsideTable => Place::Nowhere,
            Refusal::CellKind { row, column } => Place::Cell { row, column },
            Refusal::CellIntegerRange { row, column } => Place::Cell { row, column },
            Refusal::CellReferenceLong { row, column } => Place::Cell { row, column },
            Refusal::StringMaximum { column } => Place::Column(column),
            Refusal::TooManyColumns => Place::Nowhere,
            Refusal::CodepageRange => Place::Nowhere,
            Refusal::OverSize => Place::Nowhere,
            Refusal::CellCount => Place::Nowhere,
            Refusal::Unsound => Place::Nowhere,
        }
    }
}
