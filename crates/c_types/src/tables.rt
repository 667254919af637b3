// A layout, and the answers of the calls on tables.
ghost use Rattle.std.specs.Prelude.{◌≡◌};
ghost use Rattle.common.specs.Refusals.{number_of, where_of, answered};
ghost use Rattle.cell.specs.Kinds.{cell_as};
ghost use Rattle.rows.specs.Next.{another_as};
ghost use Rattle.c_types.specs.Answers.{refusal_at, told_lem, told_as};
ghost use Rattle.c_types.specs.Tables.{table_in_lem, table_out_lem, type_handed, on_table, laid_told, new_in, cell_told, step_told};
ghost use Rattle.c_types.specs.Unknown.{refusal_number};

use crate::answers::{
    CellAnswer, ColumnParts, Refused, StepAnswer, TableAnswer, TableParts, halves, told_of,
};
use cell::ValueRef;
use column::Column;
use common::{Place, Refusal};
use table::Table;

impl From<TableParts> for Table {
    ghost from_gives = { λ parts t. t ≡ table_in_lem parts };

    // A walk: the array's `map` took three times as long, in every call on a layout.
    fn from(parts: TableParts) -> Table {
        let mut columns = [Column::build().int16(); 64];
        for c in 0..64 {
            columns[c] = Column::from(parts.columns[c]);
        }
        Table {
            columns,
            count: parts.count,
            long_string_refs: parts.long_string_refs,
        }
    }
}

impl From<Table> for TableParts {
    ghost from_gives = { λ t parts. parts ≡ table_out_lem t };

    fn from(table: Table) -> TableParts {
        let mut columns = [ColumnParts::default(); 64];
        for c in 0..64 {
            columns[c] = ColumnParts::from(table.columns[c]);
        }
        TableParts {
            columns,
            count: table.count,
            long_string_refs: table.long_string_refs,
        }
    }
}

fn type_at(table: TableParts, c: usize) -> u32
    ensures { result ≡ type_handed table c }
{
    if c >= 64 {
        return 0;
    }
    table.columns[c].coltype
}

// A refusal on a table: at a column of an unknown type it is 16.
fn told_in(why: Refusal, table: TableParts) -> Refused
    ensures { result ≡ refusal_at (refusal_number (type_handed table) (number_of why) (where_of why)) (where_of why) }
{
    match why.place() {
        Place::Column(c) => told_of(why, type_at(table, c)),
        _ => Refused::from(why),
    }
}

// What a call on this table answers.
pub fn on_table<T>(table: TableParts, answer: Result<T, Refusal>) -> Result<T, Refused>
    ensures { result ≡ told_lem (on_table table (answered answer)) }
{
    answer.map_err(|why| told_in(why, table))
}

// A layout, and one of no columns where it was refused.
pub fn laid(answer: Result<TableParts, Refused>, long_string_refs: bool) -> TableAnswer
    ensures { result ≡ laid_told long_string_refs answer }
{
    match answer {
        Ok(table) => TableAnswer {
            refused: Refused::default(),
            table,
        },
        Err(refused) => TableAnswer {
            refused,
            table: TableParts {
                columns: [ColumnParts::default(); 64],
                count: 0,
                long_string_refs,
            },
        },
    }
}

// The layout that was handed over, judged.
pub fn handed_back(judged: Result<Table, Refusal>, table: TableParts) -> TableAnswer
    ensures { result ≡ new_in table (answered judged) }
{
    match on_table(table, judged) {
        Ok(_) => TableAnswer {
            refused: Refused::default(),
            table,
        },
        Err(refused) => laid(Err(refused), table.long_string_refs),
    }
}

impl From<Result<ValueRef, Refused>> for CellAnswer {
    ghost from_gives = { λ a c. c ≡ cell_told (told_as cell_as a) };

    fn from(answer: Result<ValueRef, Refused>) -> CellAnswer {
        let (refused, value) = halves(answer, ValueRef::Null);
        CellAnswer {
            refused,
            kind: value.kind(),
            number: value.number(),
        }
    }
}

// A step of the row reader, and the place after it.
pub fn stepped(cell: Result<Option<ValueRef>, Refused>, at: usize) -> StepAnswer
    ensures { result ≡ step_told (told_as another_as cell) at }
{
    let (refused, cell) = halves(cell, None);
    let value = cell.unwrap_or(ValueRef::Null);
    StepAnswer {
        refused,
        at,
        found: cell.is_some(),
        kind: value.kind(),
        number: value.number(),
    }
}
