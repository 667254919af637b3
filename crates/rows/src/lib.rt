// The row reader: the lent stream of a table and a place in it, answering one cell after another, row by row.
#![tactic(auto)]

ghost use Rattle.std.specs.Prelude.{◌≡◌};
ghost use Rattle.rows.specs.Next.{step_as, next_outcome, beginning};

use cell::ValueRef;
use common::Refusal;
use table::Table;

// What a step answers, a cell or that there is none, and the place after it.
#[derive(Clone, Copy)]
pub struct Step {
    pub cell: Result<Option<ValueRef>, Refusal>,
    pub at: usize,
}

// A step from the place `at`: a cell moves it by one, the end and a refusal leave it.
pub fn next_at(stream: &[u8], at: usize, table: Table) -> Step
    ensures { step_as result ≡ next_outcome table stream.now at }
{
    let count = table.count;
    if count == 0 {
        // Such a table has no cell. It and its stream are judged all the same.
        return Step {
            cell: table.num_rows(stream).map(|_| None),
            at,
        };
    }
    match table.read_cell(stream, at / count, at % count) {
        Ok(value) => Step {
            cell: Ok(Some(value)),
            at: at + 1,
        },
        // A place outside the table is past its last cell.
        Err(Refusal::OutsideTable) => Step { cell: Ok(None), at },
        Err(refusal) => Step {
            cell: Err(refusal),
            at,
        },
    }
}

// A table's stream and a place in it.
#[derive(Clone, Copy)]
pub struct Rows<'a> {
    pub stream: &'a [u8],
    pub at: usize,
}

impl<'a> Rows<'a> {
    pub fn new(stream: &'a [u8]) -> Rows<'a>
        ensures { (result.stream ≡ stream.entry) × (result.at ≡ beginning) }
    {
        Rows { stream, at: 0 }
    }

    // The next cell: it moves the reader by one, the end and a refusal leave it. The answer has the place that the reader then has.
    pub fn next(&mut self, table: Table) -> Step
        ensures { (step_as result ≡ next_outcome table self.old.stream.now self.old.at) × (self.new.stream ≡ self.old.stream) × (self.new.at ≡ result.at) }
    {
        let step = next_at(self.stream, self.at, table);
        self.at = step.at;
        step
    }
}
