// A form that a type names: what is generic over it is compiled for each form alone.
ghost use Rattle.cell.specs.declared.form.CellForm.{CellForm as FormOf};
ghost use Rattle.cell.specs.declared.form.CellForm.TheVariants as forms;

use crate::form::CellForm;

pub trait Fixed {
    ghost FORM: { FormOf };

    const FORM: CellForm;
}

pub struct Int16;

impl Fixed for Int16 {
    ghost FORM = { forms.Int16 };

    const FORM: CellForm = CellForm::Int16;
}

pub struct Int32;

impl Fixed for Int32 {
    ghost FORM = { forms.Int32 };

    const FORM: CellForm = CellForm::Int32;
}

pub struct ShortRef;

impl Fixed for ShortRef {
    ghost FORM = { forms.ShortRef };

    const FORM: CellForm = CellForm::ShortRef;
}

pub struct LongRef;

impl Fixed for LongRef {
    ghost FORM = { forms.LongRef };

    const FORM: CellForm = CellForm::LongRef;
}

pub struct Binary;

impl Fixed for Binary {
    ghost FORM = { forms.Binary };

    const FORM: CellForm = CellForm::Binary;
}
