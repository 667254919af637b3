// Cases a to d: stored forms of names.
ghost use Rattle.std.specs.Prelude.{◌≡◌};
ghost use Rattle.common.specs.Refusals.{answered};
ghost use Rattle.cases.specs.Shown.{name, called};
ghost use Rattle.cases.specs.Cases as cases;

use common::Refusal;

// What `encode` answers, and its output.
#[derive(Clone, Copy)]
pub struct Units {
    pub answer: Result<usize, Refusal>,
    pub out: [u16; 8],
}

fn stored(units: &[u16], is_table: bool) -> Units
    ensures { (answered result.answer, result.out) ≡ called (name units.now is_table) }
{
    let mut out = [0u16; 8];
    let answer = streamname::encode(units, is_table, &mut out);
    Units { answer, out }
}

pub fn case_a() -> Units
    ensures { (answered result.answer, result.out) ≡ called (cases.a).asked }
{
    let units = [0x41u16, 0x62];
    stored(&units, true)
}

pub fn case_b() -> Units
    ensures { (answered result.answer, result.out) ≡ called (cases.b).asked }
{
    let units = [0x61u16, 0x2D, 0x62];
    stored(&units, false)
}

pub fn case_c() -> Units
    ensures { (answered result.answer, result.out) ≡ called (cases.c).asked }
{
    let units = [0x5Fu16, 0x5F];
    stored(&units, false)
}

pub fn case_d() -> Units
    ensures { (answered result.answer, result.out) ≡ called (cases.d).asked }
{
    let units = [0u16; 0];
    stored(&units, true)
}
