// A reference number, as a cell holds it and the pool hands it out, with its limits and its checked maker.
ghost use Rattle.std.specs.Prelude.{◌≡◌};
ghost use Rattle.common.specs.Answers.{nowhere};
ghost use Rattle.common.specs.Refs.{made_as, reference};

use crate::refusal::Refusal;

#[derive(Clone, Copy, Debug, PartialEq, Eq)]
pub struct StringRef(pub i32);

impl StringRef {
    pub const MIN: i32 = 1;

    pub const MAX: i32 = 16_777_215;

    // The reference with a number from MIN to MAX.
    pub fn new(number: i32) -> Result<StringRef, Refusal>
        ensures { made_as result ≡ reference nowhere number }
    {
        match number {
            StringRef::MIN..=StringRef::MAX => Ok(StringRef(number)),
            _ => Err(Refusal::ReferenceRange),
        }
    }
}
