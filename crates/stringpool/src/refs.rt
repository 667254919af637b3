// A 1-based reference number and a 0-based entry place, kept apart and converted in one place.
ghost use Rattle.std.specs.Prelude.{◌≡◌, ◌<◌};
ghost use Rattle.common.specs.Answers.{gives};
ghost use Rattle.stringpool.specs.Refs.{on_reference};
ghost use Rattle.stringpool.specs.inner.Refs.{placed_as, ref_of};

use common::{Refusal, StringRef};

// Where an entry stands in the lent lengths and counts.
#[derive(Clone, Copy)]
pub(crate) struct EntryPlace(pub usize);

// The entry place of a reference number.
impl TryFrom<i32> for EntryPlace {
    type Error = Refusal;

    ghost try_from_gives = { λ number placed. placed_as placed ≡ on_reference number gives };

    fn try_from(number: i32) -> Result<EntryPlace, Refusal> {
        let reference = StringRef::new(number)?;
        Ok(EntryPlace(reference.0 as usize - 1))
    }
}

impl EntryPlace {
    // The reference number of an entry.
    pub(crate) fn reference(self) -> StringRef
        requires { self.0 < 16777215 }
        ensures { result ≡ ref_of self }
    {
        StringRef((self.0 + 1) as i32)
    }
}
