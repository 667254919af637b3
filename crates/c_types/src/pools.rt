// The answers of the calls on pools.
ghost use Rattle.std.specs.Prelude.{◌≡◌};
ghost use Rattle.c_types.specs.Answers.{told_as};
ghost use Rattle.common.specs.declared.string_ref.StringRef.{StringRef};
ghost use Rattle.stringpool.specs.Take.{taken_of};
ghost use Rattle.c_types.specs.Pools.{pool_told, taken_told, reference_told};

use crate::answers::{PoolAnswer, Reference, Refused, TakeAnswer, halves};
use stringpool::{StringPool, StringRef, Taken};

// What stands for a pool where none is given.
pub(crate) const NO_POOL: StringPool = StringPool {
    num_strings: 0,
    codepage: 0,
    long_string_refs: false,
};

impl From<Result<StringPool, Refused>> for PoolAnswer {
    ghost from_gives = { λ a c. c ≡ pool_told a };

    fn from(answer: Result<StringPool, Refused>) -> PoolAnswer {
        let (refused, pool) = halves(answer, NO_POOL);
        PoolAnswer { refused, pool }
    }
}

impl From<Result<Taken, Refused>> for TakeAnswer {
    ghost from_gives = { λ a c. c ≡ taken_told (told_as taken_of a) };

    fn from(answer: Result<Taken, Refused>) -> TakeAnswer {
        let nothing = Taken {
            reference: StringRef(0),
            pool: NO_POOL,
        };
        let (refused, taken) = halves(answer, nothing);
        TakeAnswer {
            refused,
            pool: taken.pool,
            reference: taken.reference.0,
        }
    }
}

impl From<Result<i32, Refused>> for Reference {
    ghost from_gives = { λ a c. c ≡ reference_told a };

    fn from(answer: Result<i32, Refused>) -> Reference {
        let (refused, value) = halves(answer, 0);
        Reference { refused, value }
    }
}

impl From<Result<StringRef, Refused>> for Reference {
    ghost from_gives = { λ a c. c ≡ reference_told (told_as (λ (r : StringRef). r.0) a) };

    fn from(answer: Result<StringRef, Refused>) -> Reference {
        Reference::from(answer.map(|reference| reference.0))
    }
}
