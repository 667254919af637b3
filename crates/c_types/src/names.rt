// The answer of the call that decodes a stream name.
ghost use Rattle.std.specs.Prelude.{◌≡◌};
ghost use Rattle.c_types.specs.Answers.{told_as, name_parts, name_told};

use crate::answers::{Name, Refused, halves};
use streamname::Decoded;

impl From<Result<Decoded, Refused>> for Name {
    ghost from_gives = { λ a c. c ≡ name_told (told_as name_parts a) };

    fn from(answer: Result<Decoded, Refused>) -> Name {
        let nothing = Decoded {
            units: 0,
            is_table: false,
        };
        let (refused, decoded) = halves(answer, nothing);
        Name {
            refused,
            units: decoded.units,
            is_table: decoded.is_table,
        }
    }
}
