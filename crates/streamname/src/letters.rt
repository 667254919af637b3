// The 64 letters that are packed, and their numbers.
ghost use Rattle.std.specs.Prelude.{◌≡◌, ◌<◌};
ghost use Rattle.streamname.specs.Letters.{to_b64_lem, from_b64_lem};
ghost use Rattle.streamname.specs.inner.Packing.{letter_numbers};

// The letters in the order of their numbers. Both tables are statics: a constant array is laid down anew in each call that names it.
static LETTERS: [u8; 64] = *b"0123456789ABCDEFGHIJKLMNOPQRSTUVWXYZabcdefghijklmnopqrstuvwxyz._";

// The number of each unit below 128: 0 to 63 for a letter (digits, A-Z, a-z, '.' and '_'), 64 for any other.
static NUMBERS: [u8; 128] = [
    // 00 to 2D
    64, 64, 64, 64, 64, 64, 64, 64, 64, 64, 64, 64, 64, 64, 64, 64, 64, 64, 64, 64, 64, 64, 64, 64,
    64, 64, 64, 64, 64, 64, 64, 64, 64, 64, 64, 64, 64, 64, 64, 64, 64, 64, 64, 64, 64, 64,
    // '.'
    62,
    // 2F
    64,
    // 0 to 9
    0, 1, 2, 3, 4, 5, 6, 7, 8, 9,
    // 3A to 40
    64, 64, 64, 64, 64, 64, 64,
    // A to Z
    10, 11, 12, 13, 14, 15, 16, 17, 18, 19, 20, 21, 22, 23, 24, 25, 26, 27, 28, 29, 30, 31, 32, 33,
    34, 35,
    // 5B to 5E
    64, 64, 64, 64,
    // '_'
    63,
    // 60
    64,
    // a to z
    36, 37, 38, 39, 40, 41, 42, 43, 44, 45, 46, 47, 48, 49, 50, 51, 52, 53, 54, 55, 56, 57, 58, 59,
    60, 61,
    // 7B to 7F
    64, 64, 64, 64, 64,
];

#[tactic(auto, unfolding(crate::specs::Letters::letters, crate::specs::inner::Packing::letter_numbers))]
fn numbers() -> &'static [u8; 128]
    ensures { result.now ≡ letter_numbers }
{
    &NUMBERS
}

// The number of a letter. A unit past the table is tested for before the look-up, and never cut to fit.
#[tactic(auto, using(crate::proofs::LetterLaws::looked))]
pub(crate) fn to_b64(unit: u16) -> Option<u16>
    ensures { result ≡ to_b64_lem unit }
{
    if 127 < unit {
        return None;
    }
    let number = u16::from(numbers()[unit as usize]);
    if number < 64 { Some(number) } else { None }
}

// The letter of a number below 64.
#[tactic(auto, unfolding(crate::specs::Letters::letters))]
pub(crate) fn from_b64(six: u16) -> u16
    requires { six < 64 }
    ensures { result ≡ from_b64_lem six }
{
    u16::from(LETTERS[six as usize])
}
