// Words of a text, by places. A place past the end reads 0, and what has no room is not stored, so that nothing here depends on how
// the text was made.
ghost use Rattle.std.specs.Prelude.{◌≡◌, length, take, drop, ◌+◌, ◌*◌, ◌≤◌, ◌<◌};
ghost use Rattle.commands.specs.Words.{byte_at, rank_of, rank_in, end_number, ends_at, run, end_of, after_end, digit_of, pair_at, pairs_in, times_at_lem, product, bytes_at, bytes_outcome, digits_at, count_at_lem, signed_at, is_none, word_at, IsPlace};

// How far a reading goes: to a colon, to the mark of a repetition, to the end of the item of a list, of the word, of the line. Each
// ends where those after it end, too.
#[derive(Clone, Copy, PartialEq, Eq, PartialOrd, Ord)]
pub enum End {
    Kind,
    Times,
    Item,
    Word,
    Line,
}

impl End {
    // What a byte ends at most.
    fn at(b: u8) -> Option<End>
        ensures { rank_in result ≡ rank_of b }
    {
        match b {
            b'\n' => Some(End::Line),
            b' ' => Some(End::Word),
            b',' => Some(End::Item),
            b'*' => Some(End::Times),
            b':' => Some(End::Kind),
            _ => None,
        }
    }

    fn is_at(self, b: u8) -> bool
        ensures { result ≡ ends_at (end_number self) b }
    {
        match End::at(b) {
            Some(end) => self <= end,
            None => false,
        }
    }

    // How many bytes of a text come before it.
    fn run(self, text: &[u8]) -> usize
        ensures value { result ≡ run (end_number self) text.now }
        ensures within { result ≤ length text.now }
    {
        text.iter().take_while(|b| !self.is_at(**b)).count()
    }
}

// A place in a text.
#[derive(Clone, Copy)]
pub struct Words<'a> {
    pub text: &'a [u8],
    pub at: usize,
}

impl<'a> Words<'a> {
    // What stands from here on.
    fn rest(self) -> &'a [u8]
        ensures { result.now ≡ drop self.entry.at self.entry.text.now }
    {
        &self.text[self.at.min(self.text.len())..]
    }

    pub fn byte(self) -> u8
        ensures { result ≡ byte_at self.entry.text.now self.entry.at }
    {
        self.text.get(self.at).copied().unwrap_or(0)
    }

    // Where what begins here ends.
    pub fn end(self, upto: End) -> Words<'a>
        ensures { IsPlace result self.entry (end_of self.entry.text.now self.entry.at (end_number upto)) }
    {
        let length = upto.run(self.rest());
        Words {
            at: self.at + length,
            ..self
        }
    }

    // The place after an end.
    pub fn after(self) -> Words<'a>
        ensures { IsPlace result self.entry (after_end self.entry.text.now self.entry.at) }
    {
        if self.at < self.text.len() {
            return Words {
                at: self.at + 1,
                ..self
            };
        }
        self
    }

    // The next word.
    pub fn next(self) -> Words<'a>
        ensures { IsPlace result self.entry (after_end self.entry.text.now (end_of self.entry.text.now self.entry.at 4)) }
    {
        self.end(End::Word).after()
    }

    // The word here.
    pub fn word(self) -> &'a [u8]
        ensures { result.now ≡ word_at self.entry.text.now self.entry.at }
    {
        front(self.rest(), self.end(End::Word).at - self.at)
    }

    // Whether the word here is `-`, and not the sign of a number.
    pub fn is_none(self) -> bool
        ensures { result ≡ is_none self.entry.text.now self.entry.at }
    {
        self.byte() == b'-' && self.after().at == self.end(End::Word).at
    }

    // The decimal number here; 0 where it is 10,000,000,000 or more.
    pub fn number(self) -> u64
        ensures { result ≡ digits_at self.entry.text.now self.entry.at }
    {
        let mut sum = 0;
        let rest = self.rest();
        for b in rest {
            if !b.is_ascii_digit() {
                return sum;
            }
            if sum > 999_999_999 {
                return 0;
            }
            sum = sum * 10 + (*b - b'0') as u64;
        }
        sum
    }

    // A number that is not signed; 0 where 32 bits do not hold it.
    pub fn count(self) -> u32
        ensures { result ≡ count_at_lem self.entry.text.now self.entry.at }
    {
        u32::try_from(self.number()).unwrap_or(0)
    }

    // The signed number here; 0 where 32 bits do not hold it.
    pub fn signed(self) -> i32
        ensures { result ≡ signed_at self.entry.text.now self.entry.at }
    {
        if self.byte() == b'-' {
            return i32::try_from(-i64::from(self.after().count())).unwrap_or(0);
        }
        i32::try_from(self.count()).unwrap_or(0)
    }

    // How often what ends here stands: the number behind a star, or once.
    pub(crate) fn times(self) -> u64
        ensures { result ≡ times_at_lem self.entry.text.now self.entry.at }
    {
        if self.byte() == b'*' {
            return self.after().number();
        }
        1
    }

    // How many bytes the digits from here to `to` are; `-` is none.
    fn pairs(self, to: usize) -> usize
        ensures { result ≡ pairs_in self.entry.text.now self.entry.at to }
    {
        if self.byte() == b'-' {
            return 0;
        }
        to.saturating_sub(self.at) / 2
    }

    // The byte of two hexadecimal digits, `k` such pairs after this place.
    fn pair(self, k: usize) -> u8
        requires { self.at + 2 * k + 1 < 18446744073709551616 }
        ensures { result ≡ pair_at self.entry.text.now self.entry.at k }
    {
        let high = Words {
            at: self.at + 2 * k,
            ..self
        };
        let low = Words {
            at: high.at + 1,
            ..self
        };
        digit(high.byte()) * 16 + digit(low.byte())
    }

    // How many bytes a word of hexadecimal digits has, `HEX` or `HEX*N`.
    pub fn bytes_len(self) -> usize
        ensures { result ≡ bytes_at self.entry.text.now self.entry.at }
    {
        let end = self.end(End::Times);
        product(self.pairs(end.at), end.times())
    }

    // The bytes of a word of hexadecimal digits, `HEX` or `HEX*N`, as many as there is room for: how many those are.
    pub fn bytes_in(self, out: &mut [u8]) -> usize
        ensures { (result, out.new) ≡ bytes_outcome self.entry.text.now self.entry.at out.old }
    {
        let end = self.end(End::Times);
        let once = self.pairs(end.at);
        let n = out.len().min(product(once, end.times()));
        for k in 0..n {
            out[k] = self.pair(k % once);
        }
        n
    }
}

// A small digit's number, 0 for any other byte: `to_digit` takes capitals too.
fn digit(b: u8) -> u8
    ensures { (result ≡ digit_of b) × (result ≤ 15) }
{
    match b {
        b'0'..=b'9' => b - b'0',
        b'a'..=b'f' => b - b'a' + 10,
        _ => 0,
    }
}

// 0 where one of the two has more than 32 bits.
pub fn product(a: usize, b: u64) -> usize
    ensures { result ≡ product a b }
{
    if a > 4_294_967_295 || b > 4_294_967_295 {
        return 0;
    }
    a * b as usize
}

// The first `n` of a list; all of it where it has fewer.
pub fn front<T>(list: &[T], n: usize) -> &[T]
    ensures { result.now ≡ take n list.now }
{
    &list[..n.min(list.len())]
}
