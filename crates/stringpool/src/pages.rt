// An empty pool, and a pool with another code page.
ghost use Rattle.std.specs.Prelude.{◌≡◌};
ghost use Rattle.common.specs.Refusals.{answered};
ghost use Rattle.stringpool.specs.Pool.{rooms_of};
ghost use Rattle.stringpool.specs.Pages.{new_answer, page_answer, set_page_answer};

use crate::pool::StringPool;
use common::Refusal;
use order::page_fits;
use pool_entries::{Rooms, judge};

impl StringPool {
    // An empty pool with short references.
    pub fn new(codepage: u32) -> Result<StringPool, Refusal>
        ensures { answered result ≡ new_answer codepage }
    {
        let p = StringPool {
            num_strings: 0,
            long_string_refs: false,
            codepage: 0,
        };
        with_page(p, codepage)
    }

    // The pool with another code page.
    pub fn set_codepage(self, rooms: Rooms<'_, '_>, codepage: u32) -> Result<StringPool, Refusal>
        ensures { answered result ≡ set_page_answer self (rooms_of rooms.entry) codepage }
    {
        judge(self.num_strings, self.codepage, rooms)?;
        with_page(self, codepage)
    }
}

// The same, whatever the pool.
fn with_page(p: StringPool, codepage: u32) -> Result<StringPool, Refusal>
    ensures { answered result ≡ page_answer p codepage }
{
    page_fits(codepage)?;
    Ok(StringPool { codepage, ..p })
}
