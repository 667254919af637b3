// Signed numbers of the command language.
ghost use Rattle.std.specs.Prelude.{◌≡◌, IfOk, OnOk};
ghost use Rattle.std.specs.Io.KnownBytes.{Appends};
ghost use Rattle.std.specs.Fmt.{signed_decimal};

use std::io;
use std::io::Write;

pub fn show<W: Write>(w: &mut W, n: i32) -> io::Result<()>
    ensures answers { IfOk result (λ u. u ≡ tt) }
    ensures written { OnOk result (Appends (W.contents w.old) (W.contents w.new) (signed_decimal n)) }
{
    write!(w, "{n}")
}
