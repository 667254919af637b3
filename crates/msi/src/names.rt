// Stream names.
ghost use Rattle.std.specs.Prelude.{◌≡◌};
ghost use Rattle.streamname.specs.Calls.{encode_outcome, decode_outcome, valid_answer};
ghost use Rattle.c_types.specs.Answers.{count_in, name_in, flag_in, answered_as};

use c_types::answers::{Count, Flag, Name, told};

#[unsafe(no_mangle)]
pub extern "C" fn strandroost_encode(name: &[u16], is_table: bool, out: &mut [u16]) -> Count
    ensures { (result, out.new) ≡ answered_as count_in (encode_outcome name.now is_table out.old) }
{
    Count::from(told(streamname::encode(name, is_table, out)))
}

#[unsafe(no_mangle)]
pub extern "C" fn strandroost_decode(stored: &[u16], out: &mut [u16]) -> Name
    ensures { (result, out.new) ≡ answered_as name_in (decode_outcome stored.now out.old) }
{
    Name::from(told(streamname::decode(stored, out)))
}

#[unsafe(no_mangle)]
pub extern "C" fn strandroost_is_valid(name: &[u16], is_table: bool) -> Flag
    ensures { result ≡ flag_in (valid_answer name.now is_table) }
{
    Flag::from(told(streamname::is_valid(name, is_table)))
}
