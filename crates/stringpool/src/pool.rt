// A pool by value, as C has it too. Its lengths, counts and texts are lent to each call.
#[repr(C)]
#[derive(Clone, Copy)]
pub struct StringPool {
    pub num_strings: usize,
    pub codepage: u32,
    pub long_string_refs: bool,
}
