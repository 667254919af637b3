// Adler-32.
pub(crate) fn adler(list: &[u8]) -> usize {
    let mut a: u32 = 1;
    let mut b: u32 = 0;
    for byte in list {
        a = (a + u32::from(*byte)) % 65521;
        b = (b + a) % 65521;
    }
    (b * 65536 + a) as usize
}
