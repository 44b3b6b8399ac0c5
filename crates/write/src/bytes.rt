// Bytes as they are.
ghost use Rattle.std.specs.Prelude.{◌≡◌, [], ◌∷◌};
ghost use Rattle.write.specs.Put.{written, put_at};

// One byte.
pub fn put(out: &mut [u8], at: usize, byte: u8) -> usize
    ensures { written out.new result ≡ put_at out.old at (byte ∷ []) }
{
    if at < out.len() {
        out[at] = byte;
        return at + 1;
    }
    at
}

// The bytes of a text.
pub fn put_bytes(out: &mut [u8], at: usize, text: &[u8]) -> usize
    ensures { written out.new result ≡ put_at out.old at text.now }
{
    let mut next = at;
    for byte in text {
        next = put(out, next, *byte);
    }
    next
}
