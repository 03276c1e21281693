// Parts of a buffer.
ghost use Rattle.std.specs.Prelude.{◌≡◌, length};

// As many of the bytes as are counted, at most all.
pub fn front(count: usize, bytes: &[u8]) -> &[u8] {
    bytes.get(..count).unwrap_or(bytes)
}

// The bytes from a place on, if there are any.
pub(crate) fn behind(at: usize, bytes: &[u8]) -> &[u8] {
    bytes.get(at..).unwrap_or(&[])
}

// Space for a piece of the text, or for a block's values, outputs or lines: at most 1,024 lines of 193 bytes.
pub(crate) fn space() -> [u8; 262144]
    ensures { 262144 ≡ length result }
{
    [0; 262144]
}
