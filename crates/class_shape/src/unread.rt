ghost use Rattle.std.specs.Prelude.{◌≤◌, length};

/// Bytes that are left to read, and the place in the file where they end.
#[derive(Clone, Copy)]
pub struct Unread<'a> {
    pub end: u32,
    pub bytes: &'a [u8],
    ghost within: { length bytes.now ≤ end },
}
