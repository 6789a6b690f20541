ghost use Rattle.std.specs.Prelude.{◌≤◌, length};

/// A text that a reader takes: no longer than the longest label.
#[derive(Clone, Copy)]
pub struct Text<'a> {
    pub bytes: &'a [u8],
    ghost short: { length bytes.now ≤ 128 },
}
