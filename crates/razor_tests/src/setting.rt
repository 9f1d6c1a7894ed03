//! What a test calls the program on.
ghost use Rattle.std.specs.Prelude.{◌≡◌};

/// What a call is tried on: the list under `in`, as many bytes as a read gives at most, and the numbers of the read,
/// of the write and of the write on standard error that fail, 0 for none.
#[derive(Clone, Copy)]
pub struct Setting<'a> {
    pub list: &'a [u8],
    pub most: usize,
    pub failing_read: u64,
    pub failing_write: u64,
    pub failing_line: u64,
}

/// A setting in which nothing fails.
pub fn calm(list: &[u8]) -> Setting<'_>
    ensures list { result.list.now ≡ list.now }
    ensures reads { result.failing_read ≡ 0 }
    ensures writes { result.failing_write ≡ 0 }
    ensures lines { result.failing_line ≡ 0 }
{
    Setting {
        list,
        most: 65_536,
        failing_read: 0,
        failing_write: 0,
        failing_line: 0,
    }
}
