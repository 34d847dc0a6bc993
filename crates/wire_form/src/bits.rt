// Fields at bits of a word.
ghost use Rattle.std.specs.Prelude.{◌≡◌, ◌/◌, ◌%◌, ◌^◌, ◌<◌};
ghost use Rattle.wire_form.specs.Words.{flag};

/// The field of `count` bits that begins at bit `from`.
pub fn field(word: u64, from: u32, count: u32) -> u64
    requires within { from < 64 }
    requires narrow { count < 64 }
    ensures { result ≡ word / 2 ^ from % 2 ^ count }
{
    (word >> from) % (1 << count)
}

/// The flag at a bit.
pub fn flag_at(word: u64, from: u32) -> bool
    requires { from < 64 }
    ensures { flag result ≡ word / 2 ^ from % 2 }
{
    field(word, from, 1) == 1
}

/// A flag as a field of one bit.
pub fn flag(value: bool) -> u64
    ensures { result ≡ flag value }
{
    if value { 1 } else { 0 }
}
