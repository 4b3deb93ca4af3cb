// A word of the bale file: its kind in bits 31 to 29, its fields below.
ghost use Rattle.std.specs.Prelude.{◌≡◌, ◌^◌};
ghost use Rattle.definition.specs.BaleFile.{word_of, word_kind, field_width, clean_word, may_follow};

// Four bytes, the lowest first.
pub fn word_of(a: u8, b: u8, c: u8, d: u8) -> u32
    ensures { result ≡ word_of a b c d }
{
    u32::from_le_bytes([a, b, c, d])
}

pub fn kind_of(word: u32) -> u32
    ensures { result ≡ word_kind word }
{
    word / 536870912
}

// Whether a kind may come after another one, which is 0 before the first word.
pub fn may_follow(before: u32, kind: u32) -> bool
    ensures { result ≡ may_follow before kind }
{
    match before {
        0 => kind == 1,
        1 => kind == 2,
        2 => kind == 3 || kind == 7,
        3 | 4 => 4 <= kind && kind <= 6,
        5 => 5 <= kind && kind <= 6,
        7 => kind == 3,
        _ => false,
    }
}

// One more than the largest number that the fields of a kind hold.
fn field_limit(kind: u32) -> u32
    ensures { result ≡ 2 ^ field_width kind }
{
    if kind == 1 {
        return 1048576;
    }
    if kind == 2 {
        return 2048;
    }
    if kind == 3 {
        return 2048;
    }
    if kind == 4 {
        return 32768;
    }
    if kind == 5 {
        return 1048576;
    }
    if kind == 7 {
        return 1024;
    }
    1
}

// Whether no bit is set outside the fields.
pub fn is_clean(word: u32) -> bool
    ensures { result ≡ clean_word word }
{
    let kind = kind_of(word);
    word % 536870912 < field_limit(kind)
}
