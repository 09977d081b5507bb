// What stands at a position of a text: the theorems speak of positions in the whole input, and so does each test here.
ghost use Rattle.std.specs.Prelude.{◌≡◌, ◌+◌, get_or};
ghost use Rattle.card.specs.Parse.{key_at};

// What is read at a position, and where the rest starts.
#[derive(Clone, Copy)]
pub struct Found<T> {
    pub value: T,
    pub next: usize,
}

// The byte j places behind a position, and 0 past the end.
pub fn byte_at(text: &[u8], at: usize, j: usize) -> u8
    ensures { result ≡ get_or text.now (at + j) 0 }
{
    match at.checked_add(j) {
        Some(place) => text.get(place).copied().unwrap_or(0),
        None => 0,
    }
}

// Do the bytes of a key stand at a position?
pub fn key_at(key: &[u8], text: &[u8], at: usize) -> bool
    ensures { result ≡ key_at key.now text.now at }
{
    key.iter()
        .enumerate()
        .all(|(j, byte)| byte_at(text, at, j) == *byte)
}
