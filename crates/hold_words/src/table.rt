ghost use Rattle.std.specs.Prelude.{◌≡◌, ◌<◌, length, map, bytes_eq, IfSome, IfNone};
ghost use Rattle.hold_words.specs.Rows.{texts, upper, first_row, first_row_any_case, IsFirstRow, IsNoRow};

/// The rows of a table of `N` words, in their order. A table that lives as long as the program is a `const`.
#[derive(Clone, Copy, Debug)]
pub struct WordTable<const N: usize> {
    pub rows: &'static [&'static [u8]],
    ghost counted: { length rows.now ≡ N },
}

impl<const N: usize> WordTable<N> {
    /// The table of these rows.
    pub fn new(rows: &'static [&'static [u8]]) -> WordTable<N>
        requires { length rows.now ≡ N }
        ensures { result.rows.now ≡ rows.now }
    {
        WordTable { rows }
    }

    /// The place of the first row that is the word. Takes no memory.
    pub fn find(&self, word: &[u8]) -> Option<usize>
        ensures place { result ≡ first_row word.now (texts self.now.rows.now) }
        ensures below { IfSome result (λ i. i < N) }
        ensures found { IfSome result (IsFirstRow word.now (texts self.now.rows.now)) }
        ensures nowhere { IfNone result (IsNoRow word.now (texts self.now.rows.now)) }
    {
        place_of(self.rows, word)
    }

    /// The place of the first row that is the word after ASCII letters are made upper case on both sides.
    /// Takes no memory.
    pub fn find_any_case(&self, word: &[u8]) -> Option<usize>
        ensures place { result ≡ first_row_any_case word.now (texts self.now.rows.now) }
        ensures below { IfSome result (λ i. i < N) }
        ensures found { IfSome result (IsFirstRow (upper word.now) (map upper (texts self.now.rows.now))) }
        ensures nowhere { IfNone result (IsNoRow (upper word.now) (map upper (texts self.now.rows.now))) }
    {
        place_in_any_case(self.rows, word)
    }
}

fn place_of(rows: &[&[u8]], word: &[u8]) -> Option<usize>
    ensures place { result ≡ first_row word.now (texts rows.now) }
    ensures below { IfSome result (λ i. i < length rows.now) }
{
    for (i, row) in rows.iter().enumerate() {
        if *row == word {
            return Some(i);
        }
    }
    None
}

fn place_in_any_case(rows: &[&[u8]], word: &[u8]) -> Option<usize>
    ensures place { result ≡ first_row_any_case word.now (texts rows.now) }
    ensures below { IfSome result (λ i. i < length rows.now) }
{
    for (i, row) in rows.iter().enumerate() {
        if is_same_in_any_case(row, word) {
            return Some(i);
        }
    }
    None
}

fn is_same_in_any_case(a: &[u8], b: &[u8]) -> bool
    ensures { result ≡ bytes_eq (upper a.now) (upper b.now) }
{
    a.eq_ignore_ascii_case(b)
}
