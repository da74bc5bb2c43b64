// Words: fixed byte strings that a field is compared with.
ghost use Rattle.std.specs.Prelude.{◌≡◌};
ghost use Rattle.plan_fields.specs.Word.{same_bytes, value_by};

// Whether the two have the same bytes in the same order.
pub fn same_bytes(field: &[u8], word: &[u8]) -> bool
    ensures { result ≡ same_bytes field.now word.now }
{
    field == word
}

// What a field stands for, by a table of words and their values.
pub fn word_value<T: Copy>(field: &[u8], words: &[(&[u8], T)]) -> Option<T>
    ensures { result ≡ value_by words.now field.now }
{
    for (word, value) in words {
        if same_bytes(field, word) {
            return Some(*value);
        }
    }
    None
}
