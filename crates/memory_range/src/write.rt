// Writing to a list.
ghost use Rattle.std.specs.Prelude.{◌≡◌, set};

// Puts a value at an index, where the list has one.
pub fn put<T: Copy>(list: &mut [T], at: usize, value: T)
    ensures { list.new ≡ set list.old at value }
{
    if at < list.len() {
        list[at] = value;
    }
}
