// Lists of a fixed length, by the numbers of their elements.
ghost use Rattle.std.specs.Prelude.{◌≡◌, slice_set};

// Replaces one element of the list, and none past its last.
pub fn replace<T: Copy, const N: usize>(list: &mut [T; N], index: u8, value: T)
    ensures { list.new ≡ slice_set list.old index value }
{
    if (index as usize) < N {
        list[index as usize] = value;
    }
}

// The list with one element replaced; unchanged past its last element.
pub fn replaced<T: Copy, const N: usize>(list: [T; N], index: u8, value: T) -> [T; N]
    ensures { result ≡ slice_set list index value }
{
    let mut replaced = list;
    replace(&mut replaced, index, value);
    replaced
}
