// The numbers of a list with spaces between them, for the programs that read their cases from a table.
ghost use Rattle.std.specs.Prelude.{◌≡◌, ◌≤◌, IfOk, length, take, vec_len};

use std::alloc::{AllocError, Global};

// The numbers up to the first that is none, and so many at most. By the crate `number`, whose numbers these are: std's `parse` refuses some of them.
pub fn collect_numbers(alloc: Global, list: &[u8], most: usize) -> Result<Vec<u32>, AllocError>
    ensures { IfOk result (λ numbers. vec_len numbers ≤ most) }
{
    list.split(|b| *b == b' ')
        .map_while(number::parse_u32)
        .take(most)
        .collect(alloc)
}

// Reads the numbers up to the first that is none, as many as there is room for: how many there are.
pub fn read_numbers(list: &[u8], numbers: &mut [u32]) -> usize
    ensures { result ≤ length numbers.new }
{
    let mut read = list.split(|b| *b == b' ').map_while(number::parse_u32);
    for (at, number) in numbers.iter_mut().enumerate() {
        let Some(value) = read.next() else {
            return at;
        };
        *number = value;
    }
    numbers.len()
}

// The first n of the numbers, or all.
pub fn first(numbers: &[u32], n: usize) -> &[u32]
    ensures { result.now ≡ take n numbers.now }
{
    numbers.get(..n).unwrap_or(numbers)
}
