//! The greatest size of numbers.
ghost use Rattle.std.specs.Prelude.{◌≡◌, ◌+◌, ◌*◌, ◌<◌, ◌≤◌, ◌^◌, length, slice_set};
ghost use Rattle.md_math.specs.Lists.{number_at};
ghost use Rattle.md_math.specs.Sizes.{AllWithin, IsWithin};
ghost use Rattle.md_dict_rows.specs.Reduce.{IsGreatestSize};
ghost use Rattle.md_dict_rows.specs.LeastRows.{IsRowSize};

// The greatest size of numbers.
pub fn greatest_size(numbers: &[i64]) -> u64
    requires { AllWithin (2 ^ 62) numbers.now }
    ensures greatest { IsGreatestSize (length numbers.now) numbers.now result }
    ensures size { result ≤ 2 ^ 62 }
{
    let mut greatest = 0u64;
    for x in numbers {
        greatest = greatest.max(x.unsigned_abs());
    }
    greatest
}

// Writes a number at a place, and answers the greatest size, given that of before. Where 0 stood there, it counted for nothing.
pub fn write_at(numbers: &mut [i64], place: usize, number: i64, greatest: u64) -> u64
    requires place { place < length numbers.old }
    requires numbers { AllWithin (2 ^ 62) numbers.old }
    requires number { IsWithin (2 ^ 62) number }
    requires greatest { IsGreatestSize (length numbers.old) numbers.old greatest }
    ensures numbers { numbers.new ≡ slice_set numbers.old place number }
    ensures greatest { IsGreatestSize (length numbers.old) numbers.new result }
{
    let before = numbers[place];
    numbers[place] = number;
    if before != 0 {
        return greatest_size(numbers);
    }
    greatest.max(number.unsigned_abs())
}

/// The size of a row's greatest number, of rows of one width.
pub fn row_size(numbers: &[i64], width: usize, row: usize) -> i64
    requires rows { row * width + width ≤ length numbers.now }
    requires numbers { AllWithin (2 ^ 62) numbers.now }
    ensures { IsRowSize width (λ s. number_at numbers.now (row * width + s)) result }
{
    let start = row * width;
    greatest_size(&numbers[start..start + width]) as i64
}
