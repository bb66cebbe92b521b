//! Rows of numbers over denominators of their own.
ghost use Rattle.std.specs.Prelude.{◌≡◌, ℕ, ◌+◌, ◌-◌, ◌*◌, take, drop, ◌*ℤ◌, ◌^◌, ◌<◌, ◌≤◌, ℤ, pos, ◌<ℤ◌, length, replicate, IfOk, IsTrue, IsFalse, unsigned_abs};
ghost use Rattle.md_math.specs.Sizes.{AllWithin, IsWithin};
ghost use Rattle.md_math.specs.Lists.{number_at};
ghost use Rattle.md_math.specs.Divisors.{Divides};
ghost use Rattle.md_dict_rows.specs.LeastRows.{IsRowSize};

use md_dict_rows::row_size;
use md_num::NoMemory;
use std::alloc::Global;

// The kept numbers of a dictionary, row by row. Each row stands over a denominator of its own, in least terms; its share is what that denominator is multiplied by to give the denominator of the dictionary. The size of a row is that of its greatest number.
#[derive(Drop)]
pub struct Rows {
    pub width: usize,
    pub numbers: Vec<i64>,
    pub dens: Vec<i64>,
    pub shares: Vec<i64>,
    pub sizes: Vec<i64>,
}

impl Rows {
    ghost use Rattle.md_dict.specs.Rows.{AreRows, kept_of, own_number, share_of, size_of};

    // The number of a row at a place, over the row's denominator.
    pub fn own(&self, row: usize, place: usize) -> i64
        requires { row * self.now.width + place < length self.now.numbers.items }
        ensures { result ≡ own_number self.now row place }
    {
        self.numbers[row * self.width + place]
    }

    // The numbers of a row, over the row's denominator.
    pub fn row(&self, row: usize) -> &[i64]
        requires { row * self.now.width + self.now.width ≤ length self.now.numbers.items }
        ensures { result.now ≡ take (row * self.now.width + self.now.width - row * self.now.width) (drop (row * self.now.width) self.now.numbers.items) }
    {
        let start = row * self.width;
        &self.numbers[start..start + self.width]
    }

    // The size of a row's greatest number.
    pub fn size(&self, row: usize) -> u64
        requires { row < length self.now.sizes.items }
        ensures { result ≡ unsigned_abs (size_of self.now row) }
    {
        self.sizes[row].unsigned_abs()
    }

    // The number of a row at a place, over the denominator of all rows.
    pub fn number(&self, row: usize, place: usize) -> i128
        requires inside { row * self.now.width + place < length self.now.numbers.items }
        requires row { row < length self.now.shares.items }
        requires numbers { AllWithin (2 ^ 62) self.now.numbers.items }
        requires shares { AllWithin (2 ^ 62) self.now.shares.items }
        ensures value { result ≡ share_of self.now row *ℤ own_number self.now row place }
        ensures size { unsigned_abs result < 2 ^ 126 }
    {
        i128::from(self.shares[row]) * i128::from(self.own(row, place))
    }

    // Rows of whole numbers: each denominator is 1.
    pub fn whole(
        alloc: Global,
        count: usize,
        width: usize,
        numbers: Vec<i64>,
    ) -> Result<Rows, NoMemory>
        requires count { count ≤ 8194 }
        requires width { width ≤ 73729 }
        requires length { length numbers.items ≡ count * width }
        requires size { AllWithin (2 ^ 62) numbers.items }
        ensures rows { IfOk result (λ rows. AreRows count (pos 1) rows) }
        ensures width { IfOk result (λ rows. rows.width ≡ width) }
        ensures kept { IfOk result (λ rows. kept_of count rows ≡ numbers.items) }
    {
        let dens = filled(alloc, count, 1)?;
        let shares = filled(alloc, count, 1)?;
        let sizes = row_sizes(alloc, numbers.as_slice(), count, width)?;
        Ok(Rows {
            width,
            numbers,
            dens,
            shares,
            sizes,
        })
    }
}

// A list of one number.
pub fn filled(alloc: Global, count: usize, number: i64) -> Result<Vec<i64>, NoMemory>
    ensures { IfOk result (λ list. list.items ≡ replicate count number) }
{
    let mut list = Vec::with_capacity(alloc, count)?;
    list.resize(count, number)?;
    Ok(list)
}

// The sizes of the rows' greatest numbers.
fn row_sizes(
    alloc: Global,
    numbers: &[i64],
    count: usize,
    width: usize,
) -> Result<Vec<i64>, NoMemory>
    requires count { count ≤ 8194 }
    requires width { width ≤ 73729 }
    requires length { length numbers.now ≡ count * width }
    requires size { AllWithin (2 ^ 62) numbers.now }
    ensures length { IfOk result (λ sizes. length sizes.items ≡ count) }
    ensures sizes { IfOk result (λ sizes. (i : ℕ) → i < count → IsRowSize width (λ s. number_at numbers.now (i * width + s)) (number_at sizes.items i)) }
{
    let mut sizes = Vec::with_capacity(alloc, count)?;
    for row in 0..count {
        sizes.push(row_size(numbers, width, row))?;
    }
    Ok(sizes)
}
