//! The certificate that the last dictionary of a path gives.
ghost use Rattle.std.specs.Prelude.{◌≡◌, ℕ, ◌+◌, ◌^◌, ◌<◌, ℤ, pos, ◌*ℤ◌, ◌<ℤ◌, neg_ℤ, length, IfOk, IfSome};
ghost use Rattle.md_math.specs.Divisors.{Divides, IsGcdOf};
ghost use Rattle.md_math.specs.Lists.{list_to, number_at};
ghost use Rattle.md_math.specs.Sizes.{IsWithin, AllWithin};
ghost use Rattle.md_lp.specs.Program.{row_count};
ghost use Rattle.md_lp.specs.Divided.{IsDivisorFor};
ghost use Rattle.md_dict.specs.Condensed.{Holds, IsShapedDictionary, basic_at, entry_at};
ghost use Rattle.md_dict.specs.FirstTable.{sign_at};
ghost use Rattle.md_cert.specs.Certified.{Certified};
ghost use Rattle.md_cert.specs.Fitting.{Fits};
ghost use Rattle.md_simplex.specs.Rules.{HasNoRow};
ghost use Rattle.md_simplex.specs.Reading.{IsAtBasis, face_multiplier, main_multiplier, with_den, IsReadList, IsReadOver, IsPointReading, IsBoundReading, IsRayReading, IsReading, HasRightSides, IsLast};
ghost use Rattle.md_simplex.specs.ReadingSteps.{AreQuotients, IsPut, basic_number_at};

use crate::step::Step;
use md_cert::{Bound, Certificate};
use md_dict::Dict;
use md_lp::Lp;
use md_num::{NoMemory, Nums, exact_quotient, gcd};
use std::alloc::Global;

// Numbers over one denominator.
#[derive(Drop)]
struct Fractions {
    den: i128,
    numbers: Nums,
}

// ---- least terms

// The greatest common divisor of a number and of those of a list.
fn common_divisor(first: i128, numbers: &[i128]) -> i128
    requires first { IsWithin (2 ^ 62) first }
    requires sizes { AllWithin (2 ^ 62) numbers.now }
    ensures { IsGcdOf (length numbers.now + 1) (with_den first (number_at numbers.now)) result }
{
    let mut common = gcd(0, first);
    for number in numbers {
        common = gcd(common, *number);
    }
    common
}

// The number by which numbers with this greatest common divisor are divided: zeros stay.
fn divisor_from(common: i128) -> i128
    ensures { (n : ℕ) (f : ℕ → ℤ) → IsGcdOf n f common → IsDivisorFor n f result }
{
    if common == 0 { 1 } else { common }
}

// The numbers, each divided.
fn quotients(alloc: Global, numbers: &[i128], by: i128) -> Result<Nums, NoMemory>
    requires positive { pos 0 <ℤ by }
    requires exact { (k : ℕ) → k < length numbers.now → Divides by (number_at numbers.now k) }
    requires sizes { AllWithin (2 ^ 62) numbers.now }
    ensures { IfOk result (AreQuotients (length numbers.now) by (number_at numbers.now)) }
{
    let mut divided = Nums::new(alloc);
    for number in numbers {
        divided.push(exact_quotient(*number, by))?;
    }
    Ok(divided)
}

// A list, divided by the greatest common divisor of its numbers.
fn reduced(alloc: Global, numbers: &[i128]) -> Result<Nums, NoMemory>
    requires { AllWithin (2 ^ 62) numbers.now }
    ensures { IfOk result (IsReadList (length numbers.now) (number_at numbers.now)) }
{
    let by = divisor_from(common_divisor(0, numbers));
    quotients(alloc, numbers, by)
}

// A list over a denominator, both divided by the greatest common divisor of all these numbers.
fn reduced_over(alloc: Global, den: i128, numbers: &[i128]) -> Result<Fractions, NoMemory>
    requires positive { pos 0 <ℤ den }
    requires den { IsWithin (2 ^ 62) den }
    requires sizes { AllWithin (2 ^ 62) numbers.now }
    ensures { IfOk result (λ fractions. IsReadOver (length numbers.now) den (number_at numbers.now) fractions.den fractions.numbers) }
{
    let by = common_divisor(den, numbers);
    Ok(Fractions {
        den: exact_quotient(den, by),
        numbers: quotients(alloc, numbers, by)?,
    })
}

// ---- points and rays

// Writes a number at a place of a list, if it is as long.
fn put(numbers: &mut Vec<i128>, place: u32, x: i128)
    ensures { IsPut place x numbers.old.items numbers.new.items }
{
    if (place as usize) < numbers.len() {
        numbers[place as usize] = x;
    }
}

// Minus a number.
fn negated(x: i128) -> i128
    requires { IsWithin (2 ^ 62) x }
    ensures value { result ≡ neg_ℤ x }
    ensures size { IsWithin (2 ^ 62) result }
{
    -x
}

// What a basic column has by its row: the right side, or minus the entry in the column along which a ray goes.
fn basic_number(dict: &Dict, row: u32, along: Option<u32>) -> i128
    requires row { row < dict.now.rows }
    requires along { IfSome along (λ column. column < dict.now.columns) }
    ensures value { result ≡ basic_number_at dict.now.rows dict.now.columns (entry_at dict.now) along row }
    ensures size { IsWithin (2 ^ 62) result }
{
    let right = dict.columns() + dict.rows();
    match along {
        None => dict.entry(row, right),
        Some(column) => negated(dict.entry(row, column)),
    }
}

// These numbers at the basic ones of the first columns, and 0 at the others.
fn basic_numbers(
    alloc: Global,
    columns: u32,
    dict: &Dict,
    along: Option<u32>,
) -> Result<Vec<i128>, NoMemory>
    requires { IfSome along (λ column. column < dict.now.columns) }
    ensures value { IfOk result (λ numbers. IsAtBasis columns dict.now.rows (basic_at dict.now) (basic_number_at dict.now.rows dict.now.columns (entry_at dict.now) along) (number_at numbers.items)) }
    ensures length { IfOk result (λ numbers. length numbers.items ≡ columns) }
    ensures size { IfOk result (λ numbers. AllWithin (2 ^ 62) numbers.items) }
    ensures shape { IsShapedDictionary dict.now }
{
    let rows = dict.rows();
    let mut numbers = vec![in alloc; 0; columns as usize]?;
    for row in 0..rows {
        let number = basic_number(dict, row, along);
        put(&mut numbers, dict.basic(row), number);
    }
    Ok(numbers)
}

// ---- multipliers

// A number times the sign of a row: minus where the row's right side is negative.
fn signed(lp: &Lp, row: u32, x: i128) -> i128
    requires row { row < row_count lp.now }
    requires size { IsWithin (2 ^ 62) x }
    ensures value { result ≡ sign_at lp.now row *ℤ x }
    ensures size { IsWithin (2 ^ 62) result }
{
    if lp.right(row) < 0 { -x } else { x }
}

// The multiplier of a program row that a row of the dictionary gives.
fn multiplier(lp: &Lp, dict: &Dict, row: u32, of: u32) -> i128
    requires row { row < dict.now.rows + 2 }
    requires of { of < dict.now.rows }
    requires same { dict.now.rows ≡ row_count lp.now }
    ensures value { result ≡ sign_at lp.now of *ℤ entry_at dict.now row (dict.now.columns + of) }
    ensures size { IsWithin (2 ^ 62) result }
{
    let start = dict.columns() + of;
    signed(lp, of, dict.entry(row, start))
}

// The multipliers that a row of the dictionary gives, one for each program row.
fn multipliers(alloc: Global, lp: &Lp, dict: &Dict, row: u32) -> Result<Vec<i128>, NoMemory>
    requires row { row < dict.now.rows + 2 }
    requires same { dict.now.rows ≡ row_count lp.now }
    ensures value { IfOk result (λ numbers. numbers.items ≡ list_to dict.now.rows (λ k. sign_at lp.now k *ℤ entry_at dict.now row (dict.now.columns + k))) }
    ensures size { IfOk result (λ numbers. AllWithin (2 ^ 62) numbers.items) }
{
    let mut numbers = Vec::new(alloc);
    for of in 0..dict.rows() {
        let number = multiplier(lp, dict, row, of);
        numbers.push(number)?;
    }
    Ok(numbers)
}

// ---- the parts of a certificate

// The point of a dictionary, in least terms.
fn point_of(alloc: Global, lp: &Lp, dict: &Dict) -> Result<Fractions, NoMemory>
    requires { Holds lp.now dict.now }
    ensures point { IfOk result (λ point. IsPointReading lp.now (basic_at dict.now) dict.now.den (entry_at dict.now) point.den point.numbers) }
    ensures shape { IsShapedDictionary dict.now }
{
    let numbers = basic_numbers(alloc, lp.columns(), dict, None)?;
    reduced_over(alloc, dict.den(), numbers.as_slice())
}

// The ray along a column that no row bounds, in least terms.
fn ray_of(alloc: Global, lp: &Lp, dict: &Dict, column: u32) -> Result<Nums, NoMemory>
    requires holds { Holds lp.now dict.now }
    requires column { column < dict.now.columns }
    requires no_row { HasNoRow dict.now.rows (entry_at dict.now) column }
    ensures { IfOk result (IsRayReading lp.now (basic_at dict.now) dict.now.den (entry_at dict.now) column) }
{
    let mut numbers = basic_numbers(alloc, lp.columns(), dict, Some(column))?;
    put(&mut numbers, column, dict.den());
    reduced(alloc, numbers.as_slice())
}

// The face multipliers of a dictionary, in least terms.
fn face_of(alloc: Global, lp: &Lp, dict: &Dict) -> Result<Nums, NoMemory>
    requires { Holds lp.now dict.now }
    ensures face { IfOk result (IsReadList (row_count lp.now) (face_multiplier lp.now (entry_at dict.now))) }
    ensures shape { IsShapedDictionary dict.now }
{
    let numbers = multipliers(alloc, lp, dict, dict.rows())?;
    reduced(alloc, numbers.as_slice())
}

// The main multipliers of a dictionary over its denominator, in least terms.
fn main_of(alloc: Global, lp: &Lp, dict: &Dict) -> Result<Fractions, NoMemory>
    requires { Holds lp.now dict.now }
    ensures { IfOk result (λ main. IsReadOver (row_count lp.now) dict.now.den (main_multiplier lp.now (entry_at dict.now)) main.den main.numbers) }
{
    let numbers = multipliers(alloc, lp, dict, dict.rows() + 1)?;
    reduced_over(alloc, dict.den(), numbers.as_slice())
}

// The multipliers of a dictionary.
fn bound_of(alloc: Global, lp: &Lp, dict: &Dict) -> Result<Bound, NoMemory>
    requires { Holds lp.now dict.now }
    ensures { IfOk result (IsBoundReading lp.now dict.now.den (entry_at dict.now)) }
{
    let main = main_of(alloc, lp, dict)?;
    let face = face_of(alloc, lp, dict)?;
    Ok(Bound {
        den: main.den,
        main: main.numbers,
        face,
    })
}

// ---- the certificate

// The certificate that a dictionary gives where the path ends by this step.
fn read(alloc: Global, lp: &Lp, dict: &Dict, step: Step) -> Result<Certificate, NoMemory>
    requires holds { Holds lp.now dict.now }
    requires last { IsLast dict.now.rows dict.now.columns (entry_at dict.now) step }
    ensures reading { IfOk result (IsReading lp.now (basic_at dict.now) dict.now.den (entry_at dict.now) step) }
    ensures shape { IsShapedDictionary dict.now }
{
    match step {
        Step::Pivot(_) => unreachable!(),
        Step::Infeasible => {
            let face = face_of(alloc, lp, dict)?;
            Ok(Certificate::Infeasible { face })
        }
        Step::Optimal => {
            let point = point_of(alloc, lp, dict)?;
            let bound = bound_of(alloc, lp, dict)?;
            Ok(Certificate::Optimal {
                den: point.den,
                point: point.numbers,
                bound,
            })
        }
        Step::Unbounded(column) => {
            let point = point_of(alloc, lp, dict)?;
            let ray = ray_of(alloc, lp, dict, column)?;
            Ok(Certificate::Unbounded {
                den: point.den,
                point: point.numbers,
                ray,
            })
        }
    }
}

// The certificate that is read off the dictionary at the end of the path, each list divided by its own greatest common divisor.
// The right side of each program row is at least 0.
pub(crate) fn certificate_of(
    alloc: Global,
    lp: &Lp,
    dict: &Dict,
    step: Step,
) -> Result<Certificate, NoMemory>
    requires holds { Holds lp.now dict.now }
    requires sides { HasRightSides dict.now.rows dict.now.columns (entry_at dict.now) }
    requires last { IsLast dict.now.rows dict.now.columns (entry_at dict.now) step }
    ensures reading { IfOk result (IsReading lp.now (basic_at dict.now) dict.now.den (entry_at dict.now) step) }
    ensures certified { IfOk result (Certified lp.now) }
    ensures fits { IfOk result (Fits lp.now) }

    // The dictionary gives one certificate.
    ensures only { IfOk result (λ given. (other : Certificate) → IsReading lp.now (basic_at dict.now) dict.now.den (entry_at dict.now) step other → other ≡ given) }
{
    read(alloc, lp, dict, step)
}
