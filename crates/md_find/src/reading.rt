//! The certificate that the last dictionary of a walk gives.
use crate::dictionary::Dictionary;
use crate::find_error::FindError;
use crate::fraction::Fraction;
use crate::fractions::{Numbers, in_ratio, over_one};
use crate::multipliers::{Level, multipliers};
use crate::walk::End;
use md_cert::{Bound, Certificate};
use md_lp::Lp;
use md_num::Nums;
use std::alloc::Global;

// The number of a column in the point: the right side of its row, where it is basic.
fn point_number(dictionary: &Dictionary, column: usize) -> Fraction {
    match dictionary.basis().row(column) {
        Some(row) => Fraction::new(dictionary.right(row), dictionary.den(row)),
        None => Fraction::whole(0),
    }
}

// The number of a column in the ray along the one at a place: 1 in that column, and minus the number there of its row, where it is basic.
fn ray_number(dictionary: &Dictionary, place: usize, column: usize) -> Fraction {
    if let Some(row) = dictionary.basis().row(column) {
        return Fraction::new(dictionary.number(row, place), dictionary.den(row)).turned(true);
    }
    match dictionary.basis().place(column) {
        Some(own) if own == place => Fraction::whole(1),
        _ => Fraction::whole(0),
    }
}

// The point of a dictionary.
fn point_of(alloc: Global, lp: &Lp, dictionary: &Dictionary) -> Result<Numbers, FindError> {
    let mut fractions = Vec::new(alloc);
    for column in 0..lp.columns() {
        fractions.push(point_number(dictionary, column as usize))?;
    }
    over_one(alloc, fractions.as_slice())
}

// The ray of a dictionary along the column at a place.
fn ray_of(
    alloc: Global,
    lp: &Lp,
    dictionary: &Dictionary,
    place: usize,
) -> Result<Nums, FindError> {
    let mut fractions = Vec::new(alloc);
    for column in 0..lp.columns() {
        fractions.push(ray_number(dictionary, place, column as usize))?;
    }
    in_ratio(alloc, fractions.as_mut_slice())
}

// The face multipliers that a row of the dictionary gives.
fn face_of(alloc: Global, lp: &Lp, dictionary: &Dictionary, row: usize) -> Result<Nums, FindError> {
    let mut fractions = multipliers(alloc, lp, dictionary, row, Level::Face)?;
    in_ratio(alloc, fractions.as_mut_slice())
}

// The multipliers of a dictionary.
fn bound_of(alloc: Global, lp: &Lp, dictionary: &Dictionary) -> Result<Bound, FindError> {
    let fractions = multipliers(alloc, lp, dictionary, dictionary.main(), Level::Main)?;
    let main = over_one(alloc, fractions.as_slice())?;
    Ok(Bound {
        den: main.den,
        main: main.numbers,
        face: face_of(alloc, lp, dictionary, dictionary.face())?,
    })
}

// The certificate of a greatest point.
fn optimal(alloc: Global, lp: &Lp, dictionary: &Dictionary) -> Result<Certificate, FindError> {
    let point = point_of(alloc, lp, dictionary)?;
    let bound = bound_of(alloc, lp, dictionary)?;
    Ok(Certificate::Optimal {
        den: point.den,
        point: point.numbers,
        bound,
    })
}

// The certificate that no point meets the program, as a row shows.
fn infeasible(
    alloc: Global,
    lp: &Lp,
    dictionary: &Dictionary,
    row: usize,
) -> Result<Certificate, FindError> {
    let face = face_of(alloc, lp, dictionary, row)?;
    Ok(Certificate::Infeasible { face })
}

// The certificate of a cost that grows without end.
fn unbounded(
    alloc: Global,
    lp: &Lp,
    dictionary: &Dictionary,
    place: usize,
) -> Result<Certificate, FindError> {
    let point = point_of(alloc, lp, dictionary)?;
    let ray = ray_of(alloc, lp, dictionary, place)?;
    Ok(Certificate::Unbounded {
        den: point.den,
        point: point.numbers,
        ray,
    })
}

/// The certificate that a dictionary gives where the walk ends so.
///
/// # Errors
/// Where a number of it has more than 62 bits; or want of memory.
pub fn read(
    alloc: Global,
    lp: &Lp,
    dictionary: &Dictionary,
    end: End,
) -> Result<Certificate, FindError> {
    match end {
        End::Optimal => optimal(alloc, lp, dictionary),
        End::Infeasible(row) => infeasible(alloc, lp, dictionary, row),
        End::Unbounded(place) => unbounded(alloc, lp, dictionary, place),
    }
}
