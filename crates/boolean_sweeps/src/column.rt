//! Rows as a list, and a `BooleanArray` of these rows at given bit offsets.

use crate::draw::{CHANCES, Draw};
use polars_arrays_bits::bitmap::Bitmap;
use polars_arrays_flat::array::Array;
use polars_arrays_flat::boolean::BooleanArray;
use recorded_text::fault::Fault;
use std::alloc::{AllocError, Global};

/// The number of bits that are stored after the bits of the rows.
const BEHIND: usize = 66;

/// The capacity for the bits of a bitmap: those before the rows, the rows, and those after them.
const ROOM: usize = 264;

/// The distribution of random rows.
#[derive(Clone, Copy)]
pub struct Sort {
    /// `true` if arrays have a validity.
    pub has_validity: bool,
    /// Chances in 32 that a row is null. In the validity, a bit that belongs to no row is 1 with
    /// the same chances.
    pub nulls: u64,
    /// Chances in 32 that a present row is true. In the values, the bits of nulls and those that
    /// belong to no row are 1 with `32 - trues` chances in 32.
    pub trues: u64,
}

/// The bit offsets at which the rows of an array begin in its bitmaps.
#[derive(Clone, Copy)]
pub struct Place {
    /// The index of the first bit of the values.
    pub values: usize,
    /// The index of the first bit of the validity.
    pub validity: usize,
}

impl Place {
    // Returns the number of extra rows that the array has on each side of the given rows until it
    // is sliced: 0 if `values` is even, and else the lesser of the two bit offsets.
    fn rows_ahead(self) -> usize {
        if self.values % 2 == 0 {
            0
        } else {
            self.values.min(self.validity)
        }
    }
}

/// A list of rows, and an array that should have these rows. The expected results are computed from
/// `rows`, and the kernels are called on `array`.
#[derive(Drop)]
pub struct Column {
    rows: Vec<Option<bool>>,
    array: BooleanArray,
}

impl Column {
    /// Draws `len` rows distributed as `sort` says, and creates an array of them whose bitmaps
    /// begin at the bit offsets of `place`.
    pub fn draw(
        alloc: Global,
        sort: Sort,
        len: usize,
        place: Place,
        draw: &mut Draw,
    ) -> Result<Column, Fault> {
        let rows = draw_rows(alloc, sort, len, draw)?;
        Column::of_rows(alloc, sort, rows, place, draw)
    }

    /// Creates an array of `rows` whose bitmaps begin at the bit offsets of `place`. `sort` says if
    /// it has a validity, and distributes the bits that belong to no row.
    pub fn of_rows(
        alloc: Global,
        sort: Sort,
        rows: Vec<Option<bool>>,
        place: Place,
        draw: &mut Draw,
    ) -> Result<Column, Fault> {
        let array = store_rows(alloc, sort, &rows, place, draw)?;
        Ok(Column { rows, array })
    }

    /// Returns the rows that the array should have.
    pub fn rows(&self) -> &[Option<bool>] {
        &self.rows
    }

    /// Returns the array.
    pub fn array(&self) -> &BooleanArray {
        &self.array
    }

    /// Negates row `i` of the list, so that the list is wrong. The array is unchanged. Does nothing
    /// if the row is null or does not exist.
    pub fn turn_row(&mut self, i: usize) {
        if let Some(Some(truth)) = self.rows.get_mut(i) {
            *truth = !*truth;
        }
    }
}

// Draws `len` rows distributed as `sort` says.
fn draw_rows(
    alloc: Global,
    sort: Sort,
    len: usize,
    draw: &mut Draw,
) -> Result<Vec<Option<bool>>, AllocError> {
    let mut rows = Vec::with_capacity(alloc, len)?;
    for _ in 0..len {
        let truth = draw.truth(sort.trues);
        let is_null = draw.truth(sort.nulls);
        rows.push(if is_null { None } else { Some(truth) })?;
    }
    Ok(rows)
}

// Creates an array of `rows` whose bitmaps begin at the bit offsets of `place`. Fails with `Case`
// if a bitmap or the array is too short to be sliced.
fn store_rows(
    alloc: Global,
    sort: Sort,
    rows: &[Option<bool>],
    place: Place,
    draw: &mut Draw,
) -> Result<BooleanArray, Fault> {
    let array = store_wide(alloc, sort, rows, place, draw)?;
    cut_rows(array, place.rows_ahead(), rows.len())
}

// Creates an array that also has `place.rows_ahead()` rows before the given rows, and as many after
// them.
fn store_wide(
    alloc: Global,
    sort: Sort,
    rows: &[Option<bool>],
    place: Place,
    draw: &mut Draw,
) -> Result<BooleanArray, Fault> {
    let values = store_values(alloc, sort, rows, place, draw)?;
    let validity = store_validity(alloc, sort, rows, place, draw)?;
    Ok(BooleanArray::try_new(values, validity)?)
}

// Creates the values of an array, with `place.rows_ahead()` more bits before the rows, and as many
// after them. The values of nulls are random. Fails with `Case` if there are too few bits.
fn store_values(
    alloc: Global,
    sort: Sort,
    rows: &[Option<bool>],
    place: Place,
    draw: &mut Draw,
) -> Result<Bitmap, Fault> {
    let mut truths = Vec::with_capacity(alloc, ROOM)?;
    push_values(&mut truths, sort, rows, place, draw)?;
    cut_bits(alloc, &truths, place.values, place.rows_ahead())
}

// Appends `place.values` random bits, the values of the rows, and `BEHIND` random bits. The value
// of a null is random.
fn push_values(
    truths: &mut Vec<bool>,
    sort: Sort,
    rows: &[Option<bool>],
    place: Place,
    draw: &mut Draw,
) -> Result<(), AllocError> {
    let others = CHANCES.saturating_sub(sort.trues);
    push_others(truths, place.values, others, draw)?;
    for row in rows {
        truths.push(row.unwrap_or(draw.truth(others)))?;
    }
    push_others(truths, BEHIND, others, draw)
}

// Creates the validity of an array, or returns `None` if `sort.has_validity` is false.
fn store_validity(
    alloc: Global,
    sort: Sort,
    rows: &[Option<bool>],
    place: Place,
    draw: &mut Draw,
) -> Result<Option<Bitmap>, Fault> {
    if sort.has_validity {
        Ok(Some(store_present(alloc, sort, rows, place, draw)?))
    } else {
        Ok(None)
    }
}

// Creates a validity for the rows. It has `place.rows_ahead()` more bits before them and as many
// after them.
fn store_present(
    alloc: Global,
    sort: Sort,
    rows: &[Option<bool>],
    place: Place,
    draw: &mut Draw,
) -> Result<Bitmap, Fault> {
    let mut truths = Vec::with_capacity(alloc, ROOM)?;
    push_present(&mut truths, sort, rows, place, draw)?;
    cut_bits(alloc, &truths, place.validity, place.rows_ahead())
}

// Appends the bits of a validity: first `place.validity` random bits, then a bit for each row,
// which is true if the row is present, and then `BEHIND` random bits.
fn push_present(
    truths: &mut Vec<bool>,
    sort: Sort,
    rows: &[Option<bool>],
    place: Place,
    draw: &mut Draw,
) -> Result<(), AllocError> {
    push_others(truths, place.validity, sort.nulls, draw)?;
    for row in rows {
        truths.push(row.is_some())?;
    }
    push_others(truths, BEHIND, sort.nulls, draw)
}

// Appends `n` random bits. Each is true in `chances` of 32 cases.
fn push_others(
    truths: &mut Vec<bool>,
    n: usize,
    chances: u64,
    draw: &mut Draw,
) -> Result<(), AllocError> {
    for _ in 0..n {
        truths.push(draw.truth(chances))?;
    }
    Ok(())
}

// Packs `truths` into a bitmap, and slices it to the bits of the rows and `ahead` more bits on both
// sides. In `truths` the rows begin at index `at`, and `BEHIND` bits follow them. Fails with `Case`
// if there are too few bits.
fn cut_bits(alloc: Global, truths: &[bool], at: usize, ahead: usize) -> Result<Bitmap, Fault> {
    let mut bits = Bitmap::from_bools(alloc, truths)?;
    let from = at.saturating_sub(ahead);
    let cut = from.saturating_add(BEHIND - ahead.min(BEHIND));
    if cut > bits.len() {
        return Err(Fault::Case);
    }
    let n = bits.len() - cut;
    bits.slice(from, n);
    Ok(bits)
}

// Slices `array` to the `n` rows from row `at` on. Fails with `Case` if these do not exist.
fn cut_rows(array: BooleanArray, at: usize, n: usize) -> Result<BooleanArray, Fault> {
    let mut array = array;
    if at > array.len() || n > array.len() - at {
        return Err(Fault::Case);
    }
    array.slice(at, n);
    Ok(array)
}
