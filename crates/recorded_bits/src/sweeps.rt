//! Calls that are made with operands at many places in words, and the sum over their results. The
//! sum is a hash (`Sum`), so one number tests many results.
//!
//! - `sweep CALL N`: the sum over the results of CALL on bitmaps or masks of N bits
//! - `sweep all_set N`: the sum over the results of `all_set` for the N bits of `pattern` from each
//!   place on
//! - `sweep extend_values N`, `sweep extend_wide_values N`: the sum over the bitmaps that a builder
//!   makes, one for each place: true bits up to the place, the first N bits of `pattern`, and a
//!   false bit
//! - `sweep_blocks WIDTH N`: the sum over the results of `all_in_blocks` for N blocks of WIDTH bits
//!   of `pattern` from each place on
//!
//! A place is the index of a bit, from 0 to 65. `sweep CALL N` makes the call once for each pair of
//! places. The operands are the first N bits of up to three lists of fixed bits (`bit_at`): the
//! first list begins at the first place of the pair, the second list at the second place, and the
//! third list at a place computed from both. The bits of a result are added to the sum in order,
//! and a count is added as one number.

use crate::bits::read_pair;
use crate::builders::{fill, push, push_all};
use crate::operators::{Merge, Operator};
use crate::{bits, masks};
use polars_arrays_bits::bit_mask::BitMask;
use polars_arrays_bits::bitmap::Bitmap;
use polars_arrays_bits::builder::BitmapBuilder;
use polars_arrays_bits::error::ComputeError;
use recorded_text::fault::Fault;
use recorded_text::names::find_word;
use recorded_text::words::Words;
use std::alloc::Global;

/// The number of places at which a list may begin: the 64 bits of one word, and two bits of the
/// next.
const PLACES: usize = 66;

/// Reads the name of a call and a number of bits from the next words, and returns the text of the
/// sum over the results of this call. The error is `Word` if there is no such call, and `Case` if
/// the call needs more values than `pattern` has.
pub fn answer(alloc: Global, words: &mut Words) -> Result<String, Fault> {
    let call = words.read()?;
    let n = words.read_number()?;
    write_sum(alloc, sweep(alloc, call, n))
}

/// Reads the width and the number of blocks from the next words, and returns the text of the sum
/// over the results of `all_in_blocks` at each place. The error is `Case` if the blocks are out of
/// range.
pub fn answer_of_blocks(alloc: Global, words: &mut Words) -> Result<String, Fault> {
    let (width, n) = read_pair(words)?;
    let sum = sweep_values(alloc, AtPlace::Blocks { width, n }, pattern(alloc));
    write_sum(alloc, sum)
}

/// Returns the text of a sum, in 16 hexadecimal digits. If `sum` is an error, returns it.
fn write_sum(alloc: Global, sum: Result<Sum, Fault>) -> Result<String, Fault> {
    let Sum(sum) = sum?;
    Ok(format!(in alloc; "{sum:016x}")?)
}

/// A sum of numbers that depends on their order: the hash 64-bit FNV-1a, with 64-bit numbers in
/// place of bytes.
#[derive(Drop)]
struct Sum(u64);

impl Sum {
    /// Creates the sum of no numbers.
    fn new() -> Sum {
        Sum(0xcbf2_9ce4_8422_2325)
    }

    /// Adds one number.
    fn add(&mut self, number: u64) {
        self.0 = (self.0 ^ number).wrapping_mul(0x100_0000_01b3);
    }

    /// Adds 0 or 1 for each bit, in order.
    fn add_bits(&mut self, bits: &Bitmap) {
        for i in 0..bits.len() {
            self.add(u64::from(bits.get_bit(i)));
        }
    }

    /// Adds 0 or 1 for each bit in `bits`. If `bits` is an error, returns it as a `Fault`.
    fn add_made(&mut self, bits: Result<Bitmap, ComputeError>) -> Result<(), Fault> {
        self.add_found(bits.map_err(Fault::from))
    }

    /// Adds 0 or 1 for each bit in `bits`. If `bits` is an error, returns it.
    fn add_found(&mut self, bits: Result<Bitmap, Fault>) -> Result<(), Fault> {
        self.add_bits(&bits?);
        Ok(())
    }

    /// Adds 0 for false or 1 for true. If `truth` is an error, returns it.
    fn add_truth(&mut self, truth: Result<bool, Fault>) -> Result<(), Fault> {
        self.add(u64::from(truth?));
        Ok(())
    }

    /// Adds a count. If `count` is an error, returns it.
    fn add_count(&mut self, count: Result<usize, Fault>) -> Result<(), Fault> {
        self.add(count? as u64);
        Ok(())
    }
}

/// Returns bit `i` of the list of bits with the number `list`. A list has no end, and is the same
/// in each run. About a third of its bits are true. The bits do not repeat after 64 bits, the
/// length of a word.
fn bit_at(i: usize, list: usize) -> bool {
    let mixed = i
        .wrapping_mul(2654435761)
        .wrapping_add(list.wrapping_mul(40503));
    (mixed ^ (mixed >> 7)) % 3 == 0
}

/// The first bits of one list, once for each place. At index `at`, `around` has a bitmap in which
/// they begin at bit `at` and all other bits are set, and `cut` has a bitmap of these bits alone,
/// cut out of the one in `around`.
#[derive(Drop)]
struct Places {
    around: Vec<Bitmap>,
    cut: Vec<Bitmap>,
}

/// Creates a bitmap with `at` true bits, the first `n` bits of a list, and 70 true bits. `list` is
/// the number of the list.
fn surrounded(alloc: Global, list: usize, at: usize, n: usize) -> Result<Bitmap, Fault> {
    let capacity = at.saturating_add(n).saturating_add(70);
    let mut builder = BitmapBuilder::with_capacity(alloc, capacity)?;
    surround(&mut builder, list, at, n)?;
    Ok(builder.freeze())
}

/// Pushes `at` true bits, the first `n` bits of the list with the number `list`, and 70 true bits.
/// The error is `Case` if there is not enough room.
fn surround(builder: &mut BitmapBuilder, list: usize, at: usize, n: usize) -> Result<(), Fault> {
    fill(builder, at, true)?;
    for i in 0..n {
        push(builder, bit_at(i, list))?;
    }
    fill(builder, 70, true)
}

/// Creates the bitmaps with the first `n` bits of a list at each place. `list` is the number of the
/// list.
fn at_each_place(alloc: Global, list: usize, n: usize) -> Result<Places, Fault> {
    let around = surrounded_each(alloc, list, n)?;
    let cut = cut_each(alloc, &around, n)?;
    Ok(Places { around, cut })
}

/// Creates for each place a bitmap with the first `n` bits of a list from this place on, and all
/// other bits set. `list` is the number of the list.
fn surrounded_each(alloc: Global, list: usize, n: usize) -> Result<Vec<Bitmap>, Fault> {
    let mut around = Vec::new(alloc);
    for at in 0..PLACES {
        around.push(surrounded(alloc, list, at, n)?)?;
    }
    Ok(around)
}

/// Cuts `n` bits out of each bitmap in `around`, from bit `at` on for the bitmap at index `at`. The
/// error is `Case` if a bitmap does not have these bits.
fn cut_each(alloc: Global, around: &[Bitmap], n: usize) -> Result<Vec<Bitmap>, Fault> {
    let mut windows = Vec::new(alloc);
    for (at, bits) in around.iter().enumerate() {
        windows.push(bits::cut(alloc, bits, at, n)?)?;
    }
    Ok(windows)
}

/// The first `n` bits of three lists, each of them at each place.
#[derive(Drop)]
struct Lists {
    first: Places,
    second: Places,
    third: Places,
    n: usize,
}

impl Lists {
    /// Creates the first `n` bits of the lists with the numbers 1, 2 and 3, at each place.
    fn new(alloc: Global, n: usize) -> Result<Lists, Fault> {
        Ok(Lists {
            first: at_each_place(alloc, 1, n)?,
            second: at_each_place(alloc, 2, n)?,
            third: at_each_place(alloc, 3, n)?,
            n,
        })
    }

    /// Returns the bits of the three lists as bitmaps of their own. They were cut out at the places
    /// `p`, `q` and a third one, which is computed from both. The error is `Case` if `p` or `q` is
    /// not below `PLACES`.
    fn bitmaps(&self, p: usize, q: usize) -> Result<(&Bitmap, &Bitmap, &Bitmap), Fault> {
        let (Some(x), Some(y), Some(z)) = (
            self.first.cut.get(p),
            self.second.cut.get(q),
            self.third.cut.get((p ^ q) % PLACES),
        ) else {
            return Err(Fault::Case);
        };
        Ok((x, y, z))
    }

    /// Returns the bits of the three lists as windows of the bitmaps around them. The windows begin
    /// at the places `p`, `q` and a third one, which is computed from both. The error is `Case` if
    /// `p` or `q` is not below `PLACES`.
    fn masks(&self, p: usize, q: usize) -> Result<(BitMask<'_>, BitMask<'_>, BitMask<'_>), Fault> {
        let r = (p ^ q) % PLACES;
        let (Some(x), Some(y), Some(z)) = (
            self.first.around.get(p),
            self.second.around.get(q),
            self.third.around.get(r),
        ) else {
            return Err(Fault::Case);
        };
        Ok((
            masks::window_of(x, p, self.n)?,
            masks::window_of(y, q, self.n)?,
            masks::window_of(z, r, self.n)?,
        ))
    }
}

/// Returns the sum over the results of the call named `call`. `all_set`, `extend_values` and
/// `extend_wide_values` are made on the values of `pattern` at each place; other calls are made on
/// lists of `n` bits at all pairs of places. The error is `Word` if there is no such call, and
/// `Case` if a call needs more values than `pattern` has.
fn sweep(alloc: Global, call: &str, n: usize) -> Result<Sum, Fault> {
    match call {
        "all_set" => sweep_values(alloc, AtPlace::Run { n }, pattern(alloc)),
        "extend_values" => sweep_values(alloc, AtPlace::Appended, first_values(alloc, n)),
        "extend_wide_values" => sweep_values(alloc, AtPlace::WideAppended, first_values(alloc, n)),
        _ => sweep_pairs(alloc, find_word(&PAIRED, call), n),
    }
}

/// A call on bitmaps or masks that is made at all pairs of places. `CountSet` is `set_bits`, and
/// `CountBoth` is `num_intersections_with`.
#[derive(Clone, Copy)]
enum Asked {
    Combined(Operator),
    Not,
    Merged(Merge),
    CountSet,
    CountBoth,
    OfMasks(OfMasks),
}

/// A call on masks that is made at all pairs of places. `Bits` is `to_bitmap`, and `CountUnset` is
/// `mask_unset_bits`.
#[derive(Clone, Copy)]
enum OfMasks {
    Combined(Operator),
    Not,
    Merged(Merge),
    Bits,
    CountUnset,
}

/// The calls that are made at all pairs of places, with their names.
const PAIRED: [(&str, Asked); 22] = [
    ("and", Asked::Combined(Operator::And)),
    ("or", Asked::Combined(Operator::Or)),
    ("xor", Asked::Combined(Operator::Xor)),
    ("xnor", Asked::Combined(Operator::Xnor)),
    ("and_not", Asked::Combined(Operator::AndNot)),
    ("or_not", Asked::Combined(Operator::OrNot)),
    ("not", Asked::Not),
    ("merge_eq", Asked::Merged(Merge::Eq)),
    ("merge_ne", Asked::Merged(Merge::Ne)),
    ("set_bits", Asked::CountSet),
    ("num_intersections_with", Asked::CountBoth),
    ("mask_and", Asked::OfMasks(OfMasks::Combined(Operator::And))),
    ("mask_or", Asked::OfMasks(OfMasks::Combined(Operator::Or))),
    ("mask_xor", Asked::OfMasks(OfMasks::Combined(Operator::Xor))),
    (
        "mask_xnor",
        Asked::OfMasks(OfMasks::Combined(Operator::Xnor)),
    ),
    (
        "mask_and_not",
        Asked::OfMasks(OfMasks::Combined(Operator::AndNot)),
    ),
    (
        "mask_or_not",
        Asked::OfMasks(OfMasks::Combined(Operator::OrNot)),
    ),
    ("mask_not", Asked::OfMasks(OfMasks::Not)),
    ("mask_merge_eq", Asked::OfMasks(OfMasks::Merged(Merge::Eq))),
    ("mask_merge_ne", Asked::OfMasks(OfMasks::Merged(Merge::Ne))),
    ("to_bitmap", Asked::OfMasks(OfMasks::Bits)),
    ("mask_unset_bits", Asked::OfMasks(OfMasks::CountUnset)),
];

/// Returns the sum over the results of the call `asked` on lists of `n` bits at all pairs of
/// places. If `asked` is an error, returns it, unless an allocation fails before.
fn sweep_pairs(alloc: Global, asked: Result<Asked, Fault>, n: usize) -> Result<Sum, Fault> {
    let lists = Lists::new(alloc, n)?;
    sweep_lists(alloc, asked, &lists)
}

/// Returns the sum over the results of the call `asked` on `lists` at all pairs of places. If
/// `asked` is an error, returns it.
fn sweep_lists(alloc: Global, asked: Result<Asked, Fault>, lists: &Lists) -> Result<Sum, Fault> {
    let asked = asked?;
    let mut sum = Sum::new();
    for p in 0..PLACES {
        sweep_second(alloc, asked, lists, p, &mut sum)?;
    }
    Ok(sum)
}

/// Adds the results of the call `asked` on `lists` to `sum`, with the first list at place `p` and
/// the second list at each place.
fn sweep_second(
    alloc: Global,
    asked: Asked,
    lists: &Lists,
    p: usize,
    sum: &mut Sum,
) -> Result<(), Fault> {
    for q in 0..PLACES {
        add_answer(alloc, asked, lists, p, q, sum)?;
    }
    Ok(())
}

/// Adds the result of the call `asked` on `lists` to `sum`, with the first list at place `p` and
/// the second list at place `q`.
fn add_answer(
    alloc: Global,
    asked: Asked,
    lists: &Lists,
    p: usize,
    q: usize,
    sum: &mut Sum,
) -> Result<(), Fault> {
    let (x, y, z) = lists.bitmaps(p, q)?;
    match asked {
        Asked::Combined(operator) => sum.add_found(bits::combine(alloc, operator, x, y)),
        Asked::Not => sum.add_made(x.not(alloc)),
        Asked::Merged(merge) => sum.add_found(bits::combine_three(alloc, merge, x, y, z)),
        Asked::CountSet => sum.add_count(Ok(x.set_bits())),
        Asked::CountBoth => sum.add_count(bits::count_both(x, y)),
        Asked::OfMasks(of_masks) => add_mask_answer(alloc, of_masks, lists, p, q, sum),
    }
}

/// Adds the result of the call `asked` on the masks of `lists` to `sum`, with the first list at
/// place `p` and the second list at place `q`.
fn add_mask_answer(
    alloc: Global,
    asked: OfMasks,
    lists: &Lists,
    p: usize,
    q: usize,
    sum: &mut Sum,
) -> Result<(), Fault> {
    let (x, y, z) = lists.masks(p, q)?;
    match asked {
        OfMasks::Combined(operator) => sum.add_found(masks::combine(alloc, operator, &x, &y)),
        OfMasks::Not => sum.add_made(x.not(alloc)),
        OfMasks::Merged(merge) => sum.add_found(masks::combine_three(alloc, merge, &x, &y, &z)),
        OfMasks::Bits => sum.add_made(x.to_bitmap(alloc)),
        OfMasks::CountUnset => sum.add_count(Ok(x.unset_bits())),
    }
}

/// Creates 200 truth values, of which every 37th is false, beginning with the one at index 3. So
/// the false values are at different places of different words.
fn pattern(alloc: Global) -> Result<Bitmap, Fault> {
    let mut values = [false; 200];
    for i in 0..200 {
        values[i] = i % 37 != 3;
    }
    Bitmap::from_bools(alloc, &values).map_err(Fault::from)
}

/// Returns the first `n` values of `pattern`. The error is `Case` if `n` is above 200.
fn first_values(alloc: Global, n: usize) -> Result<Bitmap, Fault> {
    let mut values = pattern(alloc)?;
    bits::keep(&mut values, 0, n)?;
    Ok(values)
}

/// A call on a bitmap of values that is made at each place.
#[derive(Clone, Copy)]
enum AtPlace {
    /// Tests whether the `n` values from the place on are all true.
    Run { n: usize },
    /// Builds a bitmap of true bits up to the place, all values, and a false bit.
    Appended,
    /// Builds the bitmap of `Appended`, with values that are packed like the results of comparisons
    /// of wide elements.
    WideAppended,
    /// Tests for each of the `n` blocks of `width` values from the place on whether its values are
    /// all true.
    Blocks { width: usize, n: usize },
}

/// Returns the sum over the results of the call `asked` on `values` at each place. If `values` is
/// an error, returns it. The error is `Case` if the call needs values that do not exist.
fn sweep_values(
    alloc: Global,
    asked: AtPlace,
    values: Result<Bitmap, Fault>,
) -> Result<Sum, Fault> {
    sweep_places(alloc, asked, &values?)
}

/// Returns the sum over the results of the call `asked` on `values` at each place.
fn sweep_places(alloc: Global, asked: AtPlace, values: &Bitmap) -> Result<Sum, Fault> {
    let mut sum = Sum::new();
    for at in 0..PLACES {
        add_at(alloc, asked, values, at, &mut sum)?;
    }
    Ok(sum)
}

/// Adds the result of the call `asked` on `values` at place `at` to `sum`. The error is `Case` if
/// the call needs values that do not exist.
fn add_at(
    alloc: Global,
    asked: AtPlace,
    values: &Bitmap,
    at: usize,
    sum: &mut Sum,
) -> Result<(), Fault> {
    match asked {
        AtPlace::Run { n } => {
            sum.add_truth(masks::is_all_set(&BitMask::from_bitmap(values), at, n))
        }
        AtPlace::Appended => sum.add_found(appended(alloc, at, values, false)),
        AtPlace::WideAppended => sum.add_found(appended(alloc, at, values, true)),
        AtPlace::Blocks { width, n } => sum.add_found(blocks(alloc, values, at, width, n)),
    }
}

/// Returns a bit for each of `n` blocks of `width` values, true if the values of the block are all
/// true. The first block begins at place `at`. The error is `Case` if the blocks are out of range.
fn blocks(
    alloc: Global,
    values: &Bitmap,
    at: usize,
    width: usize,
    n: usize,
) -> Result<Bitmap, Fault> {
    let mask = masks::window_of(values, at, width.saturating_mul(n))?;
    masks::fold_blocks(alloc, &mask, width, n)
}

/// Returns a bitmap of `at` true bits, the bits of `values`, and a false bit. `wide` says how the
/// bits of `values` are packed (see `SingleBits`).
fn appended(alloc: Global, at: usize, values: &Bitmap, wide: bool) -> Result<Bitmap, Fault> {
    let capacity = at.saturating_add(values.len()).saturating_add(1);
    let mut builder = BitmapBuilder::with_capacity(alloc, capacity)?;
    append(&mut builder, at, values, wide)?;
    Ok(builder.freeze())
}

/// Pushes `at` true bits, the bits of `values`, and a false bit. `wide` says how the bits of
/// `values` are packed (see `SingleBits`). The error is `Case` if there is not enough room.
fn append(
    builder: &mut BitmapBuilder,
    at: usize,
    values: &Bitmap,
    wide: bool,
) -> Result<(), Fault> {
    fill(builder, at, true)?;
    push_all(builder, values, wide)?;
    push(builder, false)
}
