//! Truth values that are read one by one.

ghost use Rattle.std.specs.Prelude.{◌≡◌, length, nat_eq, slice_index};

use polars_arrays_bits::bitmap::Bitmap;
use polars_arrays_bits::counting::CountedValues;
use polars_arrays_bits::packing::TruthValues;
use polars_arrays_numbers::steps::Steps;

/// The bits of a bitmap as truth values that are read one by one. If `wide`, they are packed like
/// the results of comparisons of elements of more than 64 bits: in registers, eight at a time. The
/// packed bits do not depend on `wide`.
#[derive(Drop)]
pub struct SingleBits<'a> {
    pub bits: &'a Bitmap,
    pub wide: bool,
}

impl TruthValues for SingleBits<'_> {
    ghost values = { λ s. s.bits.now };

    fn len(&self) -> usize {
        self.bits.len()
    }

    fn value(&self, i: usize) -> bool {
        self.bits.get_bit(i)
    }

    fn packs_in_registers(&self) -> bool {
        self.wide
    }
}

/// The bits of a bitmap as truth values with costs. Reading bit `i` adds `costs[i]` to a counter.
#[derive(Drop)]
pub struct CostlyBits<'a> {
    pub bits: &'a Bitmap,
    pub costs: &'a [usize],
    ghost one_length: { length costs.now ≡ length bits.now },
}

impl CountedValues for CostlyBits<'_> {
    ghost values = { λ c. c.bits.now };

    ghost costs = { λ c i. slice_index c.costs.now i };

    ghost sure = { λ c i. nat_eq (slice_index c.costs.now i) 0 };

    fn len(&self) -> usize {
        self.bits.len()
    }

    fn value(&self, i: usize, steps: &mut Steps) -> bool {
        steps.add(self.costs[i]);
        self.bits.get_bit(i)
    }

    // Returns value `i`, and adds no cost.
    fn guess(&self, i: usize) -> bool {
        self.bits.get_bit(i)
    }

    // Returns whether the guess of value `i` is sure to be right, which is so if the cost of the
    // value is 0.
    fn is_sure(&self, i: usize) -> bool {
        self.costs[i] == 0
    }
}
