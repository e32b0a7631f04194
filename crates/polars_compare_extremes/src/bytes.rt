//! The least and the greatest row of `BinaryArray`s and of `Utf8Array`s.

use crate::borrowed::{BytesMinMaxKernel, TextMinMaxKernel};
use crate::places::{best_place, best_string};
use polars_arrays_bytes::binary::BinaryArray;
use polars_arrays_bytes::text::Utf8Array;
use polars_arrays_flat::array::Array;
use polars_arrays_numbers::comparison::{Greater, Less};
use polars_arrays_numbers::offset::Offset;

impl<O: Offset> BytesMinMaxKernel for BinaryArray<O> {
    fn min_ignore_nan_kernel(&self) -> Option<&[u8]> {
        best_string(&Less, self, self.validity())
    }

    fn max_ignore_nan_kernel(&self) -> Option<&[u8]> {
        best_string(&Greater, self, self.validity())
    }
}

impl<O: Offset> TextMinMaxKernel for Utf8Array<O> {
    #[tactic(auto, using(crate::proofs::Lent::lends))]
    fn min_ignore_nan_kernel(&self) -> Option<&str> {
        match best_place(&Less, self, self.validity()) {
            Some(place) => Some(self.value(place)),
            None => None,
        }
    }

    #[tactic(auto, using(crate::proofs::Lent::lends))]
    fn max_ignore_nan_kernel(&self) -> Option<&str> {
        match best_place(&Greater, self, self.validity()) {
            Some(place) => Some(self.value(place)),
            None => None,
        }
    }
}
