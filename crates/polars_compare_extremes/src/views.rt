//! The least and the greatest row of arrays of views (`BinaryViewArray`, `Utf8ViewArray`).

use crate::borrowed::{BytesMinMaxKernel, TextMinMaxKernel};
use crate::view_places::{best_view, best_view_place};
use polars_arrays_flat::array::Array;
use polars_arrays_numbers::comparison::{Greater, Less};
use polars_arrays_views::binary_view::BinaryViewArray;
use polars_arrays_views::text_view::Utf8ViewArray;

impl BytesMinMaxKernel for BinaryViewArray {
    fn min_ignore_nan_kernel(&self) -> Option<&[u8]> {
        best_view(&Less, self, self.validity())
    }

    fn max_ignore_nan_kernel(&self) -> Option<&[u8]> {
        best_view(&Greater, self, self.validity())
    }
}

impl TextMinMaxKernel for Utf8ViewArray {
    #[tactic(auto, using(crate::proofs::Lent::lends))]
    fn min_ignore_nan_kernel(&self) -> Option<&str> {
        match best_view_place(&Less, self.as_binview(), self.validity()) {
            Some(place) => Some(self.value(place)),
            None => None,
        }
    }

    #[tactic(auto, using(crate::proofs::Lent::lends))]
    fn max_ignore_nan_kernel(&self) -> Option<&str> {
        match best_view_place(&Greater, self.as_binview(), self.validity()) {
            Some(place) => Some(self.value(place)),
            None => None,
        }
    }
}
