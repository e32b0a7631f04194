//! Counts of bits.

ghost use Rattle.std.specs.Prelude.{◌≡◌, Bool, not, ◌&&◌, length, count_by};
ghost use Rattle.std.specs.Simd.Lanes.{zip2};
ghost use Rattle.polars_arrays_words.specs.Bits.{first_of};

use super::Bitmap;
use polars_arrays_words::operators::{And, Zipped};
use polars_arrays_words::source::{Aligned, BitSource, Shifted, count_bits, count_window};

impl Bitmap {
    /// Returns the number of true bits.
    pub fn set_bits(&self) -> usize
        ensures { result ≡ count_by (λ b. b) self.now }
    {
        count_window(self.words.as_slice(), self.at, self.len)
    }

    /// Returns the number of false bits.
    pub fn unset_bits(&self) -> usize
        ensures { result ≡ count_by not self.now }
    {
        self.len() - self.set_bits()
    }

    /// Returns the number of indices at which both bitmaps have a true bit.
    pub fn num_intersections_with(&self, other: &Bitmap) -> usize
        requires { length other.now ≡ length self.now }
        ensures { result ≡ count_by (λ b. b) (zip2 ◌&&◌ self.now other.now) }
    {
        let words = self.words.as_slice();
        if self.at == 0 {
            return other.count_both(Aligned { words });
        }
        let by = self.at;
        other.count_both(Shifted { words, by })
    }

    // Returns the number of indices at which both `left` and this bitmap have a true bit.
    fn count_both<A: BitSource + Drop>(&self, left: A) -> usize
        ensures { result
            ≡ count_by (λ b. b) (zip2 ◌&&◌ (first_of (A.bit left) (length self.now)) self.now) }
    {
        let words = self.words.as_slice();
        let operator = And;
        if self.at == 0 {
            let right = Aligned { words };
            let source = Zipped {
                operator,
                left,
                right,
            };
            return count_bits(&source, self.len);
        }
        let by = self.at;
        let right = Shifted { words, by };
        let source = Zipped {
            operator,
            left,
            right,
        };
        count_bits(&source, self.len)
    }
}
