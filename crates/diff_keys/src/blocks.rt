//! Divides rows into blocks.

ghost use Rattle.std.specs.Prelude.{◌≡◌, ◌<◌, ◌+◌, min};

/// The number of rows in a block. The last block may have fewer. The rows of a block are first all
/// read and then all processed. The reads don't depend on each other, so the processor can wait for
/// many of them at once.
const BLOCK: usize = 256;

/// Returns the end (exclusive) of the block that begins at row `start`: 256 rows later, but at most
/// `count`, the number of rows.
pub fn block_end(start: usize, count: usize) -> usize
    requires { start < count }
    ensures { result ≡ min count (start + 256) }
{
    if count - start <= BLOCK {
        return count;
    }
    start + BLOCK
}
