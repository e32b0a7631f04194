//! Laws about the JSON lines of a report: a JSON reader gets back the members that were written,
//! and no line has a line feed except its last byte. All numbers must be below 2^64. The functions
//! do nothing; their contracts are the laws.

ghost use Rattle.std.specs.Prelude.{◌≡◌, ◌<◌, ◌^◌, ℕ, List, Some, codes, length, slice_index};
ghost use Rattle.json.specs.Json.{document};
ghost use Rattle.diff_columns.specs.declared.error.Side.{Side};
ghost use Rattle.diff_tables.specs.declared.compare.Comparison.{Comparison};
ghost use Rattle.diff_report.specs.Naming.{Naming};
ghost use Rattle.diff_json.specs.Columns.{column_object};
ghost use Rattle.diff_json.specs.Counts.{counts_object, difference_count};
ghost use Rattle.diff_json.specs.Laws.{column_value, counts_value, pair_value, row_value};
ghost use Rattle.diff_json.specs.Lines.{pair_object, row_object};
ghost use Rattle.diff_json.specs.Plain.{IsLine};

/// States that the text written for a changed pair of rows is a single line, and that a JSON reader
/// gets back the members that were written.
pub fn law_pair()
    ensures read { (n : Naming) (columns : List ℕ) (i left_line : ℕ) (left : List (List ℕ))
        (j right_line : ℕ) (right : List (List ℕ)) → i < 2 ^ 64 → left_line < 2 ^ 64 → j < 2 ^ 64
        → right_line < 2 ^ 64
        → document (pair_object n columns i left_line left j right_line right)
        ≡ Some (pair_value n columns i left_line left j right_line right) }
    ensures line { (n : Naming) (columns : List ℕ) (i left_line : ℕ) (left : List (List ℕ))
        (j right_line : ℕ) (right : List (List ℕ)) → i < 2 ^ 64 → left_line < 2 ^ 64 → j < 2 ^ 64
        → right_line < 2 ^ 64
        → IsLine (pair_object n columns i left_line left j right_line right) }
{}

/// States that the text written for a removed or added row is a single line, and that a JSON reader
/// gets back the members that were written.
pub fn law_row()
    ensures removed_line { (n : Naming) (i line : ℕ) (cells : List (List ℕ)) → i < 2 ^ 64
        → line < 2 ^ 64 → IsLine (row_object (codes "removed") n i line cells) }
    ensures added_line { (n : Naming) (i line : ℕ) (cells : List (List ℕ)) → i < 2 ^ 64
        → line < 2 ^ 64 → IsLine (row_object (codes "added") n i line cells) }
    ensures removed { (n : Naming) (i line : ℕ) (cells : List (List ℕ)) → i < 2 ^ 64 → line < 2 ^ 64
        → document (row_object (codes "removed") n i line cells)
        ≡ Some (row_value (codes "removed") n i line cells) }
    ensures added { (n : Naming) (i line : ℕ) (cells : List (List ℕ)) → i < 2 ^ 64 → line < 2 ^ 64
        → document (row_object (codes "added") n i line cells)
        ≡ Some (row_value (codes "added") n i line cells) }
{}

/// States that the text written for a column that only one input has is a single line, and that a
/// JSON reader gets back the members that were written.
pub fn law_column()
    ensures line { (side : Side) (name : List ℕ) → IsLine (column_object side name) }
    ensures read { (side : Side) (name : List ℕ) → document (column_object side name)
        ≡ Some (column_value side name) }
{}

/// States that the text written for the counts is a single line, and that a JSON reader gets back
/// the members that were written.
pub fn law_counts()
    ensures line { (n : Naming) (c : Comparison) (counts : List ℕ) (limit : ℕ)
        → difference_count c < 2 ^ 64 → length c.matching.left_rows.items < 2 ^ 64
        → ((column : ℕ) → slice_index counts column < 2 ^ 64)
        → IsLine (counts_object n c counts limit) }
    ensures read { (n : Naming) (c : Comparison) (counts : List ℕ) (limit : ℕ)
        → difference_count c < 2 ^ 64 → length c.matching.left_rows.items < 2 ^ 64
        → ((column : ℕ) → slice_index counts column < 2 ^ 64)
        → document (counts_object n c counts limit) ≡ Some (counts_value n c counts limit) }
{}
