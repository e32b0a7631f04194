//! Laws of the definitions. Each law is the contract of a function that has no parameters and does
//! nothing at run time.

ghost use Rattle.std.specs.Prelude.{◌≡◌};
ghost use Rattle.polars_arrays_flat.specs.StoredRows.{rows_under};
ghost use Rattle.polars_arrays_flat.specs.Validity.{HasBits};
ghost use Rattle.polars_arrays_nested.specs.AnyRows.{rows};
ghost use Rattle.polars_arrays_nested.specs.DictKeys.{key_count, key_validity};
ghost use Rattle.polars_arrays_nested.specs.GoodParts.{IsGood};
ghost use Rattle.polars_arrays_nested.specs.Leaves.{LeavesAddUp};
ghost use Rattle.polars_arrays_nested.specs.Masks.{mask_of};
ghost use Rattle.polars_arrays_nested.specs.Parts.{dictionary_keys, fixed_validity, list_validity};
ghost use Rattle.polars_arrays_nested.specs.Parts.{struct_validity};
ghost use Rattle.polars_arrays_nested.specs.StoredRows.{stored_entries, stored_fixed_lists};
ghost use Rattle.polars_arrays_nested.specs.StoredRows.{stored_lists, stored_structs};
ghost use Rattle.polars_arrays_nested.specs.declared.any_array.AnyArray.{List, FixedSizeList};
ghost use Rattle.polars_arrays_nested.specs.declared.any_array.AnyArray.{Struct, Dictionary};
ghost use Rattle.polars_arrays_nested.specs.declared.dictionary.DictionaryArray.{DictionaryArray};
ghost use Rattle.polars_arrays_nested.specs.declared.fixed_size_list.FixedSizeListArray.{
  FixedSizeListArray,
};
ghost use Rattle.polars_arrays_nested.specs.declared.list.ListArray.{ListArray};
ghost use Rattle.polars_arrays_nested.specs.declared.struct_array.StructArray.{StructArray};

/// States that two adjacent windows of a good array together have as many leaf slots as the window
/// of all their rows.
#[tactic(auto, using(crate::proofs::LeafSlots::leaf_slots))]
pub fn law_leaves()
    ensures { LeavesAddUp }
{}

/// States that each row of a good nested array is the stored row, or null if its mask bit is 0.
#[tactic(auto, using(crate::proofs::RowLists::stored_rows))]
pub fn law_rows()
    ensures lists { (a : ListArray) → IsGood (List a) → rows (List a)
        ≡ rows_under (list_validity a) (stored_lists a) }
    ensures fixed_lists { (a : FixedSizeListArray) → IsGood (FixedSizeList a)
        → rows (FixedSizeList a) ≡ rows_under (fixed_validity a) (stored_fixed_lists a) }
    ensures structs { (a : StructArray) → IsGood (Struct a) → rows (Struct a)
        ≡ rows_under (struct_validity a) (stored_structs a) }
    ensures entries { (a : DictionaryArray) → IsGood (Dictionary a)
        → HasBits (key_count (dictionary_keys a)) (key_validity (dictionary_keys a))
        → rows (Dictionary a) ≡ rows_under (mask_of (Dictionary a)) (stored_entries a) }
{}
