//! Makes the schemas of paths.

ghost use Rattle.std.specs.Prelude.{◌≡◌, List, length, IfOk, MatchResult};
ghost use Rattle.polars_arrays_bits.specs.Errors.{IsMemory};
ghost use Rattle.json_groups.specs.Groups.{AreGroupsOf, IsGroupOf};
ghost use Rattle.json_parts.specs.Parts.{Part};
ghost use Rattle.schema_paths.specs.Kinds.{HasKinds};
ghost use Rattle.schema_paths.specs.Paths.{AreNumeric, AreSchemasOf, IsSchemaOf, is_alike};

use crate::kinds::Kinds;
use json_groups::group::Group;
use polars_arrays_bits::error::ComputeError;
use polars_arrays_flat::byte_rows::ByteRows;
use schema_values::numbers::number_values;
use schema_values::part::SchemaPart;
use std::alloc::Global;

/// The schema of a path: a summary of the values at this path in all documents.
#[derive(Drop)]
pub struct PathSchema {
    /// The path as text, in which `[]` is any item of an array.
    pub path: Vec<u8>,
    /// The number of all documents.
    pub documents: usize,
    /// The number of null values at the path.
    pub nulls: usize,
    /// The number of documents without a value at the path.
    pub missing: usize,
    /// The number of values that are `true` or `false`.
    pub truths: usize,
    /// The number of values that are strings.
    pub texts: usize,
    /// The number of values that are objects.
    pub objects: usize,
    /// The number of values that are arrays.
    pub arrays: usize,
    /// The number of values that are numbers.
    pub numbers: usize,
    /// The number of different numbers, compared as exact decimals. `None` if a number has an
    /// exponent of more than 30 digits.
    pub distinct: Option<usize>,
    /// The least number, in the spelling that comes first in the file. `None` if there are no
    /// numbers, or if `distinct` is `None`.
    pub least: Option<Vec<u8>>,
    /// The greatest number, in the spelling that comes first in the file. `None` if there are no
    /// numbers, or if `distinct` is `None`.
    pub greatest: Option<Vec<u8>>,
}

/// Returns whether two counts are both 0, or both are not 0.
fn is_alike(left: usize, right: usize) -> bool
    ensures { result ≡ is_alike left right }
{
    if left == 0 { right == 0 } else { right != 0 }
}

impl SchemaPart for PathSchema {
    ghost use Rattle.schema_paths.specs.Paths.{same_kinds};

    ghost name_of = { λ s. s.path.items };

    ghost same_kinds = { same_kinds };

    fn name(&self) -> &[u8] {
        &self.path
    }

    fn has_kinds_of(&self, other: &PathSchema) -> bool {
        is_alike(self.nulls, other.nulls)
            && is_alike(self.truths, other.truths)
            && is_alike(self.numbers, other.numbers)
            && is_alike(self.texts, other.texts)
            && is_alike(self.objects, other.objects)
            && is_alike(self.arrays, other.arrays)
    }
}

/// Returns the schema of the path of `group`. The group has counted the values at this path.
/// `documents` is the number of all documents. The only error is `Memory`.
fn schema_of(
    alloc: Global,
    group: Group<Kinds>,
    documents: usize,
) -> Result<PathSchema, ComputeError>
    requires { (parts : List (List Part)) × AreNumeric parts × IsGroupOf HasKinds parts group }
    ensures path { IfOk result (λ schema. schema.path.items ≡ group.path.items) }
    ensures schema { MatchResult result
        (λ schema. (parts : List (List Part)) → IsGroupOf HasKinds parts group
        → documents ≡ length parts → IsSchemaOf parts schema) IsMemory }
{
    let kinds = group.tally;
    let numbers = kinds.numbers.into_array(alloc)?;
    let values = number_values(alloc, &numbers)?;
    Ok(PathSchema {
        path: group.path,
        documents,
        nulls: kinds.nulls,
        missing: documents.saturating_sub(group.documents),
        truths: kinds.truths,
        texts: kinds.texts,
        objects: kinds.objects,
        arrays: kinds.arrays,
        numbers: numbers.count(),
        distinct: values.distinct,
        least: values.least,
        greatest: values.greatest,
    })
}

/// Returns the schema of the path of each of `groups`, in the same order. `documents` is the number
/// of all documents. The only error is `Memory`.
pub(crate) fn schemas_of(
    alloc: Global,
    groups: Vec<Group<Kinds>>,
    documents: usize,
) -> Result<Vec<PathSchema>, ComputeError>
    requires { (parts : List (List Part)) × AreNumeric parts
        × AreGroupsOf HasKinds parts groups.items }
    ensures { MatchResult result
        (λ schemas. (parts : List (List Part)) → AreGroupsOf HasKinds parts groups.items
        → documents ≡ length parts → AreSchemasOf parts schemas.items) IsMemory }
{
    let mut schemas = Vec::new(alloc);
    for group in groups {
        let schema = schema_of(alloc, group, documents)?;
        schemas.push(schema)?;
    }
    Ok(schemas)
}
