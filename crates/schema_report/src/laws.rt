//! The law of a schema compared with itself. The function does nothing; its contract has the law.

ghost use Rattle.schema_report.specs.Laws.{AllTheSame, HasOwnKinds, NothingWritten};

use schema_values::part::SchemaPart;

/// States that a schema has no differences from itself, even if several parts have the same name:
/// all its parts are counted as the same, and no text is written. Each part must have the same kinds
/// as itself.
pub fn own_schema_law<S: SchemaPart>()
    requires own_kinds { HasOwnKinds S.same_kinds }
    ensures counts { AllTheSame S.name_of S.same_kinds }
    ensures text { NothingWritten S.name_of S.same_kinds }
{}
