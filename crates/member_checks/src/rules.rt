// The rules of the types that code names.

ghost use Rattle.std.specs.Prelude.{◌≡◌, [], ◌∷◌, IfOk};
ghost use Rattle.as3_types.specs.Types.{type_of};
ghost use Rattle.member_checks.specs.CodeRules.{Finds, known_type, type_rule};

use crate::scope::ClassScope;
use as3_parser::Lexeme;
use as3_types::{ValueType, site_unless, start_of, type_at};
use flex_base::NoMemory;
use source_sites::{Code, Site};
use std::alloc::Global;

/// A type is one that stands for itself, or a class. At the type.
pub fn unknown_type(
    alloc: Global,
    scope: &ClassScope,
    path: &[Lexeme],
) -> Result<Option<Site>, NoMemory>
    ensures { IfOk result (Finds scope.now (type_rule scope.now path.now ∷ [])) }
{
    let classes = scope.table.classes.as_slice();
    let found = type_at(alloc, classes, scope.here, path)?;
    let holds = is_known(scope, found);
    Ok(site_unless(holds, scope.file, start_of(path), Code::UnknownType))
}

fn is_known(scope: &ClassScope, found: ValueType) -> bool
    ensures { result ≡ known_type scope.now (type_of found) }
{
    !matches!(found, ValueType::Unknown)
}
