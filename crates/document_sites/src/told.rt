// What small source sets are told.

ghost use Rattle.document_sites.specs.Rows.{SmallestIsRight, PathIsTold, ReadingIsToldFirst, PackageIsTold, CatalogNameIsTold, UnknownBaseIsTold, DocumentBaseIsTold, CycleIsTold, MainIsTold, ClassesAreToldFirst, WordsAreTold, TypeIsToldFirst, TakenNameIsTold, OverrideIsTold, NativeOverrideIsRight, TakenIdIsTold, ScriptIsTold, InnerTagIsToldFirst, LiteralIsTold, ReadOnlyIsTold, AttributeIsTold, HandlerIsTold, PlaceIsTold};

/// The first faults of small source sets by reading, classes and members, of each rule that it is
/// hard to place: which of two comes first, and where it stands.
#[tactic(auto, using(crate::proofs::Rows::smallest_is_right, crate::proofs::Rows::path_is_told, crate::proofs::Rows::reading_is_told_first, crate::proofs::Rows::package_is_told, crate::proofs::Rows::catalog_name_is_told, crate::proofs::Rows::unknown_base_is_told, crate::proofs::Rows::document_base_is_told, crate::proofs::Rows::cycle_is_told, crate::proofs::Rows::main_is_told, crate::proofs::Rows::classes_are_told_first, crate::proofs::Rows::words_are_told, crate::proofs::Rows::type_is_told_first, crate::proofs::Rows::taken_name_is_told, crate::proofs::Rows::override_is_told, crate::proofs::Rows::native_override_is_right, crate::proofs::Rows::taken_id_is_told, crate::proofs::Rows::script_is_told, crate::proofs::Rows::inner_tag_is_told_first, crate::proofs::Rows::literal_is_told, crate::proofs::Rows::read_only_is_told, crate::proofs::Rows::attribute_is_told, crate::proofs::Rows::handler_is_told, crate::proofs::Rows::place_is_told))]
pub fn small_sources_are_told()
    ensures smallest_is_right { SmallestIsRight }
    ensures path_is_told { PathIsTold }
    ensures reading_is_told_first { ReadingIsToldFirst }
    ensures package_is_told { PackageIsTold }
    ensures catalog_name_is_told { CatalogNameIsTold }
    ensures unknown_base_is_told { UnknownBaseIsTold }
    ensures document_base_is_told { DocumentBaseIsTold }
    ensures cycle_is_told { CycleIsTold }
    ensures main_is_told { MainIsTold }
    ensures classes_are_told_first { ClassesAreToldFirst }
    ensures words_are_told { WordsAreTold }
    ensures type_is_told_first { TypeIsToldFirst }
    ensures taken_name_is_told { TakenNameIsTold }
    ensures override_is_told { OverrideIsTold }
    ensures native_override_is_right { NativeOverrideIsRight }
    ensures taken_id_is_told { TakenIdIsTold }
    ensures script_is_told { ScriptIsTold }
    ensures inner_tag_is_told_first { InnerTagIsToldFirst }
    ensures literal_is_told { LiteralIsTold }
    ensures read_only_is_told { ReadOnlyIsTold }
    ensures attribute_is_told { AttributeIsTold }
    ensures handler_is_told { HandlerIsTold }
    ensures place_is_told { PlaceIsTold }
{}
