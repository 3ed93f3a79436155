// The rules of imports.

ghost use Rattle.std.specs.Prelude.{◌≡◌, map};
ghost use Rattle.source_sites.specs.Sites.{first_site};
ghost use Rattle.source_sites.specs.Trees.{import_of};
ghost use Rattle.class_sites.specs.MemberSites.{wrong_import};

use as3_parser::Import;
use as3_types::wrong_import;
use source_sites::Site;

/// The first broken rule of the imports of a class file, in text order.
pub fn check_imports(file: u32, imports: &[Import]) -> Option<Site>
    ensures { result ≡ first_site file (map wrong_import (map import_of imports.now)) }
{
    let mut rest = imports;
    while let Some((import, others)) = rest.split_first() {
        let site = wrong_import(file, import);
        if site.is_some() {
            return site;
        }
        rest = others;
    }
    None
}
