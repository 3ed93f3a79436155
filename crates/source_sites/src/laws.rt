// What holds of lists of sites.

ghost use Rattle.source_sites.specs.Sites.{FirstSiteOfTwo, FirstInFile, FirstOfTwo, NoneExactlyWhereAllHold};

/// The first broken site of lists that are put together is that of the first list that has one, in
/// the files of a source set and in one file; that of a file is where its first rule fails; and no
/// site is broken exactly where every rule holds. So who shows the first broken site of each list
/// has shown that of the whole.
#[tactic(auto, using(crate::proofs::SiteLaws::first_of_two, crate::proofs::SiteLaws::first_site_of_two, crate::proofs::SiteLaws::first_in_file, crate::proofs::SiteLaws::none_exactly_where_all_hold))]
pub fn laws_of_sites()
    ensures first_of_two { FirstOfTwo }
    ensures first_site_of_two { FirstSiteOfTwo }
    ensures first_in_file { FirstInFile }
    ensures none_broken { NoneExactlyWhereAllHold }
{}
