// What holds of the whole table.

ghost use Rattle.std.specs.Prelude.{IsTrue};
ghost use Rattle.std.specs.List.{list_all};
ghost use Rattle.component_catalog.specs.Classes.{classes};
ghost use Rattle.component_catalog.specs.Laws.{has_distinct_names, has_fitting_values, sends_events, IsListed, IsFoundByName, GoesUp};

/// The rules of the table: each class is in the list `classes` and is found by its name, which no
/// other class has; each chain of bases ends; along it no two rows have one name; each starting
/// value is of its type; the class of each event is Event or one that extends it.
pub fn laws_of_the_catalog()
    ensures listed { IsListed }
    ensures found { IsFoundByName }
    ensures ends { GoesUp }
    ensures names { IsTrue (list_all has_distinct_names classes) }
    ensures values { IsTrue (list_all has_fitting_values classes) }
    ensures events { IsTrue (list_all sends_events classes) }
{}
