// Laws of checked programs.

ghost use Rattle.flex_program.specs.Forms.{ContentForms, GivenForms, StartForms, StepForms, StmtForms};
ghost use Rattle.flex_program.specs.Program.{Contents, Expr};
ghost use Rattle.flex_program.specs.Laws.{AncestorsGoOn, FieldsAreKept, MethodsAreKept};

/// In a fine program ancestors of ancestors are ancestors; objects have the fields of each ancestor
/// of their class; and a method's name stands for one that takes and gives the same in each class
/// below.
pub fn laws_of_classes()
    ensures ancestors { AncestorsGoOn }
    ensures fields { FieldsAreKept }
    ensures methods { MethodsAreKept }
{}

/// The terms of declared forms with lists or further forms in them are made of the terms of these.
pub fn laws_of_terms()
    ensures start { StartForms }
    ensures steps { (e : Expr) → StepForms e }
    ensures statements { StmtForms }
    ensures contents { (rest : Contents) → ContentForms rest }
    ensures given { GivenForms }
{}
