// The codes of faults.

ghost use Rattle.std.specs.Prelude.{◌≡◌};
ghost use Rattle.source_sites.specs.CodeNames.{name_of};

/// Which rule of a source set is broken. The codes stand in the order in which the rules are looked
/// at, each where it is looked at first: by reading, classes, members and documents, code, bindings,
/// view states and styles. The names and their order are this project's own.
#[derive(Clone, Copy, Debug, PartialEq, Eq)]
pub enum Code {
    /// The path of a file isn't one that a class can have, or is too long.
    BadPath,
    /// A document isn't UTF-8.
    NotUtf8,
    /// A document has a `<!DOCTYPE`.
    Doctype,
    /// No item of a document begins here.
    NotAnItem,
    /// Text, CDATA or a second element stands outside the root.
    TextOutside,
    /// An element, or a token of code, opens more levels than there may be.
    TooDeep,
    /// Two attributes of an element have one written name.
    DuplicateAttribute,
    /// A prefix isn't declared.
    UnknownPrefix,
    /// An end tag isn't that of the open element.
    WrongEnd,
    /// An element isn't closed.
    Unclosed,
    /// A document has no element.
    NoRoot,
    /// No token of code begins here.
    BadToken,
    /// Code isn't a sentence of the grammar.
    Syntax,
    /// A package or a class isn't named as its file.
    WrongClassName,
    /// The name of a class is taken.
    DuplicateClass,
    /// A base, or a root, isn't a class.
    UnknownClass,
    /// A class may not be extended, or may not be a root.
    WrongBase,
    /// A class is its own ancestor.
    BaseCycle,
    /// The root of the main document isn't an Application.
    NotApplication,
    /// The words before a declaration can't stand there, or an import has a `*` that isn't last.
    WrongModifiers,
    /// A type isn't one.
    UnknownType,
    /// A name that a class declares is taken.
    DuplicateMember,
    /// An override doesn't fit what it overrides.
    WrongOverride,
    /// Metadata can't stand there, or misses what it needs.
    BadMetadata,
    /// A tag isn't known.
    UnknownTag,
    /// A tag, a text or an attribute can't stand where it stands.
    WrongPlace,
    /// An attribute isn't known.
    UnknownAttribute,
    /// What can't be written is written.
    ReadOnly,
    /// A text doesn't convert to the type of its property, or an `id` isn't an identifier.
    BadLiteral,
    /// A text or an expression is longer than it may be.
    TooLong,
    /// Something is past the number of such things that there may be.
    TooMany,
    /// A name stands for nothing, or for what may not be seen.
    UnknownName,
    /// A number is greater than an `int` can be.
    LiteralRange,
    /// A call has too few or too many arguments.
    WrongCount,
    /// A value's type doesn't go into its place.
    NotAssignable,
    /// An operand isn't of the kind that its operator needs.
    WrongKind,
    /// A division isn't the whole argument of a conversion to `int`.
    DivisionPlace,
    /// What is assigned to can't be.
    NotAPlace,
    /// An expression that is a statement isn't a call.
    NotACall,
    /// A `break` or `continue` is outside all loops.
    NotInLoop,
    /// A `return` has a value that its function doesn't give, or misses the one that it gives.
    WrongReturn,
    /// Two local names of a function are the same.
    DuplicateLocal,
    /// A `super` can't stand where it stands.
    SuperPlace,
    /// What stands in braces is no expression, or a binding misses a part.
    BadBinding,
    /// A two-way binding has an end that can't be written.
    NotTwoWay,
    /// A name of a state or a group is taken, or is none.
    DuplicateState,
    /// A name stands for no state and no group.
    UnknownStateName,
    /// An element has both `includeIn` and `excludeFrom`.
    BothIncludes,
    /// An override can't stand where it stands.
    OverridePlace,
    /// A policy isn't one, or stands without `includeIn` and `excludeFrom`.
    BadPolicy,
    /// A style can't stand where it stands.
    StylePlace,
    /// The text of a style isn't one.
    BadStyle,
    /// Nothing is at fault, but the sources have what isn't built yet.
    NotYetBuilt,
}

impl Code {
    /// The name of the code, as it is printed.
    pub fn name(self) -> &'static str
        ensures { result.now ≡ name_of self }
    {
        match self {
            Code::BadPath => "BadPath",
            Code::NotUtf8 => "NotUtf8",
            Code::Doctype => "Doctype",
            Code::NotAnItem => "NotAnItem",
            Code::TextOutside => "TextOutside",
            Code::TooDeep => "TooDeep",
            Code::DuplicateAttribute => "DuplicateAttribute",
            Code::UnknownPrefix => "UnknownPrefix",
            Code::WrongEnd => "WrongEnd",
            Code::Unclosed => "Unclosed",
            Code::NoRoot => "NoRoot",
            Code::BadToken => "BadToken",
            Code::Syntax => "Syntax",
            Code::WrongClassName => "WrongClassName",
            Code::DuplicateClass => "DuplicateClass",
            Code::UnknownClass => "UnknownClass",
            Code::WrongBase => "WrongBase",
            Code::BaseCycle => "BaseCycle",
            Code::NotApplication => "NotApplication",
            Code::WrongModifiers => "WrongModifiers",
            Code::UnknownType => "UnknownType",
            Code::DuplicateMember => "DuplicateMember",
            Code::WrongOverride => "WrongOverride",
            Code::BadMetadata => "BadMetadata",
            Code::UnknownTag => "UnknownTag",
            Code::WrongPlace => "WrongPlace",
            Code::UnknownAttribute => "UnknownAttribute",
            Code::ReadOnly => "ReadOnly",
            Code::BadLiteral => "BadLiteral",
            Code::TooLong => "TooLong",
            Code::TooMany => "TooMany",
            Code::UnknownName => "UnknownName",
            Code::LiteralRange => "LiteralRange",
            Code::WrongCount => "WrongCount",
            Code::NotAssignable => "NotAssignable",
            Code::WrongKind => "WrongKind",
            Code::DivisionPlace => "DivisionPlace",
            Code::NotAPlace => "NotAPlace",
            Code::NotACall => "NotACall",
            Code::NotInLoop => "NotInLoop",
            Code::WrongReturn => "WrongReturn",
            Code::DuplicateLocal => "DuplicateLocal",
            Code::SuperPlace => "SuperPlace",
            Code::BadBinding => "BadBinding",
            Code::NotTwoWay => "NotTwoWay",
            Code::DuplicateState => "DuplicateState",
            Code::UnknownStateName => "UnknownStateName",
            Code::BothIncludes => "BothIncludes",
            Code::OverridePlace => "OverridePlace",
            Code::BadPolicy => "BadPolicy",
            Code::StylePlace => "StylePlace",
            Code::BadStyle => "BadStyle",
            Code::NotYetBuilt => "NotYetBuilt",
        }
    }
}
