// The native classes that the built sources use.

ghost use Rattle.std.specs.Prelude.{◌≡◌};
ghost use Rattle.avm2_machine.specs.Names.{class_named, class_name};

/// A class of the player. Flex 4, the packages `spark.components`.
#[derive(Clone, Copy, Debug, PartialEq, Eq)]
pub enum NativeClass {
    Application,
    Label,
    Button,
}

impl NativeClass {
    /// The class's own name, without its package.
    pub fn name(self) -> &'static str
        ensures { result.now ≡ class_name self }
    {
        match self {
            NativeClass::Application => "Application",
            NativeClass::Label => "Label",
            NativeClass::Button => "Button",
        }
    }
}

/// The class of this name in a package: `None` exactly where there is none.
pub fn class_named(space: &str, local: &str) -> Option<NativeClass>
    ensures { result ≡ class_named space.now local.now }
{
    if space != "spark.components" {
        return None;
    }
    match local {
        "Application" => Some(NativeClass::Application),
        "Label" => Some(NativeClass::Label),
        "Button" => Some(NativeClass::Button),
        _ => None,
    }
}
