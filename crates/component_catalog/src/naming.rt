// Native classes by their names.

ghost use Rattle.std.specs.Prelude.{◌≡◌};
ghost use Rattle.component_catalog.specs.Classes.{class_in, class_named, class_of};

use crate::class::NativeClass;

/// The namespace of the native classes in documents. Flex 4.
const SPARK: &str = "library://ns.adobe.com/flex/spark";

/// The class of a tag, by its namespace and its local name. A row have exactly the pairs of the
/// namespace `library://ns.adobe.com/flex/spark` with the name of a class of the catalog, whatever
/// its package, those without a tag included: whether the class may stand there, `tag_place` says.
/// `None` for all others. Namespaces that name a package, as `spark.components.*`, are no rows:
/// source classes go first there, and `class_in` finds what is left.
pub fn class_of(space: &str, local: &str) -> Option<NativeClass>
    ensures { result ≡ class_of space.now local.now }
{
    if space == SPARK {
        class_named(local)
    } else {
        None
    }
}

/// The class of this name in a package, whose parts are joined by dots: `None` exactly where the
/// catalog has no such class in it.
pub fn class_in(package_name: &str, name: &str) -> Option<NativeClass>
    ensures { result ≡ class_in package_name.now name.now }
{
    let class = class_named(name)?;
    if class.package() == package_name {
        Some(class)
    } else {
        None
    }
}

// The class of this name. No two classes have one name.
fn class_named(name: &str) -> Option<NativeClass>
    ensures { result ≡ class_named name.now }
{
    match name {
        "EventDispatcher" => Some(NativeClass::EventDispatcher),
        "UIComponent" => Some(NativeClass::UIComponent),
        "SkinnableContainer" => Some(NativeClass::SkinnableContainer),
        "Group" => Some(NativeClass::Group),
        "VGroup" => Some(NativeClass::VGroup),
        "HGroup" => Some(NativeClass::HGroup),
        "Application" => Some(NativeClass::Application),
        "Panel" => Some(NativeClass::Panel),
        "Label" => Some(NativeClass::Label),
        "Button" => Some(NativeClass::Button),
        "ToggleButton" => Some(NativeClass::ToggleButton),
        "CheckBox" => Some(NativeClass::CheckBox),
        "TextInput" => Some(NativeClass::TextInput),
        "State" => Some(NativeClass::State),
        "Event" => Some(NativeClass::Event),
        "MouseEvent" => Some(NativeClass::MouseEvent),
        "FlexEvent" => Some(NativeClass::FlexEvent),
        _ => None,
    }
}
