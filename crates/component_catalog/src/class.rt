// The native classes.

ghost use Rattle.std.specs.Prelude.{◌≡◌};
ghost use Rattle.component_catalog.specs.Classes.{base_of, name_of, package_of, tag_place};

/// A class of the catalog.
#[derive(Clone, Copy, Debug, PartialEq, Eq)]
pub enum NativeClass {
    EventDispatcher,
    UIComponent,
    SkinnableContainer,
    Group,
    VGroup,
    HGroup,
    Application,
    Panel,
    Label,
    Button,
    ToggleButton,
    CheckBox,
    TextInput,
    /// A view state. Its name is no type and no class in code.
    State,
    Event,
    MouseEvent,
    FlexEvent,
}

/// Where a class may stand as a tag of a document.
#[derive(Clone, Copy, Debug, PartialEq, Eq)]
pub enum TagPlace {
    /// Nowhere: the class has no tag.
    Nowhere,
    /// As an instance, and as the root of a document.
    Anywhere,
    /// As the root of a document alone.
    Root,
    /// In `s:states` alone.
    States,
}

impl NativeClass {
    /// The class's own name, without its package.
    pub fn name(self) -> &'static str
        ensures { result.now ≡ name_of self }
    {
        match self {
            NativeClass::EventDispatcher => "EventDispatcher",
            NativeClass::UIComponent => "UIComponent",
            NativeClass::SkinnableContainer => "SkinnableContainer",
            NativeClass::Group => "Group",
            NativeClass::VGroup => "VGroup",
            NativeClass::HGroup => "HGroup",
            NativeClass::Application => "Application",
            NativeClass::Panel => "Panel",
            NativeClass::Label => "Label",
            NativeClass::Button => "Button",
            NativeClass::ToggleButton => "ToggleButton",
            NativeClass::CheckBox => "CheckBox",
            NativeClass::TextInput => "TextInput",
            NativeClass::State => "State",
            NativeClass::Event => "Event",
            NativeClass::MouseEvent => "MouseEvent",
            NativeClass::FlexEvent => "FlexEvent",
        }
    }

    /// The name of the class's package, its parts joined by dots.
    pub fn package(self) -> &'static str
        ensures { result.now ≡ package_of self }
    {
        match self {
            NativeClass::EventDispatcher | NativeClass::Event | NativeClass::MouseEvent => {
                "flash.events"
            }
            NativeClass::FlexEvent => "mx.events",
            NativeClass::UIComponent => "mx.core",
            NativeClass::State => "mx.states",
            _ => "spark.components",
        }
    }

    /// The class that this one extends. `None` exactly for the three classes that extend none:
    /// EventDispatcher, State and Event.
    pub fn base(self) -> Option<NativeClass>
        ensures { result ≡ base_of self }
    {
        match self {
            NativeClass::EventDispatcher | NativeClass::State | NativeClass::Event => None,
            NativeClass::UIComponent => Some(NativeClass::EventDispatcher),
            NativeClass::VGroup | NativeClass::HGroup => Some(NativeClass::Group),
            NativeClass::Application | NativeClass::Panel => Some(NativeClass::SkinnableContainer),
            NativeClass::MouseEvent | NativeClass::FlexEvent => Some(NativeClass::Event),
            _ => Some(NativeClass::UIComponent),
        }
    }

    /// Where the class may stand as a tag.
    pub fn tag_place(self) -> TagPlace
        ensures { result ≡ tag_place self }
    {
        match self {
            NativeClass::EventDispatcher
            | NativeClass::UIComponent
            | NativeClass::SkinnableContainer
            | NativeClass::Event
            | NativeClass::MouseEvent
            | NativeClass::FlexEvent => TagPlace::Nowhere,
            NativeClass::Application => TagPlace::Root,
            NativeClass::State => TagPlace::States,
            _ => TagPlace::Anywhere,
        }
    }
}
