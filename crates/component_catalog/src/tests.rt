// A few rows, some of them inherited, and some that are missing.

use crate::{
    EventRow, NativeClass, NativeMethod, Parameter, PropertyRow, StartValue, TagPlace, ValueType,
    class_in, class_of, event_of, method_of, property_of,
};

const SPARK: &str = "library://ns.adobe.com/flex/spark";

#[test]
fn classes_have_their_names(rt: HostRuntime) {
    assert_eq!(rt; class_of(SPARK, "VGroup"), Some(NativeClass::VGroup));
    assert_eq!(rt; class_of(SPARK, "State"), Some(NativeClass::State));
    assert_eq!(rt; class_of(SPARK, "Event"), Some(NativeClass::Event));
    assert_eq!(rt; class_of(SPARK, "Grou"), None);
    assert_eq!(rt; class_of("spark.components.*", "VGroup"), None);
    assert_eq!(rt;
        class_in("spark.components", "Button"),
        Some(NativeClass::Button)
    );
    assert_eq!(rt;
        class_in("mx.events", "FlexEvent"),
        Some(NativeClass::FlexEvent)
    );
    assert_eq!(rt; class_in("flash.events", "FlexEvent"), None);
    assert_eq!(rt;
        NativeClass::SkinnableContainer.tag_place(),
        TagPlace::Nowhere
    );
    assert_eq!(rt; NativeClass::Application.tag_place(), TagPlace::Root);
}

#[test]
fn properties_are_inherited(rt: HostRuntime) {
    let gap = PropertyRow {
        kind: ValueType::Int,
        start: StartValue::Int(6),
        read_only: false,
        bindable: true,
        public: true,
    };
    assert_eq!(rt; property_of(NativeClass::HGroup, "gap"), Some(gap));
    let parent = PropertyRow {
        kind: ValueType::Object(NativeClass::UIComponent),
        start: StartValue::Null,
        read_only: true,
        bindable: false,
        public: true,
    };
    assert_eq!(rt; property_of(NativeClass::Panel, "parent"), Some(parent));
    assert_eq!(rt; property_of(NativeClass::Group, "gap"), None);
    assert_eq!(rt; property_of(NativeClass::State, "visible"), None);
}

#[test]
fn events_and_methods_are_inherited(rt: HostRuntime) {
    let click = EventRow {
        class: NativeClass::MouseEvent,
        bubbles: true,
        cancelable: true,
    };
    assert_eq!(rt; event_of(NativeClass::TextInput, "click"), Some(click));
    assert_eq!(rt; event_of(NativeClass::Button, "change"), None);
    let method = method_of(NativeClass::Label, "removeEventListener");
    assert_eq!(rt;
        method.map(|m| m.method),
        Some(NativeMethod::RemoveEventListener)
    );
    assert_eq!(rt; method.map_or(0, |m| m.parameters.len()), 3);
    assert_eq!(rt;
        method_of(NativeClass::Label, "addElement").map(|m| m.method),
        None
    );
    let default = Parameter::Optional(ValueType::Boolean, StartValue::Bool(false));
    let last = method.and_then(|m| m.parameters.last().copied());
    assert_eq!(rt; last, Some(default));
}
