// The methods of the native classes.

ghost use Rattle.std.specs.Prelude.{◌≡◌, option_map};
ghost use Rattle.component_catalog.specs.Methods.{method_of, own_method, parameters_of, result_of, row_of};

use crate::class::NativeClass;
use crate::value::{StartValue, ValueType};

/// A method of a native class, whichever class has it.
#[derive(Clone, Copy, Debug, PartialEq, Eq)]
pub enum NativeMethod {
    AddEventListener,
    RemoveEventListener,
    HasEventListener,
    DispatchEvent,
    AddElement,
    RemoveElement,
    RemoveAllElements,
    GetElementAt,
    StopPropagation,
    StopImmediatePropagation,
    PreventDefault,
    IsDefaultPrevented,
}

/// What a parameter of a native method takes.
#[derive(Clone, Copy, Debug, PartialEq, Eq)]
pub enum Parameter {
    /// A value of a type, which every call gives.
    Required(ValueType),
    /// A value of a type, and the one that stands where a call leaves it out.
    Optional(ValueType, StartValue),
    /// A listener, which every call gives.
    Listener,
}

/// A method of a native class. It is public.
#[derive(Clone, Copy, Debug)]
pub struct MethodRow {
    pub method: NativeMethod,
    /// Its parameters, in order; the optional ones are the last.
    pub parameters: &'static [Parameter],
    /// The type of what it gives back; `None` where that is `void`.
    pub result: Option<ValueType>,
}

/// The method of this name that the objects of a class have: the class's own, or that of the
/// nearest base that has one. `None` exactly where there is none.
pub fn method_of(class: NativeClass, name: &str) -> Option<MethodRow>
    ensures { option_map row_of result ≡ method_of class name.now }
{
    let mut level = Some(class);
    while let Some(class) = level {
        if let Some(method) = own_method(class, name) {
            return Some(MethodRow {
                method,
                parameters: method.parameters(),
                result: method.result(),
            });
        }
        level = class.base();
    }
    None
}

// The method of this name that a class has beside those of its base.
fn own_method(class: NativeClass, name: &str) -> Option<NativeMethod>
    ensures { result ≡ own_method class name.now }
{
    match class {
        NativeClass::EventDispatcher => match name {
            "addEventListener" => Some(NativeMethod::AddEventListener),
            "removeEventListener" => Some(NativeMethod::RemoveEventListener),
            "hasEventListener" => Some(NativeMethod::HasEventListener),
            "dispatchEvent" => Some(NativeMethod::DispatchEvent),
            _ => None,
        },
        NativeClass::SkinnableContainer | NativeClass::Group => match name {
            "addElement" => Some(NativeMethod::AddElement),
            "removeElement" => Some(NativeMethod::RemoveElement),
            "removeAllElements" => Some(NativeMethod::RemoveAllElements),
            "getElementAt" => Some(NativeMethod::GetElementAt),
            _ => None,
        },
        NativeClass::Event => match name {
            "stopPropagation" => Some(NativeMethod::StopPropagation),
            "stopImmediatePropagation" => Some(NativeMethod::StopImmediatePropagation),
            "preventDefault" => Some(NativeMethod::PreventDefault),
            "isDefaultPrevented" => Some(NativeMethod::IsDefaultPrevented),
            _ => None,
        },
        _ => None,
    }
}

/// The elements of containers.
const ELEMENT: ValueType = ValueType::Object(NativeClass::UIComponent);

/// A flag that is false where a call leaves it out.
const FLAG: Parameter = Parameter::Optional(ValueType::Boolean, StartValue::Bool(false));

impl NativeMethod {
    /// Its parameters, in order; the optional ones are the last.
    pub fn parameters(self) -> &'static [Parameter]
        ensures { result.now ≡ parameters_of self }
    {
        match self {
            NativeMethod::AddEventListener => &[
                Parameter::Required(ValueType::String),
                Parameter::Listener,
                FLAG,
                Parameter::Optional(ValueType::Int, StartValue::Int(0)),
            ],
            NativeMethod::RemoveEventListener => &[
                Parameter::Required(ValueType::String),
                Parameter::Listener,
                FLAG,
            ],
            NativeMethod::HasEventListener => &[Parameter::Required(ValueType::String)],
            NativeMethod::DispatchEvent => {
                &[Parameter::Required(ValueType::Object(NativeClass::Event))]
            }
            NativeMethod::AddElement | NativeMethod::RemoveElement => {
                &[Parameter::Required(ELEMENT)]
            }
            NativeMethod::GetElementAt => &[Parameter::Required(ValueType::Int)],
            NativeMethod::RemoveAllElements
            | NativeMethod::StopPropagation
            | NativeMethod::StopImmediatePropagation
            | NativeMethod::PreventDefault
            | NativeMethod::IsDefaultPrevented => &[],
        }
    }

    // The type of what it gives back.
    fn result(self) -> Option<ValueType>
        ensures { result ≡ result_of self }
    {
        match self {
            NativeMethod::HasEventListener
            | NativeMethod::DispatchEvent
            | NativeMethod::IsDefaultPrevented => Some(ValueType::Boolean),
            NativeMethod::AddElement | NativeMethod::RemoveElement | NativeMethod::GetElementAt =>
                Some(ELEMENT),
            _ => None,
        }
    }
}
