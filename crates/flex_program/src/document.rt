// Documents: their instances, bindings and states.

ghost use Rattle.std.specs.Prelude.{◌≡◌, map};
ghost use Rattle.flex_program.specs.DocumentTerms.{HasContents, HasPart, binding_of, chain_of, destination_of, document_of, instance_of, override_of, source_of, state_of};

use crate::code::{Expr, Literal};
use flex_base::{Chain, Names, Text};
use flex_world::Class;

/// What an attribute does.
#[derive(Drop)]
pub enum Attribute {
    Sets { name: Text, value: Literal },
    /// Registers the handler with this number among the program's methods.
    Handles { event: Text, method: u32 },
}

/// When an instance that carries includeIn or excludeFrom is there.
#[derive(Drop)]
pub struct Presence {
    /// The names of the states that include it.
    pub states: Names,
    /// Its declared parent, by number.
    pub container: u32,
    /// itemCreationPolicy is `immediate`.
    pub immediate: bool,
    /// itemDestructionPolicy is `auto`.
    pub auto: bool,
}

/// An instance without what stands in it. Its number is its place among the instances of its
/// document in document order, from the root, which is 0.
#[derive(Drop)]
pub struct Part {
    pub number: u32,
    pub class: Class,
    pub id: Option<Text>,
    /// Of an instance that carries includeIn or excludeFrom.
    pub presence: Option<Presence>,
    pub attributes: Vec<Attribute>,
}

/// An instance, with the tags that stand in it in document order. Those in fx:Declarations stand in
/// the root.
#[cycle(instance)]
#[derive(Drop)]
pub struct Instance {
    pub part: Part,
    pub contents: Vec<Content>,
}

impl Instance {
    /// The instance without what stands in it.
    pub fn part(&self) -> &Part
        ensures { HasPart self.now result.now }
    {
        &self.part
    }

    /// The tags that stand in it, in document order.
    pub fn contents(&self) -> &[Content]
        ensures { HasContents self.now result.now }
    {
        &self.contents
    }
}

/// A tag in an instance.
#[cycle(instance)]
#[derive(Drop)]
pub enum Content {
    /// A visual child.
    Child(Instance),
    /// A property tag that is no binding.
    Tag { name: Text, value: Given },
    /// An instance in fx:Declarations.
    Declared(Instance),
    /// fx:String, fx:int, fx:Boolean or fx:Array in fx:Declarations.
    DeclaredValue { id: Text, value: Given },
}

/// What a property tag or an item of an Array holds.
#[cycle(instance)]
#[derive(Drop)]
pub enum Given {
    Literal(Literal),
    Instance(Instance),
    Array(Vec<Given>),
}

/// A chain that a binding watches: bindable properties, one of another, from the document or, in the
/// second half of a two-way binding, from the instance with the number `start`.
#[derive(Drop)]
pub struct WatchedChain {
    pub start: Option<u32>,
    pub names: Chain,
}

/// What a binding reads.
#[derive(Drop)]
pub enum BindingSource {
    Expression(Expr),
    /// A property of an instance, by the instance's number.
    Property { instance: u32, name: Text },
}

/// What a binding writes.
#[derive(Drop)]
pub enum Destination {
    /// An attribute or property text of an instance, by the instance's number.
    Instance { instance: u32, name: Text },
    /// Properties, one of another, from the document; there is at least one.
    Chain(Chain),
}

/// A binding. Its number is its place in its document's list.
#[derive(Drop)]
pub struct Binding {
    pub source: BindingSource,
    pub destination: Destination,
    /// Each is cut before its first name that isn't bindable.
    pub chains: Vec<WatchedChain>,
    /// The other half of a two-way binding, by its number.
    pub counterpart: Option<u32>,
    /// Whether it is the second half of one.
    pub second: bool,
}

impl Binding {
    /// What the binding reads.
    pub fn source(&self) -> &BindingSource
        ensures { source_of result.now ≡ (binding_of self.now).source }
    {
        &self.source
    }

    /// What the binding writes.
    pub fn destination(&self) -> &Destination
        ensures { destination_of result.now ≡ (binding_of self.now).destination }
    {
        &self.destination
    }

    /// The chains that it watches.
    pub fn chains(&self) -> &[WatchedChain]
        ensures { map chain_of result.now ≡ (binding_of self.now).chains }
    {
        &self.chains
    }

    /// The number of the other half of a two-way binding, or none.
    pub fn counterpart(&self) -> Option<u32>
        ensures { result ≡ (binding_of self.now).counterpart }
    {
        self.counterpart
    }

    /// Whether it is the second half of one.
    pub fn second(&self) -> bool
        ensures { result ≡ (binding_of self.now).second }
    {
        self.second
    }
}

/// What a state changes of an instance.
#[derive(Drop)]
pub enum Change {
    Property {
        name: Text,
        value: Literal,
    },
    /// The handler takes the place of the one that the instance's own attribute registers, if there
    /// is one.
    Handler {
        event: Text,
        base: Option<u32>,
        method: u32,
    },
}

/// A change of the instance with this number.
#[derive(Drop)]
pub struct Override {
    pub instance: u32,
    pub change: Change,
}

/// A view state.
#[derive(Drop)]
pub struct State {
    pub name: Text,
    /// In the order in which they apply: those of its groups, and then its own, each in document
    /// order.
    pub overrides: Vec<Override>,
}

impl State {
    /// The name of the state.
    pub fn name(&self) -> &str
        ensures { result.now ≡ (state_of self.now).name }
    {
        self.name.as_str()
    }

    /// What it changes, in the order in which the changes apply.
    pub fn overrides(&self) -> &[Override]
        ensures { map override_of result.now ≡ (state_of self.now).overrides }
    {
        &self.overrides
    }
}

/// What an MXML document declares.
#[derive(Drop)]
pub struct Document {
    pub root: Instance,
    pub bindings: Vec<Binding>,
    /// The first is the initial one.
    pub states: Vec<State>,
}

impl Document {
    /// The instance that holds all others.
    pub fn root(&self) -> &Instance
        ensures { instance_of result.now ≡ (document_of self.now).root }
    {
        &self.root
    }

    /// The bindings; the number of each is its place.
    pub fn bindings(&self) -> &[Binding]
        ensures { map binding_of result.now ≡ (document_of self.now).bindings }
    {
        &self.bindings
    }

    /// The states, of which the first is the initial one.
    pub fn states(&self) -> &[State]
        ensures { map state_of result.now ≡ (document_of self.now).states }
    {
        &self.states
    }
}
