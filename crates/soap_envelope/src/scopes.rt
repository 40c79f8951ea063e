// The declarations that are in scope, and what a prefix stands for by them.
ghost use Rattle.std.specs.Prelude.{◌≡◌, ◌∷◌, ◌++◌, ◌≤◌, [], IfOk, OnErr, OnOk, is_some, length, take};
ghost use Rattle.std.specs.Option.{option_copied};
ghost use Rattle.soap_envelope.specs.Bindings as bindings;
ghost use Rattle.soap_envelope.specs.Bindings.{IsGrown, declared_by, declared_there, innermost};
ghost use Rattle.soap_envelope.specs.Layers.{layer_of};
ghost use Rattle.soap_envelope.specs.Scopes as spec;
ghost use Rattle.soap_envelope.specs.Scopes.{declared};

use crate::bindings::Bindings;
use crate::layers::Declared;
use crate::namespaces::XML;
use nbfx_values::{AttrItem, Item, Txt};
use std::alloc::Global;
use std::marker::Model;
use unit_streams::Memory;

// The declarations at the head of what stands behind the beginning of an element, one by one.
pub(crate) fn declarations_in<'d>(
    alloc: Global,
    behind: &'d [Item],
) -> Result<Vec<Declared<'d>>, Memory>
    ensures { IfOk result (λ layer. layer_of layer ≡ declared behind.now) }
{
    let mut layer = Vec::new(alloc);
    for item in behind {
        match item {
            Item::Xmlns { prefix, uri } => layer.push(Declared {
                prefix: prefix.as_str(),
                uri: uri.as_str(),
            })?,
            Item::Attr { .. } => {}
            _ => return Ok(layer),
        }
    }
    Ok(layer)
}

// What a prefix stands for where nothing declares it.
#[tactic(auto, unfolding(crate::specs::Names::xml_namespace))]
fn undeclared_uri(prefix: &str) -> Option<&'static str>
    ensures { option_copied result ≡ spec.undeclared_uri prefix.now }
{
    match prefix {
        "" => Some(""),
        "xml" => Some(XML),
        _ => None,
    }
}

// How many declarations and attributes stand at the head of what stands behind the beginning of an
// element.
fn head_len(behind: &[Item]) -> usize
    ensures within { result ≤ length behind.now }
    ensures head { result ≡ bindings.head_len behind.now }
{
    for (i, item) in behind.iter().enumerate() {
        match item {
            Item::Xmlns { .. } | Item::Attr { .. } => {}
            _ => return i,
        }
    }
    behind.len()
}

// Puts what an item declares on top.
fn bind_item<'d>(bound: &mut Bindings<'d>, item: &'d Item) -> Result<(), Memory>
    ensures put { OnOk result (bound.new ≡ declared_by item.now ++ bound.old) }
    ensures kept { OnErr result (bound.new ≡ bound.old) }
{
    match item {
        Item::Xmlns { prefix, uri } => bound.push(prefix.as_str(), uri.as_str()),
        _ => Ok(()),
    }
}

// Puts the declarations of the element behind whose beginning these items stand on top: the first
// one last, since it counts where an element declares a prefix twice.
fn bind_declared<'d>(bound: &mut Bindings<'d>, behind: &'d [Item]) -> Result<(), Memory>
    ensures put { OnOk result (bound.new ≡ declared behind.now ++ bound.old) }
    ensures grown { IsGrown bound.old bound.new }
{
    let mut more = head_len(behind);
    while more > 0 {
        more -= 1;
        bind_item(bound, &behind[more])?;
    }
    Ok(())
}

// Puts what an attribute of an array declares on top.
fn bind_attribute<'d>(bound: &mut Bindings<'d>, attribute: &'d AttrItem) -> Result<(), Memory>
    ensures put { OnOk result (bound.new ≡ declared_there attribute.now ++ bound.old) }
    ensures kept { OnErr result (bound.new ≡ bound.old) }
{
    match attribute {
        AttrItem::Xmlns { prefix, uri } => bound.push(prefix.as_str(), uri.as_str()),
        AttrItem::Attr { .. } => Ok(()),
    }
}

// The same of an array's element.
fn bind_declared_on<'d>(bound: &mut Bindings<'d>, attributes: &'d [AttrItem]) -> Result<(), Memory>
    ensures put { OnOk result (bound.new ≡ spec.declared_on attributes.now ++ bound.old) }
    ensures grown { IsGrown bound.old bound.new }
{
    let mut more = attributes.len();
    while more > 0 {
        more -= 1;
        bind_attribute(bound, &attributes[more])?;
    }
    Ok(())
}

// The declarations at the head of what stands behind the beginning of an element.
pub(crate) fn declared_in<'d>(alloc: Global, behind: &'d [Item]) -> Result<Bindings<'d>, Memory>
    ensures { IfOk result (λ layer. layer ≡ declared behind.now) }
{
    let mut layer = Bindings::new(alloc);
    bind_declared(&mut layer, behind)?;
    Ok(layer)
}

// The declarations of an array's element.
pub(crate) fn declared_on<'d>(
    alloc: Global,
    attributes: &'d [AttrItem],
) -> Result<Bindings<'d>, Memory>
    ensures { IfOk result (λ layer. layer ≡ spec.declared_on attributes.now) }
{
    let mut layer = Bindings::new(alloc);
    bind_declared_on(&mut layer, attributes)?;
    Ok(layer)
}

// The declarations of the elements that are open. What a prefix stands for is looked up once,
// however many elements are open.
#[derive(Drop)]
pub(crate) struct Scopes<'d> {
    bound: Bindings<'d>,

    // How many declarations came before those of each open element, the innermost last.
    marks: Vec<usize>,
}

impl<'d> Model for Scopes<'d> {
    ghost use Rattle.std.specs.Prelude.{reverse};
    ghost use Rattle.soap_envelope.specs.Scopes.{Scope};
    ghost use Rattle.soap_envelope.specs.Bindings.{AreMarks, layers_by};

    ghost Value = { Scope };

    ghost view = { λ s. layers_by (reverse s.marks.items) s.bound };

    ghost invariant = { λ s. AreMarks (reverse s.marks.items) s.bound };
}

impl<'d> Scopes<'d> {
    // Outside of all elements.
    pub(crate) fn new(alloc: Global) -> Scopes<'d>
        ensures { result ≡ [] }
    {
        Scopes {
            bound: Bindings::new(alloc),
            marks: Vec::new(alloc),
        }
    }

    // Enters an element: the items are those after its start.
    pub(crate) fn enter(&mut self, behind: &'d [Item]) -> Result<(), Memory>
        ensures { OnOk result (self.new ≡ declared behind.now ∷ self.old) }
    {
        self.marks.push(self.bound.len())?;
        bind_declared(&mut self.bound, behind)?;
        Ok(())
    }

    // Into an array's element with these attributes.
    pub(crate) fn enter_array(&mut self, attributes: &'d [AttrItem]) -> Result<(), Memory>
        ensures { OnOk result (self.new ≡ spec.declared_on attributes.now ∷ self.old) }
    {
        self.marks.push(self.bound.len())?;
        bind_declared_on(&mut self.bound, attributes)?;
        Ok(())
    }

    // Out of the innermost element.
    pub(crate) fn close(&mut self)
        ensures { self.new ≡ spec.around self.old }
    {
        if let Some(mark) = self.marks.pop() {
            self.bound.keep(mark);
        }
    }

    // What a prefix stands for.
    pub(crate) fn uri_of(&self, prefix: &str) -> Option<&'d str>
        ensures { option_copied result ≡ spec.uri_of self.now prefix.now }
    {
        match self.bound.uri_of(prefix) {
            Some(uri) => Some(uri),
            None => undeclared_uri(prefix),
        }
    }

    // Whether one of so many declarations at the head of the innermost element is of a prefix.
    pub(crate) fn declares_before(&self, count: usize, prefix: &str) -> bool
        requires { count ≤ length (innermost self.now) }
        ensures { result ≡ is_some (spec.uri_in (take count (innermost self.now)) prefix.now) }
    {
        self.bound.has_among(count, prefix)
    }

    // The namespace of an element with this prefix.
    pub(crate) fn element_uri(&self, prefix: &Txt) -> &'d str
        ensures { result.now ≡ spec.element_uri self.now prefix.now }
    {
        match self.uri_of(prefix.as_str()) {
            Some(uri) => uri,
            None => "",
        }
    }
}
