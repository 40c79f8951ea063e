// The declarations of all open elements, or of one, which are found by their prefixes.
ghost use Rattle.std.specs.Prelude.{◌≡◌, ◌∷◌, ◌<◌, ◌≤◌, ◌-◌, [], ℕ, List, IsTrue, OnErr, OnOk, drop, if◌then◌else◌, is_some, length, map, reverse, take};
ghost use Rattle.std.specs.Option.{option_copied};
ghost use Rattle.std.specs.Str.{bytes_eq};
ghost use Rattle.soap_envelope.specs.Bindings as spec;
ghost use Rattle.soap_envelope.specs.Bindings.{AreKept, bound_as, few, newest};
ghost use Rattle.soap_envelope.specs.Layers.{place_in};
ghost use Rattle.soap_envelope.specs.Scopes as scope;
ghost use Rattle.soap_envelope.specs.Scopes.{declaration};

use std::alloc::Global;
use std::collections::BTreeMap;
use std::marker::Model;
use unit_streams::Memory;

// What an open element declares a prefix to stand for, and the place that the map had for the
// prefix before.
#[derive(Clone, Copy)]
pub(crate) struct Binding<'d> {
    prefix: &'d str,
    uri: &'d str,
    hidden: Option<usize>,
}

// So many declarations are searched one by one.
const FEW: usize = 8;

// The declarations of all open elements, which contracts see from the last one on: those of the
// innermost element first, in order. Of those behind the first few, each prefix has the place of
// its last declaration in a map.
#[derive(Drop)]
pub(crate) struct Bindings<'d> {
    bound: Vec<Binding<'d>>,
    places: BTreeMap<&'d str, usize>,
}

impl<'d> Model for Bindings<'d> {
    ghost use Rattle.std.specs.Prelude.{List};
    ghost use Rattle.soap_envelope.specs.Scopes.{Declaration};
    ghost use Rattle.soap_envelope.specs.Bindings.{AreKept, declarations};

    ghost Value = { List Declaration };

    ghost view = { λ b. declarations b.bound };

    ghost invariant = { λ b. AreKept b.bound b.places };
}

// The place of the last declaration of a prefix.
fn last_among(bound: &[Binding<'_>], prefix: &str) -> Option<usize>
    ensures { result ≡ spec.last_of prefix.now (map bound_as (reverse bound.now)) }
{
    let mut more = bound.len();
    while more > 0 {
        more -= 1;
        if bound[more].prefix == prefix {
            return Some(more);
        }
    }
    None
}

// Puts back the place that a declaration hides. A prefix that has a place takes another without
// memory.
fn put_back<'d>(places: &mut BTreeMap<&'d str, usize>, last: &Binding<'d>)
    requires { IsTrue (is_some (place_in last.now.prefix.now places.old)) }
    ensures { (q : List ℕ) → place_in q places.new
        ≡ (if bytes_eq last.now.prefix.now q then last.now.hidden else place_in q places.old) }
{
    match last.hidden {
        Some(at) => match places.insert(last.prefix, at) {
            Ok(_) => {}
            Err(_) => {}
        },
        None => {
            places.remove(last.prefix);
        }
    }
}

impl<'d> Bindings<'d> {
    // No declarations.
    pub(crate) fn new(alloc: Global) -> Bindings<'d>
        ensures { result ≡ [] }
    {
        Bindings {
            bound: Vec::new(alloc),
            places: BTreeMap::new(alloc),
        }
    }

    pub(crate) fn len(&self) -> usize
        ensures { result ≡ length self.now }
    {
        self.bound.len()
    }

    // Adds a declaration, which hides those of its prefix, where there are many.
    fn push_place(&mut self, prefix: &'d str, uri: &'d str) -> Result<(), Memory>
        requires { few ≤ length self.old }
        ensures put { OnOk result (self.new ≡ declaration prefix.now uri.now ∷ self.old) }
        ensures kept { OnErr result (self.new ≡ self.old) }
    {
        let hidden = self.places.insert(prefix, self.bound.len())?;
        let one = Binding {
            prefix,
            uri,
            hidden,
        };
        match self.bound.push(one) {
            Ok(()) => Ok(()),
            Err(_) => {
                put_back(&mut self.places, &one);
                Err(Memory)
            }
        }
    }

    // Adds a declaration, which hides those of its prefix.
    pub(crate) fn push(&mut self, prefix: &'d str, uri: &'d str) -> Result<(), Memory>
        ensures put { OnOk result (self.new ≡ declaration prefix.now uri.now ∷ self.old) }
        ensures kept { OnErr result (self.new ≡ self.old) }
    {
        if self.bound.len() >= FEW {
            return self.push_place(prefix, uri);
        }
        self.bound.push(Binding {
            prefix,
            uri,
            hidden: None,
        })?;
        Ok(())
    }

    // Takes the last declaration away, where there are many.
    fn pop(&mut self)
        requires { few < length self.old }
        ensures { self.new ≡ drop 1 self.old }
    {
        if let Some(last) = self.bound.pop() {
            put_back(&mut self.places, &last);
        }
    }

    // Keeps only the first so many declarations, where these are few.
    fn keep_few(&mut self, count: usize)
        requires { count ≤ few }
        ensures { self.new ≡ drop (length self.old - count) self.old }
    {
        if self.bound.len() > FEW {
            self.places.clear();
        }
        self.bound.truncate(count);
    }

    // Keeps only the first so many declarations.
    pub(crate) fn keep(&mut self, count: usize)
        ensures { self.new ≡ drop (length self.old - count) self.old }
    {
        if count <= FEW {
            self.keep_few(count);
            return;
        }
        while self.len() > count {
            self.pop();
        }
    }

    // The place of the last declaration of a prefix, from the first declaration on.
    fn place_of(&self, prefix: &str) -> Option<usize>
        ensures { result ≡ spec.last_of prefix.now self.now }
    {
        if self.bound.len() <= FEW {
            return last_among(self.bound.as_slice(), prefix);
        }
        match self.places.get(prefix) {
            Some(at) => Some(*at),
            None => last_among(&self.bound[..FEW], prefix),
        }
    }

    // What the last declaration of a prefix says.
    fn uri_among(&self, prefix: &str) -> Option<&'d str>
        ensures { option_copied result ≡ scope.uri_in self.now prefix.now }
    {
        match self.place_of(prefix) {
            Some(at) => Some(self.bound[at].uri),
            None => None,
        }
    }

    // The same. Most elements declare nothing.
    #[inline(always)]
    pub(crate) fn uri_of(&self, prefix: &str) -> Option<&'d str>
        ensures { option_copied result ≡ scope.uri_in self.now prefix.now }
    {
        if self.bound.is_empty() {
            return None;
        }
        self.uri_among(prefix)
    }

    // Whether one of the last so many declarations is of a prefix.
    pub(crate) fn has_among(&self, count: usize, prefix: &str) -> bool
        requires { count ≤ length self.now }
        ensures { result ≡ is_some (scope.uri_in (take count self.now) prefix.now) }
    {
        match self.place_of(prefix) {
            Some(at) => self.len() - at <= count,
            None => false,
        }
    }
}
