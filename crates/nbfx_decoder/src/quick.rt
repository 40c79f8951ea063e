//! The most frequent records, each read by the fast path for its type where it is complete and
//! valid.

ghost use Rattle.std.specs.Prelude.{◌≡◌, ℕ, ◌+◌, ◌<◌, ◌^◌, ◌↔◌, true, List, length};
ghost use Rattle.nbfx_records.specs.Beginning.{BeginsKind, MayStand};
ghost use Rattle.nbfx_records.specs.Contents.{contents};
ghost use Rattle.nbfx_records.specs.Judged.{Makes};
ghost use Rattle.nbfx_records.specs.Shapes.{Shape};
ghost use Rattle.nbfx_records.specs.Views.{HoldsLists, record_seen};
ghost use Rattle.nbfx_decoder.specs.Units.{place_in, HasShape, MakesOfRecord, ReadsQuickly, StandsAt};

use crate::section::Section;
use crate::units::UnitReader;
use nbfx_records::{
    AttributePart, NameForm, NamePart, Node, NodeFault, PrefixForm, PrefixPart, RecordKind,
    RecordPart, ScalarPart, TextKind, ValuePart, attribute_node, attribute_parts, chars_node,
    declaration_node, declaration_parts, element_node, element_parts, is_chars, kind_at, may_stand,
    scalar_parts, text_node,
};

impl UnitReader<'_> {
    // Whether a record of this kind may come next.
    #[inline(always)]
    fn takes(&self, kind: RecordKind) -> bool
        ensures { result ≡ true ↔ MayStand (place_in self.now) kind }
    {
        may_stand(self.place(), kind)
    }

    /// Reads the record at the front of the bytes, and appends what it means to the items, if it is
    /// complete, valid and of one of the most frequent kinds, each of which has a fast path of its
    /// own. Else nothing changes.
    #[inline(always)]
    pub(crate) fn read_quickly(&mut self, bytes: &[u8]) -> Option<usize>
        requires few { self.old.from + length bytes.now < 2 ^ 32 }
        ensures { ReadsQuickly self.old self.new bytes.now result }
    {
        if self.section != Section::Nodes {
            return None;
        }
        match kind_at(bytes)? {
            RecordKind::EndElement => self.end_element(bytes),
            RecordKind::Element(prefix, name) => self.element(prefix, name, bytes),
            RecordKind::Attribute(prefix, name) => self.attribute(prefix, name, bytes),
            RecordKind::Declaration(prefix, uri) => self.declaration(prefix, uri, bytes),
            RecordKind::Text(kind, ends) => self.text(kind, ends, bytes),
            RecordKind::Comment | RecordKind::Array => None,
        }
    }

    #[inline(always)]
    fn end_element(&mut self, bytes: &[u8]) -> Option<usize>
        requires here { self.old.section ≡ Section.Nodes }
        requires few { self.old.from + length bytes.now < 2 ^ 32 }
        requires begins { BeginsKind bytes.now RecordKind.EndElement }
        ensures { ReadsQuickly self.old self.new bytes.now result }
    {
        if !self.takes(RecordKind::EndElement) {
            return None;
        }
        self.pass_quickly(Ok(Node::EndElement), 1)
    }

    #[inline(always)]
    fn element(&mut self, prefix: PrefixForm, name: NameForm, bytes: &[u8]) -> Option<usize>
        requires here { self.old.section ≡ Section.Nodes }
        requires few { self.old.from + length bytes.now < 2 ^ 32 }
        requires begins { BeginsKind bytes.now (RecordKind.Element prefix name) }
        ensures { ReadsQuickly self.old self.new bytes.now result }
    {
        if !self.takes(RecordKind::Element(prefix, name)) {
            return None;
        }
        match element_parts(prefix, name, bytes) {
            Ok((part, used)) => self.pass_quickly(element_node(self.alloc, &part), used),
            Err(_) => None,
        }
    }

    #[inline(never)]
    fn attribute(&mut self, prefix: PrefixForm, name: NameForm, bytes: &[u8]) -> Option<usize>
        requires here { self.old.section ≡ Section.Nodes }
        requires few { self.old.from + length bytes.now < 2 ^ 32 }
        requires begins { BeginsKind bytes.now (RecordKind.Attribute prefix name) }
        ensures { ReadsQuickly self.old self.new bytes.now result }
    {
        if !self.takes(RecordKind::Attribute(prefix, name)) {
            return None;
        }
        match attribute_parts(prefix, name, bytes) {
            Ok(
                (
                    AttributePart::Attribute {
                        prefix,
                        name,
                        value,
                    },
                    used,
                ),
            ) => self.attribute_of(&prefix, &name, value, used),
            _ => None,
        }
    }

    // An attribute of so many bytes, whose value is no list.
    #[inline(always)]
    fn attribute_of(
        &mut self,
        prefix: &PrefixPart,
        name: &NamePart,
        value: ValuePart,
        used: usize,
    ) -> Option<usize>
        requires here { self.old.section ≡ Section.Nodes }
        requires sound { HoldsLists value }
        requires stands { StandsAt self.old (record_seen (RecordPart.Attribute
            (AttributePart.Attribute prefix.now name.now value))) used }
        ensures { (bytes : List ℕ) → HasShape (place_in self.old) (record_seen (RecordPart.Attribute
            (AttributePart.Attribute prefix.now name.now value.entry))) used bytes
            → ReadsQuickly self.old self.new bytes result }
    {
        match value {
            ValuePart::One(_) => {
                self.pass_quickly(attribute_node(self.alloc, prefix, name, &value), used)
            }
            ValuePart::List(_) => None,
        }
    }

    #[inline(never)]
    fn declaration(&mut self, prefix: PrefixForm, uri: NameForm, bytes: &[u8]) -> Option<usize>
        requires here { self.old.section ≡ Section.Nodes }
        requires few { self.old.from + length bytes.now < 2 ^ 32 }
        requires begins { BeginsKind bytes.now (RecordKind.Declaration prefix uri) }
        ensures { ReadsQuickly self.old self.new bytes.now result }
    {
        if !self.takes(RecordKind::Declaration(prefix, uri)) {
            return None;
        }
        match declaration_parts(prefix, uri, bytes) {
            Ok((AttributePart::Declaration { prefix, uri }, used)) => {
                self.pass_quickly(declaration_node(self.alloc, &prefix, &uri), used)
            }
            _ => None,
        }
    }

    // A text, which is no list.
    #[inline(never)]
    fn text(&mut self, kind: TextKind, ends: bool, bytes: &[u8]) -> Option<usize>
        requires here { self.old.section ≡ Section.Nodes }
        requires few { self.old.from + length bytes.now < 2 ^ 32 }
        requires begins { BeginsKind bytes.now (RecordKind.Text kind ends) }
        ensures { ReadsQuickly self.old self.new bytes.now result }
    {
        if kind == TextKind::StartList || !self.takes(RecordKind::Text(kind, ends)) {
            return None;
        }
        match scalar_parts(kind, ends, bytes) {
            Ok((ScalarPart::Bytes(kind, chars), used)) if is_chars(kind) => {
                self.pass_quickly(chars_node(self.alloc, kind, chars, ends), used)
            }
            Ok((part, used)) => self.scalar(part, ends, used),
            Err(_) => None,
        }
    }

    // A text of so many bytes, of one value.
    #[inline(never)]
    fn scalar(&mut self, part: ScalarPart, ends: bool, used: usize) -> Option<usize>
        requires here { self.old.section ≡ Section.Nodes }
        requires stands { StandsAt self.old (record_seen (RecordPart.Text (ValuePart.One part) ends))
            used }
        ensures { (bytes : List ℕ) → HasShape (place_in self.old)
            (record_seen (RecordPart.Text (ValuePart.One part.entry) ends)) used bytes
            → ReadsQuickly self.old self.new bytes result }
    {
        self.pass_quickly(text_node(self.alloc, &ValuePart::One(part), ends), used)
    }

    // Appends what is made of a complete record of so many bytes to the items, and goes past it, if
    // it is valid, within the content quota and neither a list nor an array, and there is memory.
    // Else nothing changes.
    #[inline(always)]
    fn pass_quickly(&mut self, made: Result<Node, NodeFault>, used: usize) -> Option<usize>
        requires here { self.old.section ≡ Section.Nodes }
        requires stands { MakesOfRecord self.old made used }
        ensures { (shape : Shape) (bytes : List ℕ) → HasShape (place_in self.old) shape used bytes
            → Makes made (contents shape) → ReadsQuickly self.old self.new bytes result }
    {
        let Ok(node) = made else {
            return None;
        };
        if !self.add_quickly(node) {
            return None;
        }
        self.advance(used);
        Some(used)
    }
}
