//! What a complete record says: it is judged first, and only then made into items.

ghost use Rattle.std.specs.Prelude.{◌≡◌, IfOk, IsTrue, Ok, Some};
ghost use Rattle.std.specs.List.{list_all};
ghost use Rattle.nbfx_values.specs.Items.{is_valid_item};
ghost use Rattle.nbfx_records.specs.Contents.{contents};
ghost use Rattle.nbfx_records.specs.Meaning.{items_of};
ghost use Rattle.nbfx_records.specs.Valid.{is_valid_node};
ghost use Rattle.nbfx_records.specs.Views.{IsSoundRecord, record_seen};
ghost use Rattle.nbfx_decoder.specs.Meant.{items_in};
ghost use Rattle.nbfx_decoder.specs.Units.{IsSaid, Judges, MakesValid, MayAdd, MayMake, names_in};

use crate::faults::{UnitFault, refused, unmade};
use crate::meaning::{Meant, Unmeant};
use crate::units::UnitReader;
use nbfx_records::{AttributePart, Node, NodeFault, RecordPart, ValuePart, node};
use nbfx_values::Reason;
use unit_streams::Memory;

impl UnitReader<'_> {
    /// Judges what a complete record of so many bytes says, of which nothing is kept yet.
    pub(crate) fn judge(&self, part: &RecordPart, used: usize) -> Result<(), UnitFault>
        requires { IsSoundRecord part.now }
        ensures { Judges self.now (record_seen part.now) used result }
    {
        let size = match self.names().record_size(part) {
            Ok(size) => size,
            Err(why) => return Err(unmade(why, used)),
        };
        let Some(size) = size else {
            return refused(Reason::UnknownString, used);
        };
        if self.has_room(size) {
            Ok(())
        } else {
            refused(Reason::TooMuchContent, used)
        }
    }

    /// The node of a complete record whose meaning is within the content quota.
    pub(crate) fn made(&self, part: &RecordPart) -> Result<Node, Memory>
        requires sound { IsSoundRecord part.now }
        requires within { MayMake self.now (record_seen part.now) }
        ensures { IfOk result (λ node. contents (record_seen part.now) ≡ Ok node) }
    {
        match node(self.alloc, part) {
            Ok(node) => Ok(node),
            Err(NodeFault::Memory) => Err(Memory),
            Err(NodeFault::Record(_)) => unreachable!(),
        }
    }

    // What a node means that is within the content quota.
    #[inline(always)]
    fn meant(&self, node: Node) -> Result<Meant, Memory>
        requires within { MayAdd self.now node }
        ensures found { IfOk result (λ meant. items_of (names_in self.now) node
            ≡ Some (items_in meant)) }
        ensures valid { IsTrue (is_valid_node node)
            → IfOk result (λ meant. IsTrue (list_all is_valid_item (items_in meant))) }
    {
        match self.names().meant(node) {
            Ok(meant) => Ok(meant),
            Err(Unmeant::Memory) => Err(Memory),
            Err(Unmeant::UnknownString) => unreachable!(),
        }
    }

    /// What a complete record means whose meaning is within the content quota. The values of a list
    /// are made of its bytes, without a node.
    pub(crate) fn said(&self, part: &RecordPart) -> Result<Meant, Memory>
        requires sound { IsSoundRecord part.now }
        requires within { MayMake self.now (record_seen part.now) }
        requires valid { MakesValid (record_seen part.now) }
        ensures said { IfOk result (IsSaid self.now (record_seen part.now)) }
        ensures valid { IfOk result (λ meant. IsTrue (list_all is_valid_item (items_in meant))) }
    {
        match part {
            RecordPart::Text(value, ends) => match value {
                ValuePart::List(list) => self.names().list_text(list, *ends),
                ValuePart::One(_) => self.node_said(part),
            },
            RecordPart::Attribute(attribute) => self.attribute_said(part, attribute),
            _ => self.node_said(part),
        }
    }

    // The same of a record that is this attribute.
    fn attribute_said(&self, part: &RecordPart, attribute: &AttributePart) -> Result<Meant, Memory>
        requires is { part.now ≡ RecordPart.Attribute attribute.now }
        requires sound { IsSoundRecord part.now }
        requires within { MayMake self.now (record_seen part.now) }
        requires valid { MakesValid (record_seen part.now) }
        ensures said { IfOk result (IsSaid self.now (record_seen part.now)) }
        ensures valid { IfOk result (λ meant. IsTrue (list_all is_valid_item (items_in meant))) }
    {
        match attribute {
            AttributePart::Attribute {
                prefix,
                name,
                value,
            } => match value {
                ValuePart::List(list) => self.names().list_attribute(prefix, name, list),
                ValuePart::One(_) => self.node_said(part),
            },
            AttributePart::Declaration { .. } => self.node_said(part),
        }
    }

    // The same of the node that is made of the record.
    fn node_said(&self, part: &RecordPart) -> Result<Meant, Memory>
        requires sound { IsSoundRecord part.now }
        requires within { MayMake self.now (record_seen part.now) }
        requires valid { MakesValid (record_seen part.now) }
        ensures said { IfOk result (IsSaid self.now (record_seen part.now)) }
        ensures valid { IfOk result (λ meant. IsTrue (list_all is_valid_item (items_in meant))) }
    {
        let node = self.made(part)?;
        self.meant(node)
    }
}
