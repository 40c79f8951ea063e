//! SOAP 1.2 faults as documents.

ghost use Rattle.std.specs.Prelude.{◌≡◌, [], ◌∷◌, ◌++◌, IfOk, IsTrue, OnOk, codes};
ghost use Rattle.std.specs.List.{flat_map, list_all};
ghost use Rattle.std.specs.Str.{is_utf8};
ghost use Rattle.soap_envelope.specs.Faults as spec;
ghost use Rattle.soap_envelope.specs.Faults.{code_items, code_text, ended_texts, fault_body, fault_items, front_items, is_nameable, not_understood_block, reason_items, rest_items, subcode_items, sub_texts, value_items};
ghost use Rattle.soap_envelope.specs.Making.{AreTexts, envelope_items};

use crate::blocks::QualifiedName;
use crate::body::copies;
use crate::making::{document, put_action, put_ending, put_middle, put_opening};
use crate::moving::turned;
use crate::puts::{put_attribute, put_close, put_start, put_text, put_xmlns};
use crate::report::{Code, FaultReport, Sub};
use crate::versions::Addressing;
use nbfx_values::{Copied, Doc, Items, Scalar, Txt, Value};
use std::alloc::Global;
use unit_streams::Memory;

// How many items stand in a fault before the texts that it relates to, if there are some.
const FRONT_ITEMS: usize = 9;

impl Code {
    // The name, with the prefix that every fault declares.
    fn text(self) -> &'static str
        ensures { result.now ≡ code_text self }
    {
        match self {
            Code::VersionMismatch => "s:VersionMismatch",
            Code::MustUnderstand => "s:MustUnderstand",
            Code::Sender => "s:Sender",
            Code::Receiver => "s:Receiver",
        }
    }
}

// The Value of a code or a subcode.
fn put_value(alloc: Global, items: &mut Items, text: &str) -> Result<(), Memory>
    ensures { OnOk result (items.new ≡ items.old ++ value_items text.now) }
{
    put_start(alloc, items, "s", "Value")?;
    let text = Txt::of(alloc, text)?;
    put_text(items, text)?;
    put_close(items)?;
    Ok(())
}

// A subcode without another in it.
fn put_subcode(alloc: Global, items: &mut Items, text: &str) -> Result<(), Memory>
    ensures { OnOk result (items.new ≡ items.old ++ subcode_items (text.now ∷ [])) }
{
    put_start(alloc, items, "s", "Subcode")?;
    put_value(alloc, items, text)?;
    put_close(items)?;
    Ok(())
}

// A subcode, and another one in it.
fn put_nested(alloc: Global, items: &mut Items, outer: &str, inner: &str) -> Result<(), Memory>
    ensures { OnOk result
        (items.new ≡ items.old ++ subcode_items (outer.now ∷ inner.now ∷ [])) }
{
    put_start(alloc, items, "s", "Subcode")?;
    put_value(alloc, items, outer)?;
    put_subcode(alloc, items, inner)?;
    put_close(items)?;
    Ok(())
}

// The subcodes of a fault, if it has some.
fn put_sub(alloc: Global, items: &mut Items, sub: Sub) -> Result<(), Memory>
    ensures { OnOk result (items.new ≡ items.old ++ subcode_items (sub_texts sub)) }
{
    let bad = "a:InvalidAddressingHeader";
    match sub {
        Sub::None => Ok(()),
        Sub::HeaderRequired => put_subcode(alloc, items, "a:MessageAddressingHeaderRequired"),
        Sub::ActionNotSupported => put_subcode(alloc, items, "a:ActionNotSupported"),
        Sub::OnlyAnonymous => put_nested(alloc, items, bad, "a:OnlyAnonymousAddressSupported"),
        Sub::InvalidCardinality => put_nested(alloc, items, bad, "a:InvalidCardinality"),
    }
}

// The reason in English.
fn put_reason(alloc: Global, items: &mut Items, reason: &Txt) -> Result<(), Memory>
    ensures { OnOk result (items.new ≡ items.old ++ reason_items reason.now) }
{
    put_start(alloc, items, "s", "Reason")?;
    put_start(alloc, items, "s", "Text")?;
    let english = Value::One(Scalar::Text(Txt::of(alloc, "en")?));
    put_attribute(alloc, items, "xml", "lang", english)?;
    put_text(items, reason.copy()?)?;
    put_close(items)?;
    put_close(items)?;
    Ok(())
}

// The code of a fault, with its subcodes.
fn put_code(alloc: Global, items: &mut Items, report: &FaultReport<'_>) -> Result<(), Memory>
    ensures { OnOk result (items.new ≡ items.old ++ code_items report.now) }
{
    put_start(alloc, items, "s", "Code")?;
    put_value(alloc, items, report.code.text())?;
    put_sub(alloc, items, report.sub)?;
    put_close(items)?;
    Ok(())
}

// The content of a fault's Body.
fn put_fault(alloc: Global, items: &mut Items, report: &FaultReport<'_>) -> Result<(), Memory>
    ensures { OnOk result (items.new ≡ items.old ++ fault_body report.now) }
{
    put_start(alloc, items, "s", "Fault")?;
    put_code(alloc, items, report)?;
    put_reason(alloc, items, &report.reason)?;
    put_close(items)?;
    Ok(())
}

// A local name with the prefix that its block declares.
fn prefixed(alloc: Global, local: &str) -> Result<Txt, Memory>
    ensures same { IfOk result (λ text. text ≡ codes "n:" ++ local.now) }
    ensures utf8 { IfOk result (λ text. IsTrue (is_utf8 text)) }
{
    let mut text = String::from_str(alloc, "n:")?;
    text.push_str(local)?;
    let text = Txt::from(text);

    // Characters are UTF-8.
    let _characters = text.as_str();
    Ok(text)
}

// The block that names what wasn't understood.
fn put_not_understood(
    alloc: Global,
    items: &mut Items,
    name: &QualifiedName<'_>,
) -> Result<(), Memory>
    ensures put { OnOk result (items.new ≡ items.old ++ not_understood_block name.now) }
    ensures uri { OnOk result (IsTrue (is_utf8 name.now.uri)) }
    ensures qname { OnOk result (IsTrue (is_utf8 (codes "n:" ++ name.now.local))) }
{
    put_start(alloc, items, "s", "NotUnderstood")?;
    put_xmlns(alloc, items, "n", name.uri)?;
    let qname = prefixed(alloc, name.local)?;
    put_attribute(alloc, items, "", "qname", Value::One(Scalar::Text(qname)))?;
    put_close(items)?;
    Ok(())
}

// The blocks that name what wasn't understood.
fn put_names(alloc: Global, items: &mut Items, names: &[QualifiedName<'_>]) -> Result<(), Memory>
    ensures put { OnOk result (items.new ≡ items.old ++ flat_map not_understood_block names.now) }
    ensures valid { OnOk result (IsTrue (list_all is_nameable names.now)) }
{
    for name in names {
        put_not_understood(alloc, items, name)?;
    }
    Ok(())
}

// The texts that a fault relates to, and the end of their block, if there are some.
fn ended_relates(relates: Items) -> Result<Items, Memory>
    ensures { IfOk result (λ items. items ≡ ended_texts relates) }
{
    let mut items = relates;
    if !items.as_slice().is_empty() {
        put_close(&mut items)?;
    }
    Ok(items)
}

// A fault with this action up to the texts that it relates to, if there are some.
fn put_front(
    alloc: Global,
    items: &mut Items,
    version: Addressing,
    action: Txt,
    relates: bool,
) -> Result<(), Memory>
    ensures { OnOk result (items.new ≡ items.old ++ front_items version action relates) }
{
    put_opening(alloc, items, version)?;
    put_action(alloc, items, action)?;
    if relates {
        put_start(alloc, items, "a", "RelatesTo")?;
    }
    Ok(())
}

// What stands in a fault behind the block that names the message.
fn put_rest(alloc: Global, items: &mut Items, report: &FaultReport<'_>) -> Result<(), Memory>
    ensures put { OnOk result (items.new ≡ items.old ++ rest_items report.now) }
    ensures names { OnOk result (IsTrue (list_all is_nameable report.now.names)) }
{
    put_names(alloc, items, report.names.as_slice())?;
    put_middle(alloc, items)?;
    put_fault(alloc, items, report)?;
    put_ending(items)?;
    Ok(())
}

// A fault with this action. What stands before the texts that it relates to is put behind them, and
// changes place with them then, so that there is one list of items, that of the texts.
fn report_with(
    alloc: Global,
    version: Addressing,
    action: Txt,
    relates: Items,
    report: &FaultReport<'_>,
) -> Result<Items, Memory>
    ensures made { IfOk result (λ items. items ≡ envelope_items version action relates
        (flat_map not_understood_block report.now.names) (fault_body report.now)) }
    ensures names { OnOk result (IsTrue (list_all is_nameable report.now.names)) }
{
    let has_relates = !relates.as_slice().is_empty();
    let mut items = ended_relates(relates)?;
    put_rest(alloc, &mut items, report)?;
    let behind = items.len();
    put_front(alloc, &mut items, version, action, has_relates)?;
    Ok(turned(items, behind))
}

/// The envelope of a fault (SOAP 1.2 Part 1, 5.4; WS-Addressing 1.0, SOAP Binding, 6), in the
/// version of addressing of the request that it answers: its RelatesTo has these texts, those of
/// the request's MessageID. Under version 1.0 its Action is that of WS-Addressing's faults if it
/// has a subcode, else that of SOAP's; the version of August 2004 has one Action for all faults. It
/// fails without memory for it.
pub fn fault_doc(
    alloc: Global,
    version: Addressing,
    report: &FaultReport<'_>,
    relates: &Items,
) -> Result<Doc, Memory>
    requires { AreTexts relates.now }
    ensures { IfOk result (λ doc. doc ≡ fault_items version report.now relates.now) }
{
    fault_doc_with(alloc, version, report, relates.copy()?)
}

/// The same fault, but the texts aren't copied: their list becomes the fault's. It fails without
/// memory for the rest.
pub fn fault_doc_with(
    alloc: Global,
    version: Addressing,
    report: &FaultReport<'_>,
    relates: Items,
) -> Result<Doc, Memory>
    requires { AreTexts relates }
    ensures { IfOk result (λ doc. doc ≡ fault_items version report.now relates) }
{
    let action = Txt::of(alloc, version.fault_action(report.sub))?;
    let items = report_with(alloc, version, action, relates, report)?;

    // Characters are UTF-8.
    let _reason = report.reason.as_str();
    Ok(document(items))
}

/// A copy of the texts that a fault relates to, which are so many. It fails without memory for it.
pub fn related_texts(alloc: Global, fault: &Doc, count: usize) -> Result<Items, Memory>
    ensures { IfOk result (λ texts. texts ≡ spec.related_texts count fault.now) }
{
    let items = fault.items().as_slice();
    let first = FRONT_ITEMS.min(items.len());
    let texts = &items[first..];
    copies(alloc, &texts[..count.min(texts.len())])
}
