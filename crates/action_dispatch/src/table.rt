//! The service of a file.

ghost use Rattle.std.specs.Prelude.{◌≡◌, IfErr, IfOk, OnOk, true};
ghost use Rattle.std.specs.BTreeMap.{insert_entry};
ghost use Rattle.std.specs.Cmp.Lexicographic.{slice_cmp};
ghost use Rattle.std.specs.Ordering.{nat_cmp};
ghost use Rattle.csv_rows.specs.Rows.{rows_of};
ghost use Rattle.nbfx_values.specs.QuotasOf.{limits_of};
ghost use Rattle.soap_envelope.specs.Making.{IsContent};
ghost use Rattle.action_dispatch.specs.Actions.{Explains, and_then, row_read, text_for, texts_of, with_entry, with_row};
ghost use Rattle.action_dispatch.specs.Inside.{texts_in};
ghost use Rattle.action_dispatch.specs.Services.{RepliesTooMuch, is_text_above, reply_with, text_reply};

use crate::actions::{entry_of, take_header};
use crate::fault::{ActionFault, ActionKind};
use crate::service::{BodyUse, Served, Service};
use csv_rows::RowReader;
use nbfx_values::{Copied, Item, Items, Quotas, Scalar, Txt, Value};
use std::alloc::Global;
use std::collections::BTreeMap;
use std::marker::Model;
use unit_streams::Memory;

/// The service that replies with a text for each action of a file. Contracts see the actions with
/// their texts, in the order of the actions' bytes.
#[derive(Drop)]
pub struct TableService {
    texts: BTreeMap<String, Txt>,
}

impl Model for TableService {
    ghost use Rattle.action_dispatch.specs.Actions.{Texts};
    ghost use Rattle.action_dispatch.specs.Inside.{texts_in};

    ghost Value = { Texts };

    ghost view = { λ t. texts_in t.texts };
}

// Puts an action with its text.
fn put_text(
    alloc: Global,
    texts: &mut BTreeMap<String, Txt>,
    action: &str,
    text: &str,
) -> Result<(), Memory>
    ensures { OnOk result (texts_in texts.new
        ≡ insert_entry (slice_cmp nat_cmp) (texts_in texts.old) action.now text.now) }
{
    texts.insert(String::from_str(alloc, action)?, Txt::of(alloc, text)?)?;
    Ok(())
}

// Puts an action of the row of this number with its text, if the action is new.
fn put_entry(
    alloc: Global,
    texts: &mut BTreeMap<String, Txt>,
    number: u64,
    action: &str,
    text: &str,
) -> Result<(), ActionFault>
    ensures put { OnOk result
        (with_entry (texts_in texts.old) (action.now, text.now) ≡ Ok (texts_in texts.new)) }
    ensures bad { let read = with_entry (texts_in texts.old) (action.now, text.now) in
        IfErr result (Explains (and_then (λ more. Ok more) number read)) }
{
    if texts.contains_key(action) {
        return Err(ActionFault::Bad {
            row: number,
            kind: ActionKind::Repeated,
        });
    }
    put_text(alloc, texts, action, text)?;
    Ok(())
}

// Puts what the row read last says, which has this number.
fn put_row(
    alloc: Global,
    texts: &mut BTreeMap<String, Txt>,
    number: u64,
    rows: &RowReader<'_>,
) -> Result<(), ActionFault>
    ensures put { OnOk result
        (with_row (texts_in texts.old) rows.now.row ≡ Ok (texts_in texts.new)) }
    ensures bad { IfErr result (Explains (row_read number (texts_in texts.old) rows.now.row)) }
{
    match entry_of(rows) {
        Ok((action, text)) => put_entry(alloc, texts, number, action, text),
        Err(kind) => Err(ActionFault::Bad { row: number, kind }),
    }
}

impl TableService {
    /// Reads the texts of a CSV file, whose first row is `action,text`. It fails with `Bad` at the
    /// first bad row, or without memory.
    pub fn read(alloc: Global, bytes: &[u8]) -> Result<TableService, ActionFault>
        ensures texts { IfOk result (λ table. texts_of (rows_of bytes.now) ≡ Ok table) }
        ensures bad { IfErr result (Explains (texts_of (rows_of bytes.now))) }
    {
        let mut rows = RowReader::new(alloc, bytes);
        if !take_header(&mut rows)? {
            return Err(ActionFault::Bad {
                row: 0,
                kind: ActionKind::Header,
            });
        }
        let mut texts = BTreeMap::new(alloc);
        for number in 1..u64::MAX {
            if !rows.advance()? {
                return Ok(TableService { texts });
            }
            put_row(alloc, &mut texts, number, &rows)?;
        }

        // No memory holds a file of so many rows.
        Err(ActionFault::Memory)
    }
}

// Whether an action has a text that alone counts more than the quota on content.
fn has_text_above(texts: &BTreeMap<String, Txt>, action: &str, quota: u32) -> bool
    ensures { result ≡ is_text_above quota (text_for (texts_in texts.now) action.now) }
{
    match texts.get(action) {
        Some(text) => text.len() > quota as usize,
        None => false,
    }
}

// The element that holds a text.
fn reply_of(alloc: Global, text: &Txt) -> Result<Items, Memory>
    ensures same { IfOk result (λ items. items ≡ text_reply text.now) }
    ensures content { IfOk result IsContent }
{
    let mut items = Items::new(alloc);
    items.push(Item::Start {
        prefix: Txt::empty(),
        local: Txt::of(alloc, "reply")?,
    })?;
    items.push(Item::Text(Value::One(Scalar::Text(text.copy()?))))?;
    items.push(Item::Close)?;

    // Characters are UTF-8.
    let _characters = text.as_str();
    Ok(items)
}

impl Service for TableService {
    ghost served = { λ table action body. reply_with (text_for table action) };

    fn body_use(&self) -> BodyUse
        ensures same { result ≡ BodyUse.Unused }
    {
        BodyUse::Unused
    }

    fn is_too_large(&self, quotas: &Quotas, action: &str) -> bool
        ensures unfit { result ≡ true → RepliesTooMuch (limits_of quotas.now)
            (λ asked body. reply_with (text_for self.now asked)) action.now }
        ensures above { result ≡ is_text_above quotas.now.content (text_for self.now action.now) }
    {
        has_text_above(&self.texts, action, quotas.content)
    }

    fn serve(&self, alloc: Global, action: &str, _body: &Items) -> Result<Served, Memory> {
        match self.texts.get(action) {
            Some(text) => Ok(Served::Reply(reply_of(alloc, text)?)),
            None => Ok(Served::Unknown),
        }
    }
}
