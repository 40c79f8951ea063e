// Values out of the words of a line.
ghost use Rattle.std.specs.Prelude.{◌≡◌, ◌≤◌, ◌<◌, ◌^◌, ◌-◌, IfOk, IfNone, IfSome, IsErrOf, Some, length};
ghost use Rattle.line_notation.specs.Parts as spec;
ghost use Rattle.line_notation.specs.Parts.{IsTooMuch, as_token, gathered_in, holder_of, no_values, judged_at, judged_token_at, judged_value_in, mapped, may_hold_a_list, refit, tallied, value_behind, with_list, with_scalar, with_token};
ghost use Rattle.line_notation.specs.Scalars.{scalar_at};
ghost use Rattle.line_notation.specs.Steps.{Finds, Gives};
ghost use Rattle.line_notation.specs.Values.{plain_at, token_at};

use crate::judged::{Judged, first_of};
use crate::reader::LineKind;
use crate::scalar_words::{natural, scalar};
use crate::scalars::ScalarKind;
use crate::words::{Stop, Words};
use nbfx_values::{ArrayKind, Memory, Scalar, Value, Values};
use std::alloc::Global;

/// A value that is no list, or the number of values of a list.
#[derive(Debug, Drop)]
pub enum JudgedToken {
    /// A value that is no list.
    Scalar(Judged<Scalar>),
    /// How many values a list has.
    Count(Judged<u128>),
}

// A value of this kind, which the next words are.
#[inline(always)]
fn kind_token(alloc: Global, kind: ScalarKind, words: &mut Words) -> Result<JudgedToken, Stop>
    ensures { Gives (λ token. token) result words.new
        (as_token (judged_at (scalar_at kind words.old))) }
{
    let scalar = scalar(alloc, kind, words)?;
    Ok(JudgedToken::Scalar(scalar))
}

// What the words after this one say, which names a kind of value.
fn scalar_token(alloc: Global, word: &[u8], words: &mut Words) -> Result<JudgedToken, Stop>
    ensures { Gives (λ token. token) result words.new
        (judged_token_at (plain_at word.now words.old)) }
{
    let kind = ScalarKind::of(word).ok_or(Stop::NotALine)?;
    kind_token(alloc, kind, words)
}

// What the next words say, whatever they begin with.
#[inline(never)]
fn any_token(alloc: Global, words: &mut Words) -> Result<JudgedToken, Stop>
    ensures token { Gives (λ token. token) result words.new (judged_token_at (token_at words.old)) }
    ensures few { length words.old ≤ 2 ^ 63 }
{
    let word = words.next()?;
    if word == b"list".as_slice() {
        let count = natural(u64::MAX as u128, words)?;
        return Ok(JudgedToken::Count(count));
    }
    scalar_token(alloc, word, words)
}

// What the next words say. Each kind that comes often has a copy of the code.
#[inline(always)]
fn token(alloc: Global, words: &mut Words) -> Result<JudgedToken, Stop>
    ensures token { Gives (λ token. token) result words.new (judged_token_at (token_at words.old)) }
    ensures few { length words.old ≤ 2 ^ 63 }
{
    match words.next_kind() {
        Some(ScalarKind::Text) => kind_token(alloc, ScalarKind::Text, words),
        Some(ScalarKind::Number) => kind_token(alloc, ScalarKind::Number, words),
        Some(ScalarKind::UniqueId) => kind_token(alloc, ScalarKind::UniqueId, words),
        Some(kind) => kind_token(alloc, kind, words),
        None => any_token(alloc, words),
    }
}

/// How many values have come.
#[derive(Clone, Copy, Debug)]
pub struct Tally {
    /// Those that are in no list.
    pub count: usize,
    /// Those that are still to come in the lists that are open.
    pub due: usize,
}

impl Tally {
    // One value more, with so many due in it.
    fn with(self, more: usize) -> Option<Tally>
        requires { self.count < 2 ^ 64 - 1 }
        ensures some { IfSome result (λ tally. tally ≡ tallied self more) }
        ensures none { IfNone result (2 ^ 64 ≤ (tallied self more).due) }
    {
        if self.due == 0 {
            return Some(Tally {
                count: self.count + 1,
                due: more,
            });
        }
        let due = (self.due - 1).checked_add(more)?;
        Some(Tally {
            count: self.count,
            due,
        })
    }
}

/// What values are part of, which says what values there may be.
#[derive(Clone, Copy, Debug)]
pub enum Holder {
    /// A list: values that are no lists.
    List,
    /// An array: values of its kind.
    Array(ArrayKind),
    /// Neither: each value is judged by itself.
    Nothing,
}

impl Holder {
    /// What the values of a line are part of, by the array that is open.
    pub fn of(kind: Option<ArrayKind>) -> Holder
        ensures { result ≡ holder_of kind }
    {
        match kind {
            Some(kind) => Holder::Array(kind),
            None => Holder::Nothing,
        }
    }

    // Whether a list may come where so many values are due in lists.
    fn may_hold_a_list(self, due: usize) -> bool
        ensures { result ≡ may_hold_a_list self due }
    {
        match self {
            Holder::Nothing => due == 0,
            Holder::List | Holder::Array(_) => false,
        }
    }
}

// A value that can be held, where it fits an array too.
fn refit(holder: Holder, scalar: Judged<Scalar>) -> Judged<Scalar>
    ensures { result ≡ refit holder scalar }
{
    match (holder, scalar) {
        (Holder::Array(kind), Ok(scalar)) => {
            if kind.takes(&scalar) {
                Ok(scalar)
            } else {
                Err(LineKind::OutOfRange)
            }
        }
        (_, scalar) => scalar,
    }
}

fn with_scalar(values: Judged<Values>, scalar: Judged<Scalar>) -> Result<Judged<Values>, Memory>
    ensures { IfOk result (λ more. more ≡ with_scalar values scalar) }
{
    match (values, scalar) {
        (Ok(mut values), Ok(scalar)) => {
            values.push(scalar)?;
            Ok(Ok(values))
        }
        (Ok(_), Err(kind)) | (Err(kind), Ok(_)) => Ok(Err(kind)),
        (Err(kind), Err(other)) => Ok(Err(first_of(kind, other))),
    }
}

fn with_list(may_come: bool, values: Judged<Values>) -> Judged<Values>
    ensures { result ≡ with_list may_come values }
{
    match (may_come, values) {
        (true, values) => values,
        (false, Ok(_)) => Err(LineKind::OutOfRange),
        (false, Err(kind)) => Err(first_of(kind, LineKind::OutOfRange)),
    }
}

/// The values that were read so far.
#[derive(Debug, Drop)]
pub struct Gathering {
    /// How many there are.
    pub tally: Tally,
    /// The values, or why the line is refused for one of them.
    pub values: Judged<Values>,
}

impl Gathering {
    // No values.
    fn none(alloc: Global) -> Gathering
        ensures { result ≡ no_values }
    {
        Gathering {
            tally: Tally { count: 0, due: 0 },
            values: Ok(Values::new(alloc)),
        }
    }

    // One token more.
    fn with(self, holder: Holder, token: JudgedToken) -> Result<Gathering, Stop>
        requires { self.tally.count < 2 ^ 64 - 1 }
        ensures more { IfOk result (λ more. with_token holder self token ≡ Some more) }
        ensures too_much { IsErrOf result Stop.NotALine → IsTooMuch (with_token holder self token) }
    {
        let may_list = holder.may_hold_a_list(self.tally.due);
        let (due, values) = match token {
            JudgedToken::Scalar(scalar) => (0, with_scalar(self.values, refit(holder, scalar))?),
            JudgedToken::Count(Ok(count)) => {
                let Ok(due) = usize::try_from(count) else {
                    return Err(Stop::NotALine);
                };
                (due, with_list(may_list, self.values))
            }
            JudgedToken::Count(Err(_)) => return Err(Stop::NotALine),
        };
        let tally = self.tally.with(due).ok_or(Stop::NotALine)?;
        Ok(Gathering { tally, values })
    }
}

/// The values that all words that are left write. It fails where they write none, or without
/// memory.
pub fn gathered(alloc: Global, holder: Holder, words: &mut Words) -> Result<Gathering, Stop>
    ensures { Finds (λ g. (g.tally.count, g.values)) result (gathered_in holder words.old) }
{
    let mut so_far = Gathering::none(alloc);
    while !words.is_empty() {
        let token = token(alloc, words)?;
        so_far = so_far.with(holder, token)?;
    }
    if so_far.tally.due > 0 {
        return Err(Stop::NotALine);
    }
    Ok(so_far)
}

fn one_value(scalar: Judged<Scalar>) -> Judged<Value>
    ensures { result ≡ mapped Value.One scalar }
{
    match scalar {
        Ok(scalar) => Ok(Value::One(scalar)),
        Err(kind) => Err(kind),
    }
}

// A value, by its first token and all that follows it.
fn value_from(token: JudgedToken, all: Gathering) -> Option<Judged<Value>>
    ensures { result ≡ spec.value_from token all.tally.count all.values }
{
    match token {
        JudgedToken::Scalar(scalar) if all.tally.count == 0 => Some(one_value(scalar)),
        JudgedToken::Count(Ok(count)) if all.tally.count as u128 == count => {
            Some(all.values.map(Value::List))
        }
        _ => None,
    }
}

// The one value of a first token and of all words after it.
#[inline(never)]
fn value_behind(alloc: Global, first: JudgedToken, words: &mut Words) -> Result<Judged<Value>, Stop>
    ensures { Finds (λ value. value) result (value_behind first words.old) }
{
    let all = gathered(alloc, Holder::List, words)?;
    value_from(first, all).ok_or(Stop::NotALine)
}

/// The one value that all words that are left write. It fails where they write none or several, or
/// without memory.
pub fn value(alloc: Global, words: &mut Words) -> Result<Judged<Value>, Stop>
    ensures { Finds (λ value. value) result (judged_value_in words.old) }
{
    match token(alloc, words)? {
        JudgedToken::Scalar(scalar) if words.is_empty() => Ok(one_value(scalar)),
        first => value_behind(alloc, first, words),
    }
}
