// The order of the texts: their positions in runs, each sorted by text and then by position. A run
// has the positions from the one where it is cut off from those before up to the next such one.
ghost use Rattle.std.specs.Prelude.{◌≡◌, ◌≢◌, ◌∷◌, [], ◌++◌, ◌+◌, ◌-◌, ◌≤◌, ◌<◌, ◌^◌, ℕ, length, nat_lt, OnOk, OnErr, IfSome, IfNone, drop, slice_index, slice_range, take, vec_len, vec_capacity};
ghost use Rattle.std.specs.List.{All, filter};
ghost use Rattle.std.specs.Cmp.Lexicographic.{slice_cmp};
ghost use Rattle.std.specs.List.Sorted.{IsPermutation, IsSorted};
ghost use Rattle.std.specs.Ordering.{is_lt, nat_cmp};
ghost use Rattle.session_dictionary.specs.Order.{ArePositions, EachPair, InOrder, IsCutTo, IsFirst, IsFirstIn, IsOrder, IsOrderOf, by_text, text_of};

use crate::texts::Texts;
use std::alloc::{AllocError, Global};
use std::cmp::Ordering;

#[derive(Drop)]
pub(crate) struct TextOrder {
    pub(crate) alloc: Global,
    /// The positions of all texts, in runs that are each sorted by text.
    pub(crate) positions: Vec<u32>,
    /// Where a run begins.
    pub(crate) cuts: Vec<usize>,
}

impl TextOrder {
    pub(crate) fn new(alloc: Global) -> Self
        ensures { IsOrderOf [] result }
    {
        TextOrder {
            alloc,
            positions: Vec::new(alloc),
            cuts: Vec::new(alloc),
        }
    }
}

// How two positions compare.
fn compare(texts: &Texts, first: u32, second: u32) -> Ordering
    ensures { result ≡ by_text texts.now first second }
{
    match texts.nth(first as usize).cmp(texts.nth(second as usize)) {
        Ordering::Equal => first.cmp(&second),
        order => order,
    }
}

// Sorts a run.
fn sort_run(alloc: Global, texts: &Texts, run: &mut [u32]) -> Result<(), AllocError>
    ensures same { IsPermutation run.old run.new }
    ensures sorted { OnOk result (IsSorted (by_text texts.now) run.new) }
    ensures err { OnErr result (run.new ≡ run.old) }
{
    run.sort_by(alloc, |first, second| compare(texts, *first, *second))
}

// Sorts what stands from a place on.
fn sort_from(
    alloc: Global,
    texts: &Texts,
    positions: &mut [u32],
    start: usize,
) -> Result<(), AllocError>
    requires { start ≤ length positions.old }
    ensures before { take start positions.new ≡ take start positions.old }
    ensures same { IsPermutation (drop start positions.old) (drop start positions.new) }
    ensures sorted { OnOk result (IsSorted (by_text texts.now) (drop start positions.new)) }
    ensures err { OnErr result (positions.new ≡ positions.old) }
{
    sort_run(alloc, texts, &mut positions[start..])
}

// From which cut on the runs are to be one, so that each run is at least twice as long as the next,
// and there are few of them.
fn joined(cuts: &[usize], end: usize) -> usize
    requires some { 0 < length cuts.now }
    requires rises { EachPair ◌≤◌ cuts.now }
    requires within { All (λ cut. cut ≤ end) cuts.now }
    ensures { result < length cuts.now }
{
    let mut place = cuts.len() - 1;
    while place > 0 && (cuts[place] - cuts[place - 1]) / 2 < end - cuts[place] {
        place -= 1;
    }
    place
}

// Joins the last runs to one, where there is memory to sort it.
fn join(alloc: Global, texts: &Texts, positions: &mut Vec<u32>, cuts: &mut Vec<usize>)
    requires some { 0 < length cuts.old.items }
    requires order { IsOrder texts.now positions.old.items cuts.old.items }
    ensures { IsOrder texts.now positions.new.items cuts.new.items }
{
    let place = joined(cuts, positions.len());
    if place + 1 == cuts.len() {
        return;
    }
    let start = cuts[place];
    if sort_from(alloc, texts, positions, start).is_ok() {
        cuts.truncate(place + 1);
    }
}

// Puts the position of the last text into the order.
pub(crate) fn add_last(
    alloc: Global,
    texts: &Texts,
    positions: &mut Vec<u32>,
    cuts: &mut Vec<usize>,
)
    requires some { 0 < length texts.now }
    requires few { length texts.now ≤ 2 ^ 30 + 1 }
    requires order { IsOrder (take (length texts.now - 1) texts.now)
        positions.old.items cuts.old.items }
    requires position_fits { vec_len positions.old < vec_capacity positions.old }
    requires cut_fits { vec_len cuts.old < vec_capacity cuts.old }
    ensures { IsOrder texts.now positions.new.items cuts.new.items }
{
    let position = texts.len() - 1;
    positions.push_reserved(position as u32);
    cuts.push_reserved(position);
    join(alloc, texts, positions, cuts);
}

// Moves the positions below a bound to the front, in their order, and answers how many there are.
fn gather(run: &mut [u32], bound: u32) -> usize
    ensures within { result ≤ length run.new }
    ensures front { take result run.new ≡ filter (λ position. nat_lt position bound) run.old }
{
    let mut count = 0;
    for place in 0..run.len() {
        let position = run[place];
        if position < bound {
            run[count] = position;
            count += 1;
        }
    }
    count
}

// The same for those from a place on, which come to stand from there on.
fn gather_from(positions: &mut [u32], start: usize, bound: u32) -> usize
    requires { start ≤ length positions.old }
    ensures within { start + result ≤ length positions.new }
    ensures before { take start positions.new ≡ take start positions.old }
    ensures front { take result (drop start positions.new)
        ≡ filter (λ position. nat_lt position bound) (drop start positions.old) }
{
    gather(&mut positions[start..], bound)
}

// Leaves out the runs that begin at a bound or later, and with them only positions from it on.
fn cut_runs(texts: &Texts, positions: &mut Vec<u32>, cuts: &mut Vec<usize>, bound: u32)
    requires there { bound ≤ length texts.now }
    requires order { IsOrder texts.now positions.old.items cuts.old.items }
    ensures cuts { cuts.new.items ≡ filter (λ cut. nat_lt cut bound) cuts.old.items }
    ensures positions { IsCutTo bound cuts.new.items positions.old.items positions.new.items }
{
    // The texts are for the contract alone.
    let _ = texts;
    let end = bound as usize;
    let kept = cuts.partition_point(|cut| *cut < end);
    if kept < cuts.len() {
        positions.truncate(cuts[kept]);
        cuts.truncate(kept);
    }
}

// Where the last run begins.
fn last_cut(cuts: &[usize]) -> usize
    ensures { result ≡ slice_index (0 ∷ cuts.now) (length cuts.now) }
{
    match cuts.last() {
        Some(cut) => *cut,
        None => 0,
    }
}

// Leaves the positions below a bound, where those before a place are.
fn cut_run(positions: &mut Vec<u32>, start: usize, bound: u32)
    requires there { start ≤ length positions.old.items }
    requires all { ArePositions (length positions.old.items) positions.old.items }
    requires below { All (λ position. position < bound) (take start positions.old.items) }
    ensures { positions.new.items
        ≡ filter (λ position. nat_lt position bound) positions.old.items }
{
    if positions.len() > bound as usize {
        let count = gather_from(positions, start, bound);
        positions.truncate(start + count);
    }
}

// Leaves the positions below a bound. The runs that begin there or later go as a whole, and of the
// others only the last may have positions from there on, so the work is at most that of adding what
// is cut off.
pub(crate) fn cut_off(texts: &Texts, positions: &mut Vec<u32>, cuts: &mut Vec<usize>, bound: u32)
    requires there { bound ≤ length texts.now }
    requires order { IsOrder texts.now positions.old.items cuts.old.items }
    ensures { IsOrder (take bound texts.now) positions.new.items cuts.new.items }
{
    cut_runs(texts, positions, cuts, bound);
    let start = last_cut(cuts);
    cut_run(positions, start, bound);
}

// The first position in a run that has a text.
fn first_in(texts: &Texts, run: &[u32], text: &str) -> Option<u32>
    requires { EachPair (InOrder texts.now) run.now }
    ensures found { IfSome result (IsFirstIn texts.now run.now text.now) }
    ensures none { IfNone result (All (λ other. text_of texts.now other ≢ text.now) run.now) }
{
    let place = run.partition_point(|position| texts.nth(*position as usize).cmp(text).is_lt());
    let position = *run.get(place)?;
    if texts.nth(position as usize) == text {
        Some(position)
    } else {
        None
    }
}

// The same in the run from a place up to another.
fn first_between(
    texts: &Texts,
    positions: &[u32],
    start: usize,
    end: usize,
    text: &str,
) -> Option<u32>
    requires rises { start ≤ end }
    requires within { end ≤ length positions.now }
    requires sorted { EachPair (InOrder texts.now) (slice_range positions.now start end) }
    ensures found { IfSome result
        (IsFirstIn texts.now (slice_range positions.now start end) text.now) }
    ensures none { IfNone result (All (λ other. text_of texts.now other ≢ text.now)
        (slice_range positions.now start end)) }
{
    first_in(texts, &positions[start..end], text)
}

// The first position that has a text.
pub(crate) fn first_of(texts: &Texts, positions: &[u32], cuts: &[usize], text: &str) -> Option<u32>
    requires { IsOrder texts.now positions.now cuts.now }
    ensures found { IfSome result (IsFirst texts.now text.now) }
    ensures none { IfNone result
        ((other : ℕ) → other < length texts.now → text_of texts.now other ≢ text.now) }
{
    let mut start = 0;
    for cut in cuts {
        match first_between(texts, positions, start, *cut, text) {
            Some(position) => return Some(position),
            None => start = *cut,
        }
    }
    first_between(texts, positions, start, positions.len(), text)
}

// The same by a walk through the texts.
pub(crate) fn first_walked(texts: &Texts, text: &str) -> Option<u32>
    requires few { length texts.now ≤ 2 ^ 30 }
    ensures found { IfSome result (IsFirst texts.now text.now) }
    ensures none { IfNone result
        ((other : ℕ) → other < length texts.now → text_of texts.now other ≢ text.now) }
{
    for position in 0..texts.len() {
        if texts.nth(position) == text {
            return Some(position as u32);
        }
    }
    None
}
