// The placing of a side's lists in its index store, by writing and by comparing. The slices of a side: index holds the lists,
// starts the list starts and runs the run starts. In the plain form the list starts are the run starts.
#![tactic(auto)]

ghost use Rattle.std.specs.Prelude.{◌≡◌, ◌+◌, ◌-◌, ◌≤◌, ◌<◌, ◌==◌, cond, [], ltb, eqb, length, get_or};
ghost use Rattle.std.specs.List.{position, list_all, zip};
ghost use Rattle.std.proofs.Math.Seq.{paste};
ghost use Rattle.base.specs.Lists.{list_at};
ghost use Rattle.base.specs.First.{first};
ghost use Rattle.base.specs.Index.{index_bound};
ghost use Rattle.lent.specs.Reading.{Below};
ghost use Rattle.placement.specs.Placing.{tails, fresh, overlap};
ghost use Rattle.storing.specs.Slices.{Tailed, AllTailed, full_at, as_plan, TailIn, held, Planning, plan_over, Planned, Ready, look_of, Writable, WrittenBy, Standing, same_at};
ghost use Rattle.storing.specs.Held.{PlaceEnds, PlainEnds, CheckEnds};
ghost use Rattle.storing.specs.declared.Way.{Way};

use base::{Index, Place};

// How the lists of a side stand in their index store.
#[derive(Clone, Copy)]
pub enum Way {
    OneAfterAnother,
    Sharing,
}

// Gives where the last most entries of place i's list start.
fn tail_start(starts: &[u32], runs: &[u32], slots: &[Index], i: Place, most: usize) -> usize
    requires { TailIn starts.now runs.now slots.now i.0 most }
    ensures { result ≡ get_or runs.now i.0 0 + (length (list_at starts.now runs.now slots.now i.0) - most) }
{
    let p = i.0 as usize;
    base::slot(runs[p]) + (lent::list_length(starts, p) - most)
}

// Tells whether place i's list has count entries above k. It ascends and has no more of them, so one entry tells.
fn has_tail(starts: &[u32], runs: &[u32], slots: &[Index], i: Place, k: Place, count: usize) -> bool
    requires tailed { Tailed starts.now runs.now slots.now k.0 count i.0 }
    requires count_nonzero { 0 < count }
    ensures { result ≡ eqb (tails (list_at starts.now runs.now slots.now) k.0 i.0) count }
{
    let p = i.0 as usize;
    let length = lent::list_length(starts, p);
    if length < count {
        return false;
    }
    let at = base::slot(runs[p]) + (length - count);
    k.0 < base::number(slots[at])
}

// "the first whose T(i) has the most entries above k", where that number is count: its index in the row.
fn full_tail(
    starts: &[u32],
    runs: &[u32],
    slots: &[Index],
    row: &[u32],
    k: Place,
    count: usize,
) -> Option<usize>
    requires all_tailed { AllTailed starts.now runs.now slots.now k.0 count row.now }
    requires count_nonzero { 0 < count }
    ensures { result ≡ first (full_at starts.now runs.now slots.now k.0 count row.now) (length row.now) }
{
    for (j, &i) in row.iter().enumerate() {
        if has_tail(starts, runs, slots, Place(i), k, count) {
            return Some(j);
        }
    }
    None
}

// The index of the first entry that is x.
fn first_at(s: &[Index], x: u32) -> Option<usize>
    ensures { result ≡ position (λ y. y == x) s.now }
{
    s.iter().position(|&y| base::number(y) == x)
}

// Do the two lists agree as far as both go?
fn agrees(s: &[Index], t: &[u32]) -> bool
    ensures { result ≡ list_all (λ p. p.0 == p.1) (zip s.now t.now) }
{
    s.iter().zip(t).all(|(&x, &y)| base::number(x) == y)
}

// Where a list's run starts, and how many of its entries stand there already; the others are appended.
#[derive(Clone, Copy)]
pub struct Plan {
    pub start: usize,
    pub have: usize,
}

// Step 3 where there is no overlap: append all.
fn fresh_plan(slots: &[Index], list: &[u32]) -> Plan
    ensures { result ≡ as_plan (fresh slots.now list.now) }
{
    Plan {
        start: slots.len(),
        have: 0,
    }
}

// Step 3: the last run is the used part from last on.
fn overlap_plan(slots: &[Index], last: usize, list: &[u32]) -> Plan
    requires { (last ≤ length slots.now) × (0 < length list.now) }
    ensures { result ≡ as_plan (overlap (held slots.now [] last) list.now) }
{
    let Some(j) = first_at(&slots[last..], list[0]) else {
        return fresh_plan(slots, list);
    };
    let p = last + j;
    if agrees(&slots[p..], list) {
        return Plan {
            start: p,
            have: list.len().min(slots.len() - p),
        };
    }
    fresh_plan(slots, list)
}

// Steps 1 to 3: where place k's list goes.
fn shared_plan(
    starts: &[u32],
    runs: &[u32],
    slots: &[Index],
    last: usize,
    k: Place,
    row: &[u32],
    list: &[u32],
) -> Plan
    requires { Planning Way.Sharing starts.now runs.now slots.now last k.0 row.now list.now }
    ensures { result ≡ as_plan (plan_over Way.Sharing starts.now runs.now slots.now last k.0 row.now list.now) }
{
    if list.len() == 0 {
        return Plan {
            start: slots.len(),
            have: 0,
        };
    }
    let found = full_tail(starts, runs, slots, row, k, list.len());
    match found {
        Some(j) => {
            let i = Place(row[j]);
            Plan {
                start: tail_start(starts, runs, slots, i, list.len()),
                have: list.len(),
            }
        }
        None => overlap_plan(slots, last, list),
    }
}

// Where place k's list goes, in either way.
fn plan_list(
    way: Way,
    starts: &[u32],
    runs: &[u32],
    slots: &[Index],
    last: usize,
    k: Place,
    row: &[u32],
    list: &[u32],
) -> Plan
    requires { Planning way starts.now runs.now slots.now last k.0 row.now list.now }
    ensures { Planned slots.now list.now (plan_over way starts.now runs.now slots.now last k.0 row.now list.now) result }
{
    match way {
        Way::OneAfterAnother => Plan {
            start: slots.len(),
            have: 0,
        },
        Way::Sharing => shared_plan(starts, runs, slots, last, k, row, list),
    }
}

// A number that 32 bits hold.
fn number32(x: usize) -> u32
    requires { x < 4294967296 }
    ensures { result ≡ x }
{
    x as u32
}

// What a list lacks goes after the used slots.
fn append(index: &mut [Index], used: usize, rest: &[u32])
    requires rest_in_bounds { used + length rest.now ≤ length index.old }
    requires below { Below index_bound rest.now }
    ensures { index.new ≡ paste index.old used rest.now (length rest.now) }
{
    for (j, &x) in rest.iter().enumerate() {
        index[used + j] = base::narrow(x);
    }
}

// How much is placed on a side: the used slots of the index store, where the last run starts, and the entries of the lists.
#[derive(Clone, Copy, Default)]
pub struct Extent {
    pub used: usize,
    pub last: usize,
    pub entries: usize,
}

// "if anything is appended, the last run is now the slots from that start"
fn last_run(plan: Plan, count: usize, last: usize) -> usize
    ensures { result ≡ cond (ltb plan.have count) plan.start last }
{
    if plan.have < count {
        return plan.start;
    }
    last
}

// Where place k's list would go and how much is placed then, or none where the stores have no room for it. Nothing is written:
// placing and comparing both start from this.
fn look_for(
    way: Way,
    starts: &[u32],
    runs: &[u32],
    index: &[Index],
    values: usize,
    row: &[u32],
    list: &[u32],
    k: Place,
    s: Extent,
) -> Option<(Plan, Extent)>
    requires { Ready way starts.now runs.now index.now values row.now list.now k.0 s }
    ensures { result ≡ look_of way starts.now runs.now index.now values row.now list.now k.0 s }
{
    let used = s.used;
    let entries = s.entries;
    let plan = plan_list(way, starts, runs, &index[..used], s.last, k, row, list);
    let lack = list.len() - plan.have;
    if index.len() - used < lack {
        return None;
    }
    if values - entries < list.len() {
        return None;
    }
    let last = last_run(plan, list.len(), s.last);
    let next = Extent {
        used: used + lack,
        last,
        entries: entries + list.len(),
    };
    Some((plan, next))
}

// What place k's list lacks goes after the used slots, and its values end where list start k + 1 says.
fn write_list(
    starts: &mut [u32],
    index: &mut [Index],
    list: &[u32],
    k: Place,
    s: Extent,
    have: usize,
)
    requires { Writable starts.old index.old list.now k.0 s have }
    ensures { WrittenBy starts.old index.old list.now k.0 s have starts.new index.new }
{
    let free = s.used;
    append(index, free, &list[have..]);
    let p = base::slot(k.0);
    starts[p + 1] = number32(s.entries + list.len());
}

// Puts place k's list into the stores, if it fits the index store and the value store: how much is placed then.
pub fn place_list(
    way: Way,
    starts: &mut [u32],
    runs: &mut [u32],
    index: &mut [Index],
    values: usize,
    row: &[u32],
    list: &[u32],
    k: Place,
    s: Extent,
) -> Option<Extent>
    requires { Ready way starts.old runs.old index.old values row.now list.now k.0 s }
    ensures { PlaceEnds way starts.old runs.old index.old values row.now list.now k.0 s result starts.new runs.new index.new }
{
    let (plan, next) = look_for(way, starts, runs, index, values, row, list, k, s)?;
    write_list(starts, index, list, k, s, plan.have);
    let p = base::slot(k.0);
    runs[p] = number32(plan.start);
    Some(next)
}

// Puts the list there in the plain form, which has no run starts: the list starts are the run starts.
pub fn append_list(
    starts: &mut [u32],
    index: &mut [Index],
    values: usize,
    list: &[u32],
    k: Place,
    s: Extent,
) -> Option<Extent>
    requires { Ready Way.OneAfterAnother starts.old starts.old index.old values list.now list.now k.0 s }
    ensures { PlainEnds starts.old index.old values list.now k.0 s result starts.new index.new }
{
    let (plan, next) = look_for(
        Way::OneAfterAnother,
        starts,
        starts,
        index,
        values,
        list,
        list,
        k,
        s,
    )?;
    write_list(starts, index, list, k, s, plan.have);
    Some(next)
}

// Do the starts of place k and the slots from the used ones on hold what placing would write?
fn stands(
    starts: &[u32],
    runs: &[u32],
    index: &[Index],
    list: &[u32],
    k: Place,
    s: Extent,
    plan: Plan,
) -> bool
    requires { Standing starts.now runs.now index.now list.now k.0 s plan }
    ensures { result ≡ same_at starts.now runs.now index.now list.now k.0 s plan }
{
    let p = base::slot(k.0);
    let have = plan.have;
    let used = s.used;
    let end = used + (list.len() - have);
    (base::slot(runs[p]) == plan.start)
        & (base::slot(starts[p]) == s.entries)
        & (base::slot(starts[p + 1]) == s.entries + list.len())
        & agrees(&index[used..end], &list[have..])
}

// How much is placed then, if the stores hold place k's list where placing would put it. Nothing is written.
pub fn check_list(
    way: Way,
    starts: &[u32],
    runs: &[u32],
    index: &[Index],
    values: usize,
    row: &[u32],
    list: &[u32],
    k: Place,
    s: Extent,
) -> Option<Extent>
    requires { Ready way starts.now runs.now index.now values row.now list.now k.0 s }
    ensures { CheckEnds way starts.now runs.now index.now values row.now list.now k.0 s result }
{
    let (plan, next) = look_for(way, starts, runs, index, values, row, list, k, s)?;
    if stands(starts, runs, index, list, k, s, plan) {
        return Some(next);
    }
    None
}
