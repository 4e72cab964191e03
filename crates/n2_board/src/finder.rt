//! Which of some spans holds a point, by a search in a sorted table.

ghost use Rattle.std.specs.Prelude.{◌≡◌, ℕ, ◌+◌, ◌<◌, ◌≤◌, ◌^◌, [], ◌∷◌, ◌++◌, IfOk, OnOk, IfSome, length, map, position, slice_index, option_map};
ghost use Rattle.std.specs.List.{flat_map};
ghost use Rattle.std.specs.List.Sorted.{IsNonDecreasing, IsPermutation};
ghost use Rattle.std.specs.Option.{option_or};
ghost use Rattle.n2_parts.specs.Rules.{holds};

use n2_parts::Span;
use n2_word::NoMemory;
use std::alloc::Global;
use std::marker::Model;

/// Spans; where they begin and end, in rising order; and at each of these points the number of the
/// first span that holds it. Between two of them the answer does not change. Contracts see the spans
/// and the points.
#[derive(Debug, Drop)]
pub struct Finder {
    spans: Vec<Span>,
    bounds: Vec<u64>,
    found: Vec<Option<usize>>,
}

impl Model for Finder {
    ghost use Rattle.std.specs.Prelude.{◌≡◌, ℕ, List, map, position};
    ghost use Rattle.std.specs.List.{AllByRecursion, Contains};
    ghost use Rattle.std.specs.List.Sorted.{IsNonDecreasing};
    ghost use Rattle.n2_parts.specs.declared.spans.Span.{Span as SpanValue};
    ghost use Rattle.n2_parts.specs.Rules.{holds};

    ghost Value = { List SpanValue × List ℕ };

    ghost view = { λ f. (f.spans.items, f.bounds.items) };

    ghost invariant = { λ f. IsNonDecreasing f.bounds.items
        × AllByRecursion (λ span. Contains f.bounds.items span.from × Contains f.bounds.items span.end) f.spans.items
        × (f.found.items ≡ map (λ point. position (λ span. holds span point) f.spans.items) f.bounds.items) };
}

/// The number of the first span that holds a point, one by one.
fn first_holding(spans: &[Span], point: u64) -> Option<usize>
    ensures { result ≡ position (λ span. holds span point) spans.now }
{
    spans.iter().position(|span| span.holds(point))
}

/// Where spans begin and end.
fn bounds_of(alloc: Global, spans: &[Span]) -> Result<Vec<u64>, NoMemory>
    ensures { IfOk result (λ bounds. bounds.items ≡ flat_map (λ span. span.from ∷ span.end ∷ []) spans.now) }
{
    let mut bounds = Vec::new(alloc);
    for span in spans {
        bounds.push(span.from)?;
        bounds.push(span.end)?;
    }
    Ok(bounds)
}

/// The number of the first span that holds each of some points.
fn all_found(alloc: Global, spans: &[Span], points: &[u64]) -> Result<Vec<Option<usize>>, NoMemory>
    ensures { IfOk result (λ found. found.items ≡ map (λ point. position (λ span. holds span point) spans.now) points.now) }
{
    let mut found = Vec::new(alloc);
    for point in points {
        found.push(first_holding(spans, *point))?;
    }
    Ok(found)
}

fn copy_spans(alloc: Global, spans: &[Span]) -> Result<Vec<Span>, NoMemory>
    ensures { IfOk result (λ copies. copies.items ≡ spans.now) }
{
    Ok(Vec::from_slice(alloc, spans)?)
}

/// No more spans than this are looked at one by one.
const FEW: usize = 8;

/// The finder of a few spans.
fn short_finder(alloc: Global, spans: &[Span]) -> Result<Finder, NoMemory>
    ensures { IfOk result (λ finder. finder.0 ≡ spans.now) }
{
    let mut bounds = bounds_of(alloc, spans)?;
    bounds.sort_unstable();
    let found = all_found(alloc, spans, bounds.as_slice())?;
    let spans = copy_spans(alloc, spans)?;
    Ok(Finder {
        spans,
        bounds,
        found,
    })
}

/// The bounds of two tables in rising order.
fn both_bounds(alloc: Global, first: &[u64], second: &[u64]) -> Result<Vec<u64>, NoMemory>
    ensures same { IfOk result (λ bounds. IsPermutation (first.now ++ second.now) bounds.items) }
    ensures rising { IfOk result (λ bounds. IsNonDecreasing bounds.items) }
{
    let mut bounds = Vec::from_slice(alloc, first)?;
    bounds.extend_from_slice(second)?;
    match bounds.sort() {
        Ok(()) => Ok(bounds),
        Err(_) => Err(NoMemory),
    }
}

/// The number that is found in so many spans, or else in those behind them.
fn either(here: Option<usize>, count: usize, behind: Option<usize>) -> Option<usize>
    requires { IfSome behind (λ n. n + count < 2 ^ 64) }
    ensures { result ≡ option_or here (option_map (λ n. n + count) behind) }
{
    match here {
        Some(n) => Some(n),
        None => match behind {
            Some(n) => Some(n + count),
            None => None,
        },
    }
}

/// The number of the first span of two finders, one behind the other, that holds each of some
/// rising points.
fn both_found(
    alloc: Global,
    first: &Finder,
    count: usize,
    second: &Finder,
    points: &[u64],
) -> Result<Vec<Option<usize>>, NoMemory>
    requires count { length first.now.0 ≡ count }
    requires fit { count + length second.now.0 < 2 ^ 64 }
    requires rising { IsNonDecreasing points.now }
    ensures { IfOk result (λ found. found.items ≡ map (λ point. position (λ span. holds span point) (first.now.0 ++ second.now.0)) points.now) }
{
    let mut found = Vec::new(alloc);
    let mut in_first = 0;
    let mut in_second = 0;
    for point in points {
        let (passed, here) = first.find_from(in_first, *point);
        let (passed_behind, behind) = second.find_from(in_second, *point);
        found.push(either(here, count, behind))?;
        in_first = passed;
        in_second = passed_behind;
    }
    Ok(found)
}

/// How many of some rising numbers are at most a number, counted on from so many that are.
#[inline(always)]
fn up_to_from(bounds: &[u64], known: usize, point: u64) -> usize
    requires rising { IsNonDecreasing bounds.now }
    requires known { (known ≤ length bounds.now) × ((k : ℕ) → k < known → slice_index bounds.now k ≤ point) }
    ensures up_to { (result ≤ length bounds.now) × ((k : ℕ) → k < result → slice_index bounds.now k ≤ point) }
    ensures above { (k : ℕ) → result ≤ k → k < length bounds.now → point < slice_index bounds.now k }
{
    let mut n = known;
    while n < bounds.len() && bounds[n] <= point {
        n += 1;
    }
    n
}

/// How many of some rising numbers are at most a number.
fn up_to(bounds: &[u64], point: u64) -> usize
    requires { IsNonDecreasing bounds.now }
    ensures within { result ≤ length bounds.now }
    ensures below { (k : ℕ) → k < result → slice_index bounds.now k ≤ point }
    ensures above { (k : ℕ) → result ≤ k → k < length bounds.now → point < slice_index bounds.now k }
{
    let mut low = 0;
    let mut high = bounds.len();
    while low < high {
        let middle = low + (high - low) / 2;
        if bounds[middle] <= point {
            low = middle + 1;
        } else {
            high = middle;
        }
    }
    low
}

impl Finder {
    /// The finder of some spans, by those of their first and their second half. Two finders are
    /// joined in time linear in their bounds.
    pub fn open(alloc: Global, spans: &[Span]) -> Result<Finder, NoMemory>
        ensures { IfOk result (λ finder. finder.0 ≡ spans.now) }
    {
        if spans.len() <= FEW {
            return short_finder(alloc, spans);
        }
        let (front, back) = spans.split_at(spans.len() / 2);
        let first = Finder::open(alloc, front)?;
        let second = Finder::open(alloc, back)?;
        let bounds = both_bounds(alloc, &first.bounds, &second.bounds)?;
        let found = both_found(alloc, &first, front.len(), &second, &bounds)?;
        let spans = copy_spans(alloc, spans)?;
        Ok(Finder {
            spans,
            bounds,
            found,
        })
    }

    /// The number of the first span that holds a point.
    pub fn find(&self, point: u64) -> Option<usize>
        ensures { result ≡ position (λ span. holds span point) self.now.0 }
    {
        let n = up_to(self.bounds.as_slice(), point);
        if n == 0 {
            return None;
        }
        self.found[n - 1]
    }

    /// How many bounds are at most a point, counted on from so many that are, and the number of the
    /// first span that holds the point.
    #[inline(always)]
    pub fn find_from(&self, known: usize, point: u64) -> (usize, Option<usize>)
        requires { (known ≤ length self.now.1) × ((k : ℕ) → k < known → slice_index self.now.1 k ≤ point) }
        ensures up_to { (result.0 ≤ length self.now.1) × ((k : ℕ) → k < result.0 → slice_index self.now.1 k ≤ point) }
        ensures found { result.1 ≡ position (λ span. holds span point) self.now.0 }
    {
        let n = up_to_from(self.bounds.as_slice(), known, point);
        if n == 0 {
            return (0, None);
        }
        (n, self.found[n - 1])
    }
}
