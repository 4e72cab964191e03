//! Which actor goes next.

ghost use Rattle.std.specs.Prelude.{◌≡◌, ◌+◌, ◌^◌, ◌<◌, [], All, Some, IsNone, IfSome, IfNone, ◌↔◌, true, false, length, option_map, slice_get, slice_index, drop};
ghost use Rattle.rand_pcg.specs.Pcg.{pcg32};
ghost use Rattle.n2_order.specs.Choices.{Drawing, Listed, drawn, is_running as running_at, running, lowest_from, next_in_round, next_listed as listed_at};

use crate::Order;
use rand_core::SeedableRng;
use rand_core::utils::NextWord;
use rand_pcg::Lcg64Xsh32;
use std::marker::Model;

/// A round: how many turns each actor has, whose turns they are, and how many of them are left.
#[derive(Clone, Copy, Debug)]
struct Turns {
    each: u32,
    actor: u32,
    left: u32,
}

/// Where an order stands.
#[derive(Debug, Drop)]
enum Way {
    Rounds(Turns),
    Seed(Lcg64Xsh32),
    List { list: Vec<u32>, at: usize },
}

/// What picks the next actor of an order, seen as the number of actors and where the order stands.
#[derive(Debug, Drop)]
pub struct Chooser {
    actors: u32,
    way: Way,
}

impl Model for Chooser {
    ghost use Rattle.n2_order.specs.Choices.{Choosing};
    ghost use Rattle.n2_order.specs.States.{state_of, IsSound};

    ghost Value = { Choosing };

    ghost view = { λ c. record { actors = c.actors; state = state_of c.way } };

    ghost invariant = { λ c. IsSound c.way };
}

impl Chooser {
    ghost use Rattle.std.specs.Prelude.{Bool};
    ghost use Rattle.n2_order.specs.Orders.{asked, HasTurns};
    ghost use Rattle.n2_order.specs.Choices.{start_of, next_of, picked, moved};

    /// A chooser at the start of an order. The list is looked at for `Order::List` alone.
    pub fn open(order: &Order<'_>, list: Vec<u32>, actors: u32) -> Chooser
        requires some { 0 < actors }
        requires turns { HasTurns (asked order.now) }
        requires below { All (λ actor. actor < actors) list.items }
        ensures { result ≡ record { actors = actors; state = start_of (asked order.now) list.items } }
    {
        let way = match *order {
            Order::Rounds(turns) => Way::Rounds(Turns::first(turns)),
            Order::Seed(seed) => Way::Seed(Lcg64Xsh32::seed_from_u64(seed)),
            Order::List(_) => Way::List { list, at: 0 },
        };
        Chooser { actors, way }
    }

    /// The actor that goes next, by which actors are over; None exactly where all are, and then the
    /// chooser is as it was. Rounds begin with actor 0 and give each actor its turns, or until it is
    /// over, and then the next in the cycle that is not over. A seed takes the generator's next word,
    /// modulo the number of actors that are not over, as the place among them. A list passes over
    /// actors that are over, and goes on as rounds of one turn from actor 0.
    #[inline(always)]
    pub fn next(&mut self, over: &[bool]) -> Option<u32>
        requires { length over.now ≡ self.old.actors }
        ensures actor { result ≡ picked self.old over.now }
        ensures state { self.new ≡ moved self.old (next_of self.old.state over.now) }
        ensures none { IsNone result ↔ All (λ o. o ≡ true) over.now }
        ensures running { IfSome result (λ actor. slice_get over.now actor ≡ Some false) }
        ensures actors { self.new.actors ≡ self.old.actors }
    {
        self.step(over)
    }

    #[inline(always)]
    fn step(&mut self, over: &[bool]) -> Option<u32>
        requires { length over.now ≡ self.old.actors }
        ensures actor { result ≡ picked self.old over.now }
        ensures state { self.new ≡ moved self.old (next_of self.old.state over.now) }
    {
        match &mut self.way {
            Way::Rounds(turns) => {
                *turns = turns.next(over)?;
                Some(turns.actor)
            }
            Way::Seed(words) => draw(words, over),
            Way::List { list, at } => {
                if let Some(place) = next_listed(list, *at, over) {
                    *at = place + 1;
                    return Some(list[place]);
                }
                let turns = Turns::first(1).next(over)?;
                self.way = Way::Rounds(turns);
                Some(turns.actor)
            }
        }
    }
}

impl Turns {
    ghost use Rattle.n2_order.specs.States.{round_of};
    ghost use Rattle.n2_order.specs.Choices.{InRound};

    /// The first round, before the first turn of actor 0.
    fn first(each: u32) -> Turns
        ensures { result ≡ record { each = each; actor = 0; left = each } }
    {
        Turns {
            each,
            actor: 0,
            left: each,
        }
    }

    /// The round after the next turn, which is its actor's.
    #[inline(always)]
    fn next(self, over: &[bool]) -> Option<Turns>
        requires turns { 0 < self.each }
        requires actors { length over.now < 2 ^ 32 }
        ensures { option_map (λ t. (t.actor, round_of t)) result ≡ next_in_round self.each self.actor self.left over.now }
    {
        if self.left > 0 && is_running(over, self.actor) {
            return Some(Turns {
                left: self.left - 1,
                ..self
            });
        }
        let next = match first_running(over, self.actor as usize + 1) {
            Some(actor) => actor,
            None => first_running(over, 0)?,
        };
        Some(Turns {
            each: self.each,
            actor: next,
            left: self.each - 1,
        })
    }
}

/// Whether an actor is not over.
#[inline(always)]
fn is_running(over: &[bool], actor: u32) -> bool
    ensures { result ≡ running_at over.now actor }
{
    let at = actor as usize;
    at < over.len() && !over[at]
}

/// The lowest actor from this one on that is not over.
fn first_running(over: &[bool], from: usize) -> Option<u32>
    requires { length over.now < 2 ^ 32 }
    ensures { result ≡ lowest_from from over.now }
{
    for actor in from..over.len() {
        if !over[actor] {
            return Some(actor as u32);
        }
    }
    None
}

/// How many actors are not over.
fn running_count(over: &[bool]) -> u32
    requires { length over.now < 2 ^ 32 }
    ensures { result ≡ length (running 0 over.now) }
{
    let mut count = 0;
    for o in over {
        if !*o {
            count += 1;
        }
    }
    count
}

/// The actor with this place among those that are not over, in rising order.
fn nth_running(over: &[bool], place: u32) -> u32
    requires actors { length over.now < 2 ^ 32 }
    requires within { place < length (running 0 over.now) }
    ensures { result ≡ slice_index (running 0 over.now) place }
{
    let mut left = place;
    for (actor, o) in over.iter().enumerate() {
        if !*o {
            if left == 0 {
                return actor as u32;
            }
            left -= 1;
        }
    }
    unreachable!()
}

/// Draws the next word, and takes the actor at its place among those that are not over.
fn draw(words: &mut Lcg64Xsh32, over: &[bool]) -> Option<u32>
    requires { length over.now < 2 ^ 32 }
    ensures none { IfNone result ((words.new ≡ words.old) × (running 0 over.now ≡ [])) }
    ensures some { IfSome result (λ actor. drawn (pcg32 words.old) (running 0 over.now) ≡ Some (actor, Drawing words.new)) }
{
    let count = running_count(over);
    if count == 0 {
        return None;
    }
    let place = words.next_word() % count;
    Some(nth_running(over, place))
}

/// The place of the next actor of a list that is not over.
fn next_listed(list: &[u32], at: usize, over: &[bool]) -> Option<usize>
    ensures none { IfNone result (listed_at (drop at list.now) over.now ≡ next_in_round 1 0 1 over.now) }
    ensures some { IfSome result (λ place. listed_at (drop at list.now) over.now ≡ Some (slice_index list.now place, Listed (drop (place + 1) list.now))) }
    ensures within { IfSome result (λ place. place < length list.now) }
{
    for place in at..list.len() {
        if is_running(over, list[place]) {
            return Some(place);
        }
    }
    None
}
