//! Order words.

ghost use Rattle.std.specs.Prelude.{◌≡◌, IfSome, option_map};
ghost use Rattle.n2_order.specs.Orders.{behind as behind_key};

use n2_text::{numeral, numeral_up_to};

/// The order in which actors take their turns, as an order word names it.
#[derive(Clone, Copy, Debug, PartialEq, Eq)]
pub enum Order<'a> {
    /// Rounds in a cycle, in which each actor has this many turns.
    Rounds(u32),
    /// The words of the generator with this seed.
    Seed(u64),
    /// The actors that the file with this name lists.
    List(&'a str),
}

impl<'a> Order<'a> {
    ghost use Rattle.n2_order.specs.Orders.{asked, order_of, HasTurns};

    /// The order of a word: `rr:Q` with Q from 1 to 1,000,000, `seed:N` with N below 2^64, or
    /// `list:FILE` with a name that is not empty; None exactly for every other word. Numbers are
    /// decimal digits without a sign or a leading zero.
    #[tactic(auto, unfolding(crate::specs::Orders::order_of))]
    pub fn read(word: &'a str) -> Option<Order<'a>>
        ensures value { option_map asked result ≡ order_of word.now }
        ensures turns { IfSome result (λ order. HasTurns (asked order)) }
    {
        if let Some(digits) = behind("rr:", word) {
            let turns = numeral_up_to(1_000_000, digits.as_bytes())?;
            return if turns == 0 {
                None
            } else {
                Some(Order::Rounds(turns as u32))
            };
        }
        if let Some(digits) = behind("seed:", word) {
            return Some(Order::Seed(numeral(digits.as_bytes())?));
        }
        let name = behind("list:", word)?;
        if name.is_empty() {
            None
        } else {
            Some(Order::List(name))
        }
    }
}

/// What stands behind a key, where a text begins with it.
fn behind<'a>(key: &str, text: &'a str) -> Option<&'a str>
    ensures { option_map (λ x. x.now) result ≡ behind_key key.now text.now }
{
    text.strip_prefix(key)
}
