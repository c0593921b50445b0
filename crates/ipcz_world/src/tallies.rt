//! Sums and products that tell if they are no numbers of 64 bits.

ghost use Rattle.std.specs.Prelude.{ℕ, ◌<◌, ◌+◌, ◌*◌, ◌≡◌};
ghost use Rattle.ipcz_world.specs.SettleLimit.{higher, after_gone, gone_message};
ghost use Rattle.ipcz_world.specs.Tallies.{Tells};

use ipcz_base::{Item, Message};

/// The sum of two numbers.
pub(crate) fn plus(a: Option<u64>, b: Option<u64>) -> Option<u64>
    ensures { (m : ℕ) → (n : ℕ) → Tells a m → Tells b n → Tells result (m + n) }
{
    a?.checked_add(b?)
}

/// So many times a number.
pub(crate) fn times(count: u64, n: Option<u64>) -> Option<u64>
    requires { 0 < count }
    ensures { (m : ℕ) → Tells n m → Tells result (count * m) }
{
    count.checked_mul(n?)
}

/// The higher of two numbers.
pub(crate) fn higher(a: u64, b: u64) -> u64
    ensures { result ≡ higher a b }
{
    if a < b { b } else { a }
}

/// The number after an item's if it is Gone, else none.
#[tactic(auto, unfolding(crate::specs::SettleLimit::after_gone))]
pub(crate) fn after_gone(n: u64, item: &Item) -> u64
    ensures { result ≡ after_gone n item.now }
{
    if !item.is_gone() {
        return 0;
    }
    if n < u64::MAX { n + 1 } else { n }
}

/// The number after that of the Gone in a message, if it has one.
#[tactic(auto, unfolding(crate::specs::SettleLimit::gone_message))]
pub(crate) fn gone_message(message: &Message) -> u64
    ensures { result ≡ gone_message message.now }
{
    match message {
        Message::Item { n, item, .. } => after_gone(*n, item),
        _ => 0,
    }
}
