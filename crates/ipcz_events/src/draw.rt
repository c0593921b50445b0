//! What a seed draws (docs/JUDGE.md, "Drawing an order of acts").

ghost use Rattle.std.specs.Prelude.{◌≡◌, ◌<◌, IfSome};
ghost use Rattle.ipcz_events.specs.Drawing.{Draws, drawn_number, next_state};

// The state behind the next draw.
#[tactic(auto, unfolding(crate::specs::Drawing::next_state))]
fn next_state(state: u64) -> u64
    ensures { result ≡ next_state state }
{
    state
        .wrapping_mul(6_364_136_223_846_793_005)
        .wrapping_add(1_442_695_040_888_963_407)
}

// Which of so many things a state draws.
#[tactic(auto, unfolding(crate::specs::Drawing::drawn_number))]
fn drawn_number(state: u64, count: usize) -> usize
    requires { 0 < count }
    ensures number { result ≡ drawn_number state count }
    ensures within { result < count }
{
    ((state >> 32) % count as u64) as usize
}

/// Draws one of so many things, and gives its number, counted from 0; of none nothing is drawn.
pub(crate) fn draw(state: &mut u64, count: usize) -> Option<usize>
    ensures draws { Draws count state.old result state.new }
    ensures within { IfSome result (λ number. number < count) }
{
    if count == 0 {
        return None;
    }
    *state = next_state(*state);
    Some(drawn_number(*state, count))
}
