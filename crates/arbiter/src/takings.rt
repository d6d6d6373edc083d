// 01's taking: which tile an idle home takes, and what it does then.
ghost use Rattle.std.specs.Prelude.{◌≡◌, ◌+◌, ◌<◌, get_or, IfOk};
ghost use Rattle.numbers.specs.Limits.{most_tiles};
ghost use Rattle.layout.specs.Places.{home_last_taken_place};
ghost use Rattle.arbiter.specs.Takings.{taking_of, taking_decision};
ghost use Rattle.home_words.specs.Commits.{HaveQueue};
ghost use Rattle.home_words.specs.Forwards.{HoldTiles};

use home_words::Decision;
use layout::codes::PHASE_IDLE;
use layout::places::{self, HOME_LAST_TAKEN, HOME_MARKS, HOME_PHASE, TILE_NOC1};
use numbers::refusals::Refusal;

// The tile chosen is taken; none is chosen where it is not one of the bench's.
fn taking_of(words: &[u64], count: u64, tile: u64) -> Result<Decision, Refusal>
    requires { HoldTiles words.now count }
    ensures turn { result ≡ taking_of words.now count tile }
    ensures inside { IfOk result (λ d. HaveQueue words.now d.place) }
{
    if tile >= count {
        return Err(Refusal::NothingThere);
    }
    let home = home_words::read_numbers(words);
    let place = places::tile_at(tile) + TILE_NOC1;
    let made = home_rules::take_front(home, tile, words[place])?;
    Ok(Decision {
        value: tile,
        place: Some(place),
        made,
    })
}

#[tactic(auto, unfolding(crate::specs::Takings::taking_decision))]
pub fn taking_decision(words: &[u64], count: u64) -> Result<Decision, Refusal>
    requires { HoldTiles words.now count × (get_or words.now home_last_taken_place 0 < most_tiles) }
    ensures turn { result ≡ taking_decision words.now count }
    ensures inside { IfOk result (λ d. HaveQueue words.now d.place) }
{
    if words[HOME_PHASE] != PHASE_IDLE {
        return Err(Refusal::NotIdle);
    }
    let ready = crate::round_robin::ready_tiles(words, count, words[HOME_MARKS]);
    let tile = crate::round_robin::choose(ready, words[HOME_LAST_TAKEN]);
    taking_of(words, count, tile)
}
