// What the home does at each of its calls but the memory step.
ghost use Rattle.std.specs.Prelude.{◌≡◌, ◌+◌, ◌≤◌, ◌<◌, length, get_or, IfOk};
ghost use Rattle.numbers.specs.Limits.{most_tiles};
ghost use Rattle.layout.specs.Places.{row_size, home_last_taken_place, home_size};
ghost use Rattle.arbiter.specs.Decisions.{reply_move, from_tile_decision, memory_ack_decision, eviction_decision, decision_of};
ghost use Rattle.home_words.specs.Commits.{HaveQueue};
ghost use Rattle.home_words.specs.Forwards.{HoldTiles};

use home_rules::HomeMove;
use home_words::Decision;
use layout::places::{self, HOME_FROM_MEMORY, MESSAGE_FLAG, MESSAGE_STATE, TILE_NOC3};
use numbers::refusals::Refusal;
use numbers::tags::{TAG_FROM_TILE, TAG_MEMORY_ACK, TAG_TAKING};

// By the message at this place, from the tile.
#[tactic(auto, unfolding(crate::specs::Decisions::reply_move))]
fn reply_move(words: &[u64], tile: u64, place: usize) -> Result<HomeMove, Refusal>
    requires { (home_size ≤ length words.now) × (place + row_size ≤ length words.now) }
    ensures { result ≡ reply_move words.now tile place }
{
    let home = home_words::read_numbers(words);
    let state = words[place + MESSAGE_STATE];
    home_rules::accept_reply(home, tile, words[place], state, words[place + MESSAGE_FLAG])
}

#[tactic(auto, unfolding(crate::specs::Decisions::from_tile_decision))]
fn from_tile_decision(words: &[u64], count: u64, tile: u64) -> Result<Decision, Refusal>
    requires { HoldTiles words.now count }
    ensures turn { result ≡ from_tile_decision words.now count tile }
    ensures inside { IfOk result (λ d. HaveQueue words.now d.place) }
{
    if tile >= count {
        return Err(Refusal::NoTile);
    }
    let place = places::tile_at(tile) + TILE_NOC3;
    let made = reply_move(words, tile, place)?;
    Ok(Decision {
        value: 0,
        place: Some(place),
        made,
    })
}

#[tactic(auto, unfolding(crate::specs::Decisions::memory_ack_decision))]
fn memory_ack_decision(words: &[u64]) -> Result<Decision, Refusal>
    requires { home_size ≤ length words.now }
    ensures turn { result ≡ memory_ack_decision words.now }
    ensures inside { IfOk result (λ d. HaveQueue words.now d.place) }
{
    let home = home_words::read_numbers(words);
    let made = home_rules::memory_ack(home, words[HOME_FROM_MEMORY])?;
    Ok(Decision {
        value: 0,
        place: Some(HOME_FROM_MEMORY),
        made,
    })
}

#[tactic(auto, unfolding(crate::specs::Decisions::eviction_decision))]
fn eviction_decision(words: &[u64]) -> Result<Decision, Refusal>
    requires { home_size ≤ length words.now }
    ensures turn { result ≡ eviction_decision words.now }
    ensures inside { IfOk result (λ d. HaveQueue words.now d.place) }
{
    let made = home_rules::evict_line(home_words::read_numbers(words))?;
    Ok(Decision {
        value: 0,
        place: None,
        made,
    })
}

// By the call's tag, a number, as `bench::at_home` takes any and has an answer for each: taking, delivery from the tile, memory ack, else
// home eviction.
#[tactic(auto, unfolding(crate::specs::Decisions::decision_of))]
pub fn decision_of(words: &[u64], count: u64, tag: u64, tile: u64) -> Result<Decision, Refusal>
    requires { HoldTiles words.now count × (get_or words.now home_last_taken_place 0 < most_tiles) }
    ensures turn { result ≡ decision_of words.now count tag tile }
    ensures inside { IfOk result (λ d. HaveQueue words.now d.place) }
{
    match tag {
        TAG_TAKING => crate::takings::taking_decision(words, count),
        TAG_FROM_TILE => from_tile_decision(words, count, tile),
        TAG_MEMORY_ACK => memory_ack_decision(words),
        _ => eviction_decision(words),
    }
}
