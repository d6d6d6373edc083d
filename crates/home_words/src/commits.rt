// A move of the home made on the words of a bench with all that it sends, or refused with every word as it was.
ghost use Rattle.std.specs.Prelude.{◌≡◌, Ok};
ghost use Rattle.layout.specs.Blocks.{home_block_at};
ghost use Rattle.calls.specs.Answers.{told};
ghost use Rattle.home_rules.specs.Steps.{move_applied};
ghost use Rattle.home_words.specs.Commits.{popped, front_words, answering, Finishes, Committed, HaveQueue};
ghost use Rattle.home_words.specs.Forwards.{HoldTiles};

use crate::{forwards, moves};
use calls::{Accepted, Answer};
use home_rules::{HomeMove, Sending};
use layout::places::ROW_DATA;
use numbers::limits::LINE_LENGTH;
use numbers::refusals::Refusal;

// What the home does at a call: the value answered, the place of the queue whose front message is answered (none: no message is), and the
// move.
#[derive(Clone, Copy)]
pub struct Decision {
    pub value: u64,
    pub place: Option<usize>,
    pub made: HomeMove,
}

// Makes the move, where `carried` are the words of the message that it answers, and sends its messages.
fn commit_move(words: &mut [u64], count: u64, made: HomeMove, carried: [u64; LINE_LENGTH])
    requires { HoldTiles words.old count }
    ensures { Finishes words.old count (move_applied (home_block_at words.old) carried (Ok made)) words.new }
{
    let Some(home) = words.first_chunk_mut() else {
        unreachable!()
    };
    moves::make_move(home, made, carried);
    if let Sending::Tiles {
        to,
        message,
        state,
        miss,
    } = made.sends
    {
        let forward = moves::forward_row(home, message, state, miss);
        forwards::send_all(words, count, to, forward);
    }
}

// Takes the front message off the queue at this place, if the move answers one, and gives its data.
#[tactic(auto, unfolding(crate::specs::Commits::front_words, crate::specs::Commits::popped, layout::specs::Blocks::row_at))]
fn take_front(words: &mut [u64], place: Option<usize>) -> [u64; LINE_LENGTH]
    requires { HaveQueue words.old place }
    ensures carried { result ≡ front_words words.old place }
    ensures after { words.new ≡ popped words.old place }
{
    let Some(at) = place else {
        return [0; LINE_LENGTH];
    };
    let carried = layout::read_eight(words, at + ROW_DATA);
    layout::pop_at(words, at);
    carried
}

// Makes the decision's move, and takes the message that it answers off its queue.
pub fn commit(words: &mut [u64], count: u64, decision: Decision) -> Answer
    requires { HoldTiles words.old count × HaveQueue words.old decision.place }
    ensures { Committed words.old (popped words.old decision.place) count decision.value (answering words.old decision.place (Ok decision.made)) (told result) words.new }
{
    let Decision { value, place, made } = decision;
    let tiles = made.sends.tiles();
    if !forwards::has_rooms(words, count, tiles) {
        return Err(Refusal::QueueFull);
    }
    let carried = take_front(words, place);
    commit_move(words, count, made, carried);
    Ok(Accepted {
        kind: made.sends.kind(),
        value,
        sent: made.sends.queues(),
        tiles,
    })
}
