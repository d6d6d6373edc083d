// What a move of the home changes in its block, at the front of a bench's words, and the messages that it sends.
ghost use Rattle.std.specs.Prelude.{◌≡◌};
ghost use Rattle.layout.specs.Blocks.{home_block_at};
ghost use Rattle.home_rules.specs.Steps.{with_words, with_outgoing, memory_put, forward_row};
ghost use Rattle.home_words.specs.InPlace.{with_source, move_made};

use crate::Home;
use home_rules::{HomeMove, LineSource, Sending};
use layout::Row;
use layout::places::{HOME_LINE, HOME_TO_MEMORY};
use numbers::limits::LINE_LENGTH;
use numbers::types::{DATA_ACK, STORE_MEM};

fn write_line(home: &mut Home, line: [u64; LINE_LENGTH])
    ensures { home_block_at home.new ≡ with_words line (home_block_at home.old) }
{
    layout::write_eight(home, HOME_LINE, line);
}

// The line's words by where they come from; `carried` are those of the message that is answered.
#[tactic(auto, unfolding(home_rules::specs::Steps::words_from, home_rules::specs::Steps::with_words))]
fn write_source(home: &mut Home, source: LineSource, carried: [u64; LINE_LENGTH])
    ensures { home_block_at home.new ≡ with_source source carried (home_block_at home.old) }
{
    match source {
        LineSource::Stay => {}
        LineSource::Clear => write_line(home, [0; LINE_LENGTH]),
        LineSource::OfMessage => write_line(home, carried),
    }
}

fn put_outgoing(home: &mut Home, message: Row)
    ensures { home_block_at home.new ≡ with_outgoing message (home_block_at home.old) }
{
    layout::push_at(home, HOME_TO_MEMORY, message);
}

// A message of this type to memory; STORE_MEM has the line's words.
#[tactic(auto, unfolding(home_rules::specs::Steps::memory_put, layout::specs::Blocks::home_block_at, layout::specs::Blocks::row_at))]
fn put_to_memory(home: &mut Home, message: u64)
    ensures { home_block_at home.new ≡ memory_put message (home_block_at home.old) }
{
    if message == STORE_MEM {
        let line = layout::read_eight(home, HOME_LINE);
        put_outgoing(home, layout::row_of(message, 0, 0, 0, line));
    } else {
        put_outgoing(home, layout::bare_row(message, 0, 0, 0));
    }
}

// A move, but for its message to tiles.
#[tactic(auto, unfolding(home_rules::specs::Steps::line_after_move, home_rules::specs::Steps::with_numbers, home_rules::specs::Steps::outgoing_put))]
pub fn make_move(home: &mut Home, made: HomeMove, carried: [u64; LINE_LENGTH])
    ensures { home_block_at home.new ≡ move_made carried made (home_block_at home.old) }
{
    crate::fields::write_numbers(home, made.home);
    write_source(home, made.source, carried);
    if let Sending::Memory(message) = made.sends {
        put_to_memory(home, message);
    }
}

// The message of a move to tiles, once it is made; DATA_ACK has the line's words.
#[tactic(auto, unfolding(home_rules::specs::Steps::forward_row, layout::specs::Blocks::home_block_at, layout::specs::Blocks::row_at))]
pub fn forward_row(home: &Home, message: u64, state: u64, miss: u64) -> Row
    ensures { result ≡ forward_row message state miss (home_block_at home.now) }
{
    if message == DATA_ACK {
        let line = layout::read_eight(home, HOME_LINE);
        layout::row_of(message, 0, state, miss, line)
    } else {
        layout::bare_row(message, 0, state, miss)
    }
}
