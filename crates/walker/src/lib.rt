// The walker: it stands on a packet and hands out one block after another, with its part of the caller's bytes.
#![tactic(auto)]

ghost use Rattle.std.specs.Prelude.{◌≡◌};
ghost use Rattle.model.specs.Walk.{part_of};

use blocks::step::{Block, block_at, walk_start};
use model::Cursor;
use refusals::Refusal;

#[derive(Clone, Copy)]
pub struct Walker<'a> {
    pub packet: &'a [u8],
    pub cursor: Cursor,
}

// A block, and its bytes.
#[derive(Clone, Copy)]
pub struct Part<'a> {
    pub block: Block,
    pub bytes: &'a [u8],
}

// The part from `start` up to `end` of a slice, or as much of it as there is.
pub fn part_of(s: &[u8], start: usize, end: usize) -> &[u8]
    ensures { result.now ≡ part_of s.now start end }
{
    let end = end.min(s.len());
    if end < start { &[] } else { &s[start..end] }
}

impl<'a> Walker<'a> {
    ghost use Rattle.std.specs.Prelude.{MatchResult};
    ghost use Rattle.refusals.specs.Refusals.{none, number_of};
    ghost use Rattle.model.specs.Answers.{no_cursor};
    ghost use Rattle.model.specs.Walk.{walk_start};

    // A walker at the first block of a packet: refusals 1 to 4, 18 and 19.
    pub fn start(packet: &'a [u8]) -> Result<Self, Refusal>
        ensures { MatchResult result
            (λ w. (w.packet ≡ packet.entry) × (walk_start packet.now ≡ record { cursor = w.cursor; refusal = none }))
            (λ refusal. walk_start packet.now ≡ record { cursor = no_cursor; refusal = number_of refusal }) }
    {
        let cursor = walk_start(packet)?;
        Ok(Walker { packet, cursor })
    }
}

// The next block, if there is one more. Each has its header, and no header stands at or behind the payload's end.
impl<'a> Iterator for Walker<'a> {
    ghost use Rattle.std.specs.Prelude.{◌-◌, true, MatchOption};
    ghost use Rattle.std.specs.Iterator.{at_most};
    ghost use Rattle.model.specs.Walk.{block_step, no_block};

    type Item = Part<'a>;

    ghost next_gives = { λ w part w'.
        MatchOption part
        (no_block w.cursor ≡ block_step w.packet.now w.cursor)
        (λ p. (record {
          after = p.block.after;
          start = p.block.start;
          end = p.block.end;
          offset = p.block.offset;
          payload_type = p.block.payload_type;
          primary = p.block.primary;
          found = true;
        } ≡ block_step w.packet.now w.cursor)
        × (p.bytes.now ≡ part_of w.packet.now p.block.start p.block.end))
        × (w'.packet ≡ w.packet)
        × (w'.cursor ≡ (block_step w.packet.now w.cursor).after) };

    ghost remaining = { λ w. at_most (w.cursor.end - w.cursor.header) };

    fn next(&mut self) -> Option<Part<'a>> {
        let block = block_at(self.packet, self.cursor)?;
        self.cursor = block.after;
        Some(Part {
            block,
            bytes: part_of(self.packet, block.start, block.end),
        })
    }
}
