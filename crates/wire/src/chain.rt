// SPDX-License-Identifier: MPL-2.0
// The chain of additional headers. An entry is a type of 1 to 3, a size, and that many bytes; the chain ends at type 0, size 0.
//
//     | type | size | size bytes | type | size | size bytes | … | 0 | 0 | payload
//
// The chain is read entry by entry: what stands after an entry is again a chain, and shorter.
ghost use Rattle.std.specs.Prelude.{◌≡◌};
ghost use Rattle.wire.specs.Chain.{entry_of, chain, read_chain, leaves, bad_chain};

// The most entries that may stand before the end.
pub const MOST_ENTRIES: u8 = 8;

// What is found of a chain: how many bytes it leaves after it.
#[derive(Clone, Copy)]
pub struct FoundChain {
    pub leaves: usize,
}

// What stands at the start of a chain: its end, an entry of n bytes in all, or neither: three cases, which no Option or Result has.
#[derive(Clone, Copy)]
pub enum Entry {
    End,
    Spans(usize),
    Wrong,
}

#[tactic(auto, unfolding(crate::specs::Chain::entry_of))]
fn read_entry(room: &[u8]) -> Entry
    ensures { result ≡ entry_of room.now }
{
    if room.len() < 2 {
        return Entry::Wrong;
    }
    let entry_type = room[0];
    let size = room[1] as usize;
    if entry_type == 0 {
        if size == 0 {
            return Entry::End;
        }
        return Entry::Wrong;
    }
    if 3 < entry_type {
        return Entry::Wrong;
    }
    if room.len() < 2 + size {
        return Entry::Wrong;
    }
    Entry::Spans(2 + size)
}

// Walks a chain that has at most `left` entries before its end.
fn walk(room: &[u8], left: u8) -> Option<FoundChain>
    ensures { result ≡ chain left room.now }
{
    match read_entry(room) {
        Entry::Wrong => None,
        Entry::End => Some(FoundChain {
            leaves: room.len() - 2,
        }),
        Entry::Spans(n) => {
            if left == 0 {
                return None;
            }
            walk(&room[n..], left - 1)
        }
    }
}

// The chain at the start of its room.
#[tactic(auto, unfolding(crate::specs::Chain::read_chain, crate::specs::Chain::most_entries))]
pub fn read_chain(room: &[u8]) -> Option<FoundChain>
    ensures { result ≡ read_chain room.now }
{
    walk(room, MOST_ENTRIES)
}

// How many bytes stand after the chain; 0 where there is none.
pub fn leaves(chain: Option<FoundChain>) -> usize
    ensures { result ≡ leaves chain }
{
    chain.map_or(0, |found| found.leaves)
}

// Refusal 8 in the writer, which is given the chain with its end: no chain, or bytes after its end.
#[tactic(auto, unfolding(crate::specs::Chain::bad_chain))]
pub fn bad_chain(given: &[u8]) -> bool
    ensures { result ≡ bad_chain given.now }
{
    let chain = read_chain(given);
    chain.is_none() | (leaves(chain) != 0)
}
