//! Where the entries of a certificate begin and end, and which items they are, found without reading them.

use lc_base::{DEPTH_LIMIT, OutOfMemory};
use std::alloc::Global;
use std::simd::prelude::*;
use std::thread;
use std::thread::Threads;

/// Where a file is cut: before the first list that is in its first one, and after each of those; and the number of the item
/// after each cut. Nothing is promised about either: whoever uses one tests it.
#[derive(Drop)]
pub(crate) struct Cuts {
    pub places: Vec<usize>,
    pub items: Vec<u64>,
}

impl Cuts {
    /// Cuts the file at this place, where `item` items have begun.
    fn push(&mut self, place: usize, item: u64) -> Result<(), OutOfMemory> {
        self.places.push(place)?;
        self.items.push(item)?;
        Ok(())
    }
}

/// How many bytes are looked at side by side: one for each bit of a number.
const WIDTH: usize = 64;

/// What the bytes of a block are: a bit of each number for each byte, the lowest one for the first. What is none of these may be in
/// a word, or nowhere.
#[derive(Clone, Copy)]
struct Block {
    opens: u64,
    closes: u64,
    white: u64,
}

/// Which bytes of a block a comment has, its line feeds left out. It is given whether a comment goes on at the block, and sets
/// whether one goes on after it.
fn commented(bytes: &[u8; WIDTH], in_comment: &mut bool) -> u64 {
    let mut found = 0;
    for byte in bytes {
        match *byte {
            b';' => *in_comment = true,
            b'\n' => *in_comment = false,
            _ => {}
        }
        found = found >> 1 | if *in_comment { 1 << 63 } else { 0 };
    }
    found
}

/// What the bytes of a block are. Those of comments are white.
fn block_of(bytes: &[u8; WIDTH], in_comment: &mut bool) -> Block {
    let lanes = u8x64::from_array(*bytes);
    let opens = lanes.simd_eq(u8x64::splat(b'(')).to_bitmask();
    let closes = lanes.simd_eq(u8x64::splat(b')')).to_bitmask();
    let white = lanes.simd_le(u8x64::splat(b' ')).to_bitmask();
    let semicolons = lanes.simd_eq(u8x64::splat(b';')).to_bitmask();
    if semicolons == 0 && !*in_comment {
        return Block {
            opens,
            closes,
            white,
        };
    }
    let comment = commented(bytes, in_comment);
    Block {
        opens: opens & !comment,
        closes: closes & !comment,
        white: white | comment,
    }
}

/// Which brackets of a block are the next ones after one that opens: from there a carry runs over what is no bracket.
fn behind_opens(block: Block) -> u64 {
    let brackets = block.opens | block.closes;
    u64::wrapping_add(block.opens << 1, !brackets) & brackets
}

/// How a file is cut as far as it was looked at: how many lists are open, how many items have begun, and whether the last byte
/// is in a word, which is 1, or in a comment.
#[derive(Drop)]
struct Cutter {
    cuts: Cuts,
    depth: usize,
    items: u64,
    in_word: u64,
    in_comment: bool,
}

impl Cutter {
    /// Nothing was looked at; `depth` lists are open.
    fn new(alloc: Global, depth: usize) -> Cutter {
        Cutter {
            cuts: Cuts {
                places: Vec::new(alloc),
                items: Vec::new(alloc),
            },
            depth,
            items: 0,
            in_word: 0,
            in_comment: false,
        }
    }

    /// Takes a bracket that opens at this place, where `items` items have begun; whether no more lists are open than may be.
    fn open(&mut self, place: usize, items: u64) -> Result<bool, OutOfMemory> {
        if self.depth >= DEPTH_LIMIT {
            return Ok(false);
        }
        if self.depth == 1 && self.cuts.places.is_empty() {
            self.cuts.push(place, items)?;
        }
        self.depth += 1;
        Ok(true)
    }

    /// Takes a bracket that closes before this place, where `items` items have begun; whether a list was open.
    fn close(&mut self, place: usize, items: u64) -> Result<bool, OutOfMemory> {
        if self.depth == 0 {
            return Ok(false);
        }
        self.depth -= 1;
        if self.depth == 1 {
            self.cuts.push(place, items)?;
        }
        Ok(true)
    }

    /// Takes the brackets of the block at this place, in which items begin at these bits; whether they are allowed there.
    fn take_brackets(&mut self, block: Block, begun: u64, at: usize) -> Result<bool, OutOfMemory> {
        let mut left = block.opens | block.closes;
        for _ in 0..left.count_ones() {
            let place = usize::wrapping_add(at, left.trailing_zeros() as usize);
            let behind = u64::wrapping_sub(left, 1);
            let before = behind & !left;
            let items = u64::wrapping_add(self.items, (begun & before).count_ones() as u64);
            let may_stand = if block.opens & left & !behind != 0 {
                self.open(place, items)?
            } else {
                self.close(usize::wrapping_add(place, 1), items)?
            };
            if !may_stand {
                return Ok(false);
            }
            left &= behind;
        }
        Ok(true)
    }

    /// Takes the block at this place; whether its brackets are allowed there.
    fn take(&mut self, bytes: &[u8; WIDTH], at: usize) -> Result<bool, OutOfMemory> {
        let block = block_of(bytes, &mut self.in_comment);
        let letters = !(block.opens | block.closes | block.white);
        let begun = block.opens | letters & !(letters << 1 | self.in_word);
        self.in_word = letters >> 63;
        let opened = block.opens.count_ones() as usize;
        let closed = block.closes.count_ones() as usize;
        // Apart from lists without lists in them, this many lists are closed.
        let down = (block.closes & !behind_opens(block)).count_ones() as usize;
        if self.depth > down + 1 && opened <= DEPTH_LIMIT.saturating_sub(self.depth) {
            self.depth = usize::wrapping_sub(usize::wrapping_add(self.depth, opened), closed);
        } else if !self.take_brackets(block, begun, at)? {
            return Ok(false);
        }
        self.items = u64::wrapping_add(self.items, begun.count_ones() as u64);
        Ok(true)
    }

    /// Takes the bytes from this place on; whether their brackets are allowed there.
    fn take_all(&mut self, bytes: &[u8], from: usize) -> Result<bool, OutOfMemory> {
        let (blocks, rest) = bytes.as_chunks::<WIDTH>();
        let mut at = from;
        for block in blocks {
            if !self.take(block, at)? {
                return Ok(false);
            }
            at = usize::wrapping_add(at, WIDTH);
        }
        let mut last = [b' '; WIDTH];
        last[..rest.len()].copy_from_slice(rest);
        self.take(&last, at)
    }

    /// Takes what was found in the bytes that come after, with one list assumed to be open; whether it is.
    fn take_next(&mut self, next: Cutter) -> Result<bool, OutOfMemory> {
        if self.depth != 1 || self.in_comment {
            return Ok(false);
        }
        let Cutter {
            cuts,
            depth,
            items,
            in_word,
            in_comment,
        } = next;
        // Its first cut comes before a list, and there the last one of this is too.
        for (place, item) in cuts.places.iter().zip(&cuts.items).skip(1) {
            self.cuts
                .push(*place, u64::wrapping_add(self.items, *item))?;
        }
        self.depth = depth;
        self.items = u64::wrapping_add(self.items, items);
        self.in_word = in_word;
        self.in_comment = in_comment;
        Ok(true)
    }
}

/// A stretch of a file: from the one place on, and before the other.
#[derive(Clone, Copy)]
struct Stretch {
    from: usize,
    to: usize,
}

/// How entries begin.
const ENTRY: &[u8] = b"(proof";

/// The fewest bytes that are worth a thread.
const LEAST: usize = 131_072;

/// The first place from the one on, and before the other, where an entry seems to begin.
fn entry_between(file: &[u8], from: usize, to: usize) -> Option<usize> {
    for at in from..to.min(file.len()) {
        if file[at..].starts_with(ENTRY) {
            return Some(at);
        }
    }
    None
}

/// The stretches of a file, at most `most`. Where each but the first begins, an entry seems to begin.
fn stretches_of(alloc: Global, file: &[u8], most: u64) -> Result<Vec<Stretch>, OutOfMemory> {
    let count = (file.len() / LEAST).min(most as usize).max(1);
    let each = file.len() / count;
    let mut stretches = Vec::new(alloc);
    let mut from = 0;
    for before in 1..count {
        let near = usize::saturating_mul(each, before);
        if let Some(to) = entry_between(file, near, usize::saturating_add(near, each)) {
            stretches.push(Stretch { from, to })?;
            from = to;
        }
    }
    stretches.push(Stretch {
        from,
        to: file.len(),
    })?;
    Ok(stretches)
}

/// What is found of a stretch, if its brackets are allowed there. In the first one no list is open, and in each other one is.
fn cut_stretch(
    alloc: Global,
    file: &[u8],
    stretch: Stretch,
) -> Result<Option<Cutter>, OutOfMemory> {
    let Some(bytes) = file.get(stretch.from..stretch.to) else {
        return Ok(None);
    };
    let mut cutter = Cutter::new(alloc, if stretch.from == 0 { 0 } else { 1 });
    if cutter.take_all(bytes, stretch.from)? {
        return Ok(Some(cutter));
    }
    Ok(None)
}

/// The cuts of a file whose stretches were cut, if those fit.
fn joined(found: Vec<Result<Option<Cutter>, OutOfMemory>>) -> Result<Option<Cuts>, OutOfMemory> {
    let mut found = found.into_iter();
    let Some(first) = found.next() else {
        return Ok(None);
    };
    let Some(mut cutter) = first? else {
        return Ok(None);
    };
    for next in found {
        let Some(next) = next? else {
            return Ok(None);
        };
        if !cutter.take_next(next)? {
            return Ok(None);
        }
    }
    let Cutter { cuts, .. } = cutter;
    Ok(Some(cuts))
}

/// The cuts of a file, whose stretches, at most `most`, are cut side by side; nothing if it is no certificate for a reason that
/// shows here. Where an entry only seemed to begin, the file is cut once more as one stretch.
pub(crate) fn cut<R: Threads + Sync>(
    rt: &R,
    alloc: Global,
    file: &[u8],
    most: u64,
) -> Result<Option<Cuts>, OutOfMemory> {
    let stretches = stretches_of(alloc, file, most)?;
    let found: Vec<Result<Option<Cutter>, OutOfMemory>> = thread::map_vec(
        rt,
        stretches,
        &|stretch| -> Result<Option<Cutter>, OutOfMemory> { cut_stretch(alloc, file, stretch) },
    )?;
    if let Some(cuts) = joined(found)? {
        return Ok(Some(cuts));
    }
    let whole = Stretch {
        from: 0,
        to: file.len(),
    };
    let Some(cutter) = cut_stretch(alloc, file, whole)? else {
        return Ok(None);
    };
    let Cutter { cuts, .. } = cutter;
    Ok(Some(cuts))
}
