//! Feeding the splitter, and the line that it holds.
ghost use Rattle.std.specs.Prelude.{◌≡◌, ℕ, ◌+◌, ◌-◌, ◌^◌, ◌≤◌, min, Bool, true, false, List, [], ◌∷◌, ◌++◌, length, take, if◌then◌else◌, MatchBool};
ghost use Rattle.sheets.specs.Splitting.{feed_at, held, current, last, Parting, Took, After};

use crate::splitter::Splitter;
use arrayvec::ArrayVec;

const LINE_FEED: u8 = b'\n';

impl Splitter {
    /// Before the first line.
    pub fn new() -> Self
        ensures after { After [] result }
    {
        Splitter {
            bytes: ArrayVec::new(),
            number: 1,
            complete: false,
        }
    }

    /// Takes the bytes of the chunk up to the next line feed, that one too, and says how many it took.
    /// After a complete line it begins the next one.
    pub fn take(&mut self, chunk: &[u8]) -> usize
        ensures answer { Took self.old chunk.now result self.new }
        ensures after { (past : List ℕ) → After past self.old → After (past ++ take result chunk.now) self.new }
        ensures law { Parting }
    {
        self.advance(chunk)
    }

    /// Whether the line that it holds is at its end.
    pub fn is_complete(&self) -> bool
        ensures answer { result ≡ self.now.complete }
    {
        let complete = self.complete;
        complete
    }

    /// Whether bytes have come behind the last line feed: a last line, if no more are to come.
    pub fn has_rest(&self) -> bool
        ensures answer { MatchBool result (last (current self.now) ≡ held self.now ∷ []) (last (current self.now) ≡ []) }
    {
        !self.complete && self.has_bytes()
    }

    /// The number of the line that it holds, from 1.
    pub fn number(&self) -> u64
        ensures answer { result ≡ self.now.number }
    {
        let number = self.number;
        number
    }

    /// The line that it holds, or its first 40 bytes.
    pub fn line(&self) -> &[u8]
        ensures bytes { result.now ≡ held self.now }
        ensures limits { length result.now ≤ 40 }
    {
        self.bytes.as_slice()
    }

    /// Whether the line that it holds has bytes.
    fn has_bytes(&self) -> bool
        ensures answer { MatchBool result (last (held self.now) ≡ held self.now ∷ []) (last (held self.now) ≡ []) }
    {
        !self.bytes.is_empty()
    }

    /// Begins the next line after a complete one, and goes on to the next line feed.
    fn advance(&mut self, chunk: &[u8]) -> usize
        ensures answer { Took self.old chunk.now result self.new }
        ensures after { (past : List ℕ) → After past self.old → After (past ++ take result chunk.now) self.new }
        ensures law { Parting }
    {
        self.begin();
        let at = line_feed_at(chunk);
        self.keep(&chunk[0..at]);
        if at < chunk.len() {
            self.complete = true;
            return at + 1;
        }
        at
    }

    /// Leaves a complete line for the next one.
    fn begin(&mut self)
        ensures bytes { held self.new ≡ current self.old }
        ensures count { self.new.number ≡ (if self.old.complete then min (self.old.number + 1) (2 ^ 64 - 1) else self.old.number) }
        ensures after { self.new.complete ≡ false }
    {
        if self.complete {
            // not clear(), which goes over the line byte by byte
            self.bytes = ArrayVec::new();
            self.number = self.number.saturating_add(1);
            self.complete = false;
        }
    }

    /// Puts bytes behind the line, as far as there is room.
    fn keep(&mut self, more: &[u8])
        ensures bytes { held self.new ≡ take 40 (held self.old ++ more.now) }
        ensures limits { length (held self.old) ≤ 40 }
        ensures unchanged { (self.new.number ≡ self.old.number) × (self.new.complete ≡ self.old.complete) }
    {
        let n = more.len().min(self.bytes.remaining_capacity());
        let _ = self.bytes.try_extend_from_slice(&more[0..n]);
    }
}

/// Where the first line feed stands, or the length.
fn line_feed_at(chunk: &[u8]) -> usize
    ensures answer { result ≡ feed_at chunk.now }
{
    chunk
        .iter()
        .position(|byte| *byte == LINE_FEED)
        .unwrap_or(chunk.len())
}
