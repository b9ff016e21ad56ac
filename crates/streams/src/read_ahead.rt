// A reader whose bytes are read a block at a time and used one by one.
ghost use Rattle.std.specs.Prelude.{◌≤◌};

use crate::read_some;
use std::io;

// The room for bytes that are read ahead.
pub const BLOCK: usize = 4096;

// A reader, and what was read of it ahead of its use: the bytes of the block from one place up to another.
#[derive(Drop)]
pub struct ReadAhead<R> {
    reader: R,
    block: [u8; BLOCK],
    at: usize,
    end: usize,
    ghost ordered: { at ≤ end },
    ghost within: { end ≤ 4096 },
}

// The same taken apart.
#[derive(Drop)]
pub struct Parts<R> {
    pub reader: R,
    pub block: [u8; BLOCK],
    pub at: usize,
    pub end: usize,
}

impl<R: io::Read> ReadAhead<R> {
    ghost use Rattle.std.specs.Prelude.{◌≡◌, ◌<◌, ◌-◌, ◌⊎◌, [], Ok, Some, IsOk, OnOk, None, take, drop, length, slice_range};
    ghost use Rattle.std.specs.Io.KnownBytes.{Keeps, Consumes, IsAtEnd, prepend_known};
    ghost use Rattle.streams.specs.Reading.{GaveByte};
    ghost use Rattle.streams.specs.Ahead.{IsAhead, ahead_of, first_of, block_of, reader_of, left_of};

    // With none ahead.
    pub fn new(reader: R) -> ReadAhead<R>
        ensures { left_of R.remaining result ≡ R.remaining reader }
    {
        ReadAhead {
            reader,
            block: [0u8; BLOCK],
            at: 0,
            end: 0,
        }
    }

    // With the bytes of a block ahead from one place up to another; with none where the second isn't behind the first and within the block.
    pub fn holding(reader: R, block: [u8; BLOCK], at: usize, end: usize) -> ReadAhead<R>
        ensures reader_value { reader_of result ≡ reader }
        ensures block_value { block_of result ≡ block }
        ensures ahead_value { at < end → end ≤ 4096 → ahead_of result ≡ slice_range block at end }
        ensures ahead_value_2 { (end ≤ at) ⊎ (4096 < end) → ahead_of result ≡ [] }
        ensures bytes { at < end → end ≤ 4096 → left_of R.remaining result ≡ prepend_known (slice_range block at end) (R.remaining reader) }
        ensures bytes_2 { (end ≤ at) ⊎ (4096 < end) → left_of R.remaining result ≡ R.remaining reader }
    {
        let (at, end) = if at < end && end <= BLOCK {
            (at, end)
        } else {
            (0, 0)
        };
        ReadAhead {
            reader,
            block,
            at,
            end,
        }
    }

    // The reader, and the block with the two places from and up to which its bytes are ahead: `holding` makes the same of them.
    pub fn into_parts(self) -> Parts<R>
        ensures reader_value { result.reader ≡ reader_of self }
        ensures ahead_value { slice_range result.block result.at result.end ≡ ahead_of self }
        ensures block_value { result.block ≡ block_of self }
        ensures ordered { result.at ≤ result.end }
        ensures within { result.end ≤ 4096 }
    {
        Parts {
            reader: self.reader,
            block: self.block,
            at: self.at,
            end: self.end,
        }
    }

    // The next byte: the first one ahead, and where there is none, of what one read gives. None is the end.
    pub fn next_byte(&mut self) -> io::Result<Option<u8>>
        ensures value { IsAhead self.old → result ≡ Ok (Some (first_of self.old)) }
        ensures ahead_after { IsAhead self.old → ahead_of self.new ≡ drop 1 (ahead_of self.old) }
        ensures block_unchanged { IsAhead self.old → block_of self.new ≡ block_of self.old }
        ensures reader_unchanged { IsAhead self.old → reader_of self.new ≡ reader_of self.old }
        ensures bytes { GaveByte (left_of R.remaining self.old) (left_of R.remaining self.new) result }
    {
        self.read_block()?;
        Ok(self.take_first())
    }

    // Passes over n of the bytes ahead, or as many as there are, and answers how many of the n are still to be passed over.
    pub fn skip(&mut self, n: u64) -> u64
        ensures value { result ≡ n - length (ahead_of self.old) }
        ensures ahead_after { ahead_of self.new ≡ drop n (ahead_of self.old) }
        ensures reader_unchanged { reader_of self.new ≡ reader_of self.old }
        ensures bytes { Consumes (left_of R.remaining self.old) (left_of R.remaining self.new) (take n (ahead_of self.old)) }
    {
        let here = (self.end - self.at) as u64;
        let passed = here.min(n);
        self.at += passed as usize;
        n - passed
    }

    // Reads once where none are ahead.
    fn read_block(&mut self) -> io::Result<()>
        ensures unchanged { IsAhead self.old → self.new ≡ self.old }
        ensures succeeds { IsAhead self.old → IsOk result }
        ensures bytes { Keeps (left_of R.remaining self.old) (left_of R.remaining self.new) }
        ensures end { OnOk result (self.new.end ≤ self.new.at → IsAtEnd (R.remaining self.new.reader)) }
    {
        if self.at < self.end {
            return Ok(());
        }
        let end = read_some(&mut self.reader, &mut self.block)?;
        self.at = 0;
        self.end = end;
        Ok(())
    }

    // The first byte ahead, if there is one.
    fn take_first(&mut self) -> Option<u8>
        ensures some { IsAhead self.old → result ≡ Some (first_of self.old) }
        ensures none { self.old.end ≤ self.old.at → result ≡ None }
        ensures ahead_after { ahead_of self.new ≡ drop 1 (ahead_of self.old) }
        ensures block_unchanged { block_of self.new ≡ block_of self.old }
        ensures reader_unchanged { reader_of self.new ≡ reader_of self.old }
        ensures bytes { (self.old.end ≤ self.old.at → IsAtEnd (R.remaining self.old.reader))
            → GaveByte (left_of R.remaining self.old) (left_of R.remaining self.new) (Ok result) }
    {
        if self.at < self.end {
            let byte = self.block[self.at];
            self.at += 1;
            Some(byte)
        } else {
            None
        }
    }
}
