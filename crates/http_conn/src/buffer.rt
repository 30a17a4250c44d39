ghost use Rattle.std.specs.Prelude.{◌≡◌, ◌≢◌, ◌⊎◌, ◌<◌, ◌≤◌, ◌-◌, ◌++◌, ℕ, List, Ok, Err, Option, true, false, length, take, drop, IfOk, OnOk, OnErr};
ghost use Rattle.std.specs.Io.KnownBytes.{IsAtEnd, Consumes, Keeps, ReadConsumes};
ghost use Rattle.gate_io.specs.Counts.{Rose, HasCause};
ghost use Rattle.http_conn.specs.Told.{StillComes, LastRead};

use crate::ConnNo;
use gate_io::{Failed, Source};
use std::alloc::{AllocError, Global};
use std::marker::Model;

/// How many bytes a read asks for.
const PIECE: usize = 16_384;

/// Bytes that were read and aren't taken yet, behind those that were. Contracts see the first alone.
#[derive(Drop)]
pub(crate) struct Buffer {
    bytes: Vec<u8>,
    start: usize,
    ghost in_range: { start ≤ length bytes.items },
}

impl Model for Buffer {
    ghost use Rattle.std.specs.Prelude.{List, ℕ, drop};

    ghost Value = { List ℕ };

    ghost view = { λ b. drop b.start b.bytes.items };
}

/// Reads into the buffer from a place on.
fn read_from<S: Source>(bytes: &mut [u8], place: usize, source: &mut S) -> Result<usize, Failed>
    requires { place < length bytes.old }
    ensures front { take place bytes.new ≡ take place bytes.old }
    ensures bound { IfOk result (λ count. count ≤ length bytes.new - place) }
    ensures bytes { ReadConsumes (S.left source.old) (S.left source.new) result (drop place bytes.new) }
    ensures asked { S.asked source.new ≡ S.left source.old }
    ensures cause { HasCause (S.faults source.old) (S.faults source.new) result }
    ensures beside { S.beside source.old source.new }
{
    source.read(&mut bytes[place..])
}

/// Reads a piece behind the bytes. False at the end of the input.
fn read_behind<S: Source>(bytes: &mut Vec<u8>, source: &mut S) -> Result<bool, ConnNo>
    ensures behind { OnOk result ((more : List ℕ) × (bytes.new.items ≡ bytes.old.items ++ more)
        × Consumes (S.left source.old) (S.left source.new) more) }
    ensures grew { result ≡ Ok true → length bytes.old.items < length bytes.new.items }
    ensures end { result ≡ Ok false → (bytes.new.items ≡ bytes.old.items)
        × IsAtEnd (S.left source.new) }
    ensures lost { result ≡ Err ConnNo.ReadFault → (bytes.new.items ≡ bytes.old.items)
        × Keeps (S.left source.old) (S.left source.new) }
    ensures kept { length bytes.old.items ≤ length bytes.new.items }
    ensures asked { (source.new ≡ source.old) ⊎ (S.asked source.new ≡ S.left source.old) }
    ensures cause { result ≡ Err ConnNo.ReadFault
        → Rose (S.faults source.old) (S.faults source.new) }
    ensures no_write { (n : ℕ) → result ≢ Err (ConnNo.WriteFault n) }
    ensures counts { S.faults source.old ≤ S.faults source.new }
    ensures beside { S.beside source.old source.new }
{
    let len = bytes.len();
    bytes.resize(len + PIECE, 0)?;
    match read_from(bytes.as_mut_slice(), len, source) {
        Ok(count) => {
            bytes.truncate(len + count);
            Ok(count != 0)
        }
        Err(Failed) => {
            bytes.truncate(len);
            Err(ConnNo::ReadFault)
        }
    }
}

/// Moves the bytes from a place on to the front.
fn shift(bytes: &mut Vec<u8>, place: usize)
    requires { place ≤ length bytes.old.items }
    ensures { bytes.new.items ≡ drop place bytes.old.items }
{
    let len = bytes.len();
    bytes.copy_within(place..len, 0);
    bytes.truncate(len - place);
}

impl Buffer {
    pub(crate) fn new(alloc: Global) -> Buffer
        ensures { length result ≡ 0 }
    {
        Buffer {
            bytes: Vec::new(alloc),
            start: 0,
        }
    }

    /// The bytes that aren't taken.
    pub(crate) fn front(&self) -> &[u8]
        ensures { result.now ≡ self.now }
    {
        &self.bytes.as_slice()[self.start..]
    }

    pub(crate) fn len(&self) -> usize
        ensures { result ≡ length self.now }
    {
        self.bytes.len() - self.start
    }

    /// Takes so many bytes from the front.
    pub(crate) fn take(&mut self, count: usize)
        requires { count ≤ length self.old }
        ensures { self.new ≡ drop count self.old }
    {
        self.start += count;
    }

    /// Makes room for so many bytes in all, where they aren't held yet.
    pub(crate) fn make_room(&mut self, total: usize) -> Result<(), AllocError>
        ensures { self.new ≡ self.old }
    {
        if total <= self.len() {
            return Ok(());
        }
        self.compact();
        let missing = total.saturating_sub(self.bytes.len());
        self.bytes.reserve(missing.saturating_add(PIECE))
    }

    /// Gives up the room of the bytes that were taken.
    fn compact(&mut self)
        ensures { self.new ≡ self.old }
    {
        if self.start > 0 {
            let start = self.start;
            self.start = 0;
            shift(&mut self.bytes, start);
        }
    }

    /// Reads a piece behind the bytes. False at the end of the input.
    pub(crate) fn fill<S: Source>(&mut self, source: &mut S) -> Result<bool, ConnNo>
        ensures same { OnOk result (StillComes self.old (S.left source.old) self.new (S.left source.new)) }
        ensures behind { OnOk result ((more : List ℕ) × (self.new ≡ self.old ++ more)) }
        ensures grew { result ≡ Ok true → length self.old < length self.new }
        ensures end { result ≡ Ok false → (self.new ≡ self.old) × IsAtEnd (S.left source.new) }
        ensures lost { result ≡ Err ConnNo.ReadFault → (self.new ≡ self.old)
            × (StillComes self.old (S.left source.old) self.new (S.left source.new)) }
        ensures patient { LastRead S.left S.asked self.old source.old source.new (λ held. held ≡ self.old) }
        ensures cause { result ≡ Err ConnNo.ReadFault
            → Rose (S.faults source.old) (S.faults source.new) }
        ensures no_write { (n : ℕ) → result ≢ Err (ConnNo.WriteFault n) }
        ensures counts { S.faults source.old ≤ S.faults source.new }
        ensures beside { S.beside source.old source.new }
    {
        self.compact();
        read_behind(&mut self.bytes, source)
    }
}
