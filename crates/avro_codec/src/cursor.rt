//! A place in the bytes of a datum.
ghost use Rattle.std.specs.Prelude.{◌≡◌, ◌==◌, ◌<◌, ◌≤◌, length, FitsSigned, IfOk, OnOk};
ghost use Rattle.std.specs.Int.{w64};
ghost use Rattle.avro_codec.specs.Reading.{Reads, entered, flag_at, head_at, int_at, long_at, run_at, sized_at, text_at};
ghost use Rattle.avro_codec.specs.Reading as reading;

use avro_value::AvroNo;
use avro_value::limits::MAX_NODES;
use std::marker::Model;
use wire_prim::PrimNo;

/// How a block begins: how many items it has, and the size that it says.
#[derive(Clone, Copy, Debug)]
pub(crate) struct Head {
    pub(crate) count: u64,
    pub(crate) size: Option<i64>,
}

/// The number of the node that comes next, and the bytes that are left.
#[derive(Drop)]
pub(crate) struct Cursor<'a> {
    pub(crate) next: u32,
    pub(crate) rest: &'a [u8],
}

impl<'a> Model for Cursor<'a> {
    ghost use Rattle.avro_codec.specs.Reading.{Place};

    ghost Value = { Place };

    ghost view = { λ c. record { next = c.next; left = c.rest.now } };
}

fn stopped(node: u32, cause: PrimNo) -> AvroNo
    ensures { result ≡ reading.stopped node cause }
{
    match cause {
        PrimNo::Short => AvroNo::Short,
        PrimNo::TooLong => AvroNo::Range(node),
        PrimNo::BadUtf8 => AvroNo::BadUtf8,
        PrimNo::Negative => AvroNo::Mismatch(node),
        PrimNo::Want => AvroNo::Want,
    }
}

impl<'a> Cursor<'a> {
    pub(crate) fn new(bytes: &'a [u8]) -> Cursor<'a>
        ensures { result ≡ reading.behind 0 bytes.now }
    {
        Cursor {
            next: 0,
            rest: bytes,
        }
    }

    /// Whether no bytes are left.
    pub(crate) fn is_at_end(&self) -> bool
        ensures { result ≡ (length self.now.left == 0) }
    {
        self.rest.is_empty()
    }

    /// How many bytes are left.
    pub(crate) fn left(&self) -> usize
        ensures { result ≡ length self.now.left }
    {
        self.rest.len()
    }

    /// The number of the node that begins here, unless it is too deep or one too many.
    pub(crate) fn enter(&mut self, is_too_deep: bool) -> Result<u32, AvroNo>
        ensures value { Reads (λ k. k) result (entered is_too_deep self.old) self.new }
        ensures shrinks { length self.new.left ≤ length self.old.left }
    {
        if is_too_deep {
            return Err(AvroNo::TooDeep);
        }
        if self.next >= MAX_NODES {
            return Err(AvroNo::TooMany);
        }
        let node = self.next;
        self.next += 1;
        Ok(node)
    }

    /// An int of a node.
    #[tactic(auto, unfolding(crate::specs::Reading::int_at))]
    pub(crate) fn int(&mut self, node: u32) -> Result<i32, AvroNo>
        ensures value { Reads (λ n. n) result (int_at node self.old) self.new }
        ensures shrinks { length self.new.left ≤ length self.old.left }
    {
        let mut items = wire_prim::Cursor::new(self.rest);
        match items.varint() {
            Ok(value) => {
                self.rest = items.rest();
                Ok(value)
            }
            Err(cause) => Err(stopped(node, cause)),
        }
    }

    /// A long of a node.
    #[tactic(auto, unfolding(crate::specs::Reading::long_at))]
    pub(crate) fn long(&mut self, node: u32) -> Result<i64, AvroNo>
        ensures value { Reads (λ n. n) result (long_at node self.old) self.new }
        ensures fits { IfOk result (λ n. FitsSigned w64 n) }
        ensures shrinks { length self.new.left ≤ length self.old.left }
        ensures takes { OnOk result (length self.new.left < length self.old.left) }
    {
        let mut items = wire_prim::Cursor::new(self.rest);
        match items.varlong() {
            Ok(value) => {
                self.rest = items.rest();
                Ok(value)
            }
            Err(cause) => Err(stopped(node, cause)),
        }
    }

    /// So many bytes.
    pub(crate) fn run(&mut self, count: u64) -> Result<&'a [u8], AvroNo>
        ensures value { Reads (λ run. run.now) result (run_at count self.old) self.new }
        ensures shrinks { length self.new.left ≤ length self.old.left }
    {
        let count = count as usize;
        if self.rest.len() < count {
            return Err(AvroNo::Short);
        }
        let (run, rest) = self.rest.split_at(count);
        self.rest = rest;
        Ok(run)
    }

    /// A length of a node, and so many bytes.
    #[tactic(auto, unfolding(crate::specs::Reading::sized_at))]
    pub(crate) fn sized(&mut self, node: u32) -> Result<&'a [u8], AvroNo>
        ensures value { Reads (λ piece. piece.now) result (sized_at node self.old) self.new }
        ensures shrinks { length self.new.left ≤ length self.old.left }
    {
        match self.long(node) {
            Ok(size) if size < 0 => Err(AvroNo::Mismatch(node)),
            Ok(size) => self.run(size as u64),
            Err(e) => Err(e),
        }
    }

    /// A string of a node.
    #[tactic(auto, unfolding(crate::specs::Reading::text_at))]
    pub(crate) fn text(&mut self, node: u32) -> Result<&'a str, AvroNo>
        ensures value { Reads (λ text. text.now) result (text_at node self.old) self.new }
        ensures shrinks { length self.new.left ≤ length self.old.left }
    {
        let piece = match self.sized(node) {
            Ok(piece) => piece,
            Err(e) => return Err(e),
        };
        match std::str::from_utf8(piece) {
            Ok(text) => Ok(text),
            Err(_) => Err(AvroNo::BadUtf8),
        }
    }

    /// A boolean of a node.
    #[tactic(auto, unfolding(crate::specs::Reading::flag_at))]
    pub(crate) fn flag(&mut self, node: u32) -> Result<bool, AvroNo>
        ensures value { Reads (λ b. b) result (flag_at node self.old) self.new }
        ensures shrinks { length self.new.left ≤ length self.old.left }
    {
        match self.rest {
            [] => Err(AvroNo::Short),
            [0, rest @ ..] => {
                self.rest = rest;
                Ok(false)
            }
            [1, rest @ ..] => {
                self.rest = rest;
                Ok(true)
            }
            [_, ..] => Err(AvroNo::Mismatch(node)),
        }
    }

    /// How a block of a node begins.
    #[tactic(auto, unfolding(crate::specs::Reading::head_at))]
    pub(crate) fn head(&mut self, node: u32) -> Result<Head, AvroNo>
        ensures value { Reads (λ h. h) result (head_at node self.old) self.new }
        ensures takes { OnOk result (length self.new.left < length self.old.left) }
        ensures shrinks { length self.new.left ≤ length self.old.left }
    {
        let count = match self.long(node) {
            Ok(count) => count,
            Err(e) => return Err(e),
        };
        if count >= 0 {
            return Ok(Head {
                count: count as u64,
                size: None,
            });
        }
        let size = self.long(node);
        match size {
            Ok(size) => Ok(Head {
                count: count.unsigned_abs(),
                size: Some(size),
            }),
            Err(e) => Err(e),
        }
    }
}

/// Whether so many bytes are the block's size, if it says one.
pub(crate) fn weighs(size: Option<i64>, bytes: usize) -> bool
    ensures { result ≡ reading.weighs size bytes }
{
    match size {
        None => true,
        Some(size) => match usize::try_from(size) {
            Ok(size) => size == bytes,
            Err(_) => false,
        },
    }
}
