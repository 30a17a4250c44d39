//! Values that have a layout in a message.
ghost use Rattle.std.specs.Prelude.{◌≡◌, ◌++◌, IfOk, OnOk};
ghost use Rattle.wire_prim.specs.Reading.{Takes};
ghost use Rattle.wire_layout.specs.Layout.{Layout, ReachesOrWants};
ghost use Rattle.wire_layout.specs.Laid.{IsLaid};

use gate_io::Want;
use std::alloc::Global;
use wire_prim::{Cursor, PrimNo};

/// A value that can be written: its layout says which bytes it has.
pub trait Put {
    ghost layout: { Layout Self };

    /// Writes it behind what is written so far. A value that doesn't fit its layout is answered by want.
    fn put(&self, out: &mut Vec<u8>) -> Result<(), Want>
        ensures ok { OnOk result (out.new.items ≡ out.old.items ++ layout.spelling self.now) }
        ensures fits { OnOk result (layout.fits self.now) };
}

/// A value that can be read too, and is told by its bytes: they read as this value, whatever follows them, and as no other.
pub trait Laid: Put {
    /// Reads it where the cursor stands. After a refusal, but for want of memory, the cursor stands at the first byte of the item that doesn't read.
    fn decode(alloc: Global, cursor: &mut Cursor) -> Result<Self, PrimNo>
        ensures value { IfOk result (λ m. Takes (Self.layout.spelling m) cursor.old cursor.new) }
        ensures fits { IfOk result (λ m. Self.layout.fits m) }
        ensures answer { ReachesOrWants result (Self.layout.behind cursor.old.left) cursor.new.left };

    ghost laid: { IsLaid Self.layout };
}

/// A header or a body: what a frame is made of. The rows of messages, and what stands in BYTES behind a version, are none.
pub trait Message: Put {}
