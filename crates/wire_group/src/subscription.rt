//! What a member subscribes to.
ghost use Rattle.std.specs.Prelude.{IfErr, IfOk};
ghost use Rattle.wire_layout.specs.Whole.{IsPlaced, cause_alone};
ghost use Rattle.wire_group.specs.Versioned.{IsVersionedRead, IsVersionedWritten, behind_versioned};
ghost use Rattle.wire_group.specs.Subscription.{subscription, subscription_laid};

use crate::versioned::{read_versioned, read_versioned_placed, write_versioned};
use gate_io::{Items, Text, Want};
use std::alloc::Global;
use wire_layout::{Laid, Put, Refusal, WireNo, decode_nullable_piece, put_nullable_piece};
use wire_prim::{Cursor, PrimNo};

/// The topics that a member asks for (`ConsumerProtocolSubscription`). Its version is 0. `topic` is `topics`, `user` is
/// `user_data`.
#[derive(Drop)]
pub struct Subscription {
    pub version: i16,
    pub topic: Items<Text>,
    pub user: Option<Items<u8>>,
}

impl Subscription {
    /// Reads it as `read` does. A refusal has its place, which counts from the version.
    pub fn read_placed(alloc: Global, bytes: &[u8]) -> Result<Subscription, Refusal>
        ensures read { IsVersionedRead subscription bytes.now (cause_alone result) }
        ensures place { IfErr result (λ refusal. IsPlaced refusal (behind_versioned subscription.behind bytes.now) bytes.now) }
    {
        read_versioned_placed(alloc, bytes)
    }

    /// Reads it in any version from 0 on. The further bytes of a higher one are left aside, and the version given is 0.
    pub fn read(alloc: Global, bytes: &[u8]) -> Result<Subscription, WireNo>
        ensures { IsVersionedRead subscription bytes.now result }
    {
        read_versioned(alloc, bytes)
    }

    /// Another version than 0 is answered by want.
    pub fn write(&self, alloc: Global) -> Result<Vec<u8>, Want>
        ensures { IfOk result (λ out. IsVersionedWritten subscription self.now out.items) }
    {
        write_versioned(alloc, self)
    }
}

/// Of what stands behind the version.
impl Put for Subscription {
    ghost layout = { subscription };

    fn put(&self, out: &mut Vec<u8>) -> Result<(), Want> {
        if self.version != 0 {
            return Err(Want);
        }
        self.topic.put(out)?;
        put_nullable_piece(out, &self.user)?;
        Ok(())
    }
}

/// Of what stands behind the version.
impl Laid for Subscription {
    fn decode(alloc: Global, cursor: &mut Cursor) -> Result<Subscription, PrimNo> {
        let topic = Items::decode(alloc, cursor)?;
        let user = decode_nullable_piece(alloc, cursor)?;
        Ok(Subscription {
            version: 0,
            topic,
            user,
        })
    }

    ghost laid = { subscription_laid };
}
