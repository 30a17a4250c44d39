//! The messages of a broker about groups, each both ways.
#![tactic(auto)]

mod assignment;
mod find_coordinator;
mod heartbeat;
mod join_group;
mod leave_group;
mod offset_commit;
mod offset_fetch;
mod subscription;
mod sync_group;
mod versioned;

pub use assignment::{Assignment, AssignmentRow};
pub use find_coordinator::{FindCoordinatorRequest, FindCoordinatorResponse};
pub use heartbeat::{HeartbeatRequest, HeartbeatResponse};
pub use join_group::{
    JoinGroupRequest, JoinGroupRequestRow, JoinGroupResponse, JoinGroupResponseRow,
};
pub use leave_group::{LeaveGroupRequest, LeaveGroupResponse};
pub use offset_commit::{
    OffsetCommitRequest, OffsetCommitRequestRow, OffsetCommitRequestRowRow, OffsetCommitResponse,
    OffsetCommitResponseRow, OffsetCommitResponseRowRow,
};
pub use offset_fetch::{
    OffsetFetchRequest, OffsetFetchRequestRow, OffsetFetchResponse, OffsetFetchResponseRow,
    OffsetFetchResponseRowRow,
};
pub use subscription::Subscription;
pub use sync_group::{SyncGroupRequest, SyncGroupRequestRow, SyncGroupResponse};
pub use wire_layout::WireNo;
