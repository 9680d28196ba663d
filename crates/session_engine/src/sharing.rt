//! Threads share versions, and hand them to one another.

use crate::snapshots::Snapshot;
use crate::versions::Version;
use std::sync::Arc;

fn is_shared<X: Sync>(_value: &X) {}

fn is_sent<X: Send>(value: X) -> X {
    value
}

/// A version is `Sync` and `Send`, and so is an owner of one.
fn share_version(version: Version, owner: Arc<Version>) -> (Version, Arc<Version>) {
    is_shared(&version);
    is_shared(&owner);
    (is_sent(version), is_sent(owner))
}

/// A snapshot is `Sync` and `Send`.
fn share_snapshot(snapshot: Snapshot) -> Snapshot {
    is_shared(&snapshot);
    is_sent(snapshot)
}
