//! Pages of the accounting log: runs of `gacct` over areas and a log in memory, and what stops leave of a log.
//!
//! [`told`] tells a page `accounts`. The pages stand in the stored run of ge_trials_pages.
#![tactic(auto)]

mod accounts;
mod disks;

use ge_pieces::is_word;
use ge_trials_rows::tell_rows;
use std::alloc::{AllocError, Global};

/// What is told of a page behind its name; nothing where its kind is none of these.
pub fn told(alloc: Global, kind: &[u8], body: &[u8]) -> Option<Result<Vec<u8>, AllocError>> {
    if is_word(kind, b"accounts") {
        Some(tell_rows(alloc, &accounts::Accounts, body))
    } else {
        None
    }
}
