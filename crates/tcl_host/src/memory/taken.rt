//! What one read takes of the bytes that are left.
ghost use Rattle.std.specs.Prelude.{◌≡◌, ◌≤◌, length, IfOk};
ghost use Rattle.tcl_host.specs.Stores.{take_line, take_all};

use crate::bytes::Bytes;
use memchr::memchr;
use std::alloc::{AllocError, Global};

/// What one read takes.
#[derive(Drop)]
pub struct Taken<T> {
    /// What it answers.
    pub answer: T,
    /// How many bytes it takes.
    pub count: usize,
    /// Whether it met the end.
    pub ended: bool,
}

/// Takes a line with its newline, which the answer leaves out, or all where there is no newline; no
/// line where nothing is left.
///
/// # Errors
/// Want of memory.
pub fn take_line(alloc: Global, rest: &[u8]) -> Result<Taken<Option<Bytes>>, AllocError>
    ensures taken { IfOk result (λ taken. taken ≡ take_line rest.now) }
    ensures within { IfOk result (λ taken. taken.count ≤ length rest.now) }
{
    if rest.is_empty() {
        return Ok(Taken {
            answer: None,
            count: 0,
            ended: true,
        });
    }
    match memchr(b'\n', rest) {
        Some(end) => Ok(Taken {
            answer: Some(Bytes::copy_of(alloc, &rest[..end])?),
            count: end + 1,
            ended: false,
        }),
        None => Ok(Taken {
            answer: Some(Bytes::copy_of(alloc, rest)?),
            count: rest.len(),
            ended: true,
        }),
    }
}

/// Takes all.
///
/// # Errors
/// Want of memory.
pub fn take_all(alloc: Global, rest: &[u8]) -> Result<Taken<Bytes>, AllocError>
    ensures taken { IfOk result (λ taken. taken ≡ take_all rest.now) }
    ensures within { IfOk result (λ taken. taken.count ≤ length rest.now) }
{
    Ok(Taken {
        answer: Bytes::copy_of(alloc, rest)?,
        count: rest.len(),
        ended: true,
    })
}
