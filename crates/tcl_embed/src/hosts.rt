//! Hosts: the files and channels that scripts reach.

/// What an embedder implements for files and channels of its own: open, read, write and close. A
/// host can be lent: `&mut H` is one where `H` is.
pub use tcl_host::host::Host;
/// Makes one request of a host, and gives its reply.
pub use tcl_host::host::ask;
/// A host in memory. Who made it puts files and input in (`put_file`, `put_input`), reads what was
/// written (`output`, `errors`, `file`), and can plan a fault (`fail_at`).
pub use tcl_host::memory::MemoryHost;
/// What is asked of a host.
pub use tcl_host::request::Request;
/// What it replies.
pub use tcl_host::reply::HostReply;
/// Why it refuses: 261 no such channel, 262 a device fault, 267 a file that wasn't opened.
pub use tcl_host::reply::HostRefusal;
/// Why a call to a host gave nothing: memory is wanted, or it refuses.
pub use tcl_host::reply::HostError;
/// How a file is opened: to be read, written or appended to.
pub use tcl_host::open_mode::OpenMode;
/// The bytes that a read gives.
pub use tcl_host::bytes::Bytes;
