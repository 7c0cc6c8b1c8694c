//! What commands give.
use tcl_text::text::Text;

/// What a command gives.
#[derive(Debug, Drop)]
pub enum Answer {
    /// A text.
    Text(Text),
    /// A number, whose text is written when it is asked for.
    Number(i64),
}
