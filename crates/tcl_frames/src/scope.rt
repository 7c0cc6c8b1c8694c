//! Which names are asked for.

/// Which names are asked for.
#[derive(Clone, Copy, Debug, Drop)]
pub enum Scope {
    /// Those of the current level.
    Visible,
    /// Those of level 0.
    Global,
    /// Those of the current level that are no links, of which level 0 has none.
    Local,
}
