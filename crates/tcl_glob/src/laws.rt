//! What the matching of patterns comes to, as laws of its definition.
ghost use Rattle.tcl_glob.specs.Laws.{RunTakesFront, PlainMatchesItself, StarMatchesAll};
ghost use Rattle.tcl_glob.specs.Laws.{StarsFindPlain};

/// A run of any characters takes some front of a text, and what follows it matches the rest.
pub fn run_takes_front()
    ensures { RunTakesFront }
{}

/// A pattern without special characters matches itself alone.
pub fn plain_matches_itself()
    ensures { PlainMatchesItself }
{}

/// `*` matches each text.
pub fn star_matches_all()
    ensures { StarMatchesAll }
{}

/// Between two stars a pattern without special characters matches the texts that have it within.
pub fn stars_find_plain()
    ensures { StarsFindPlain }
{}
