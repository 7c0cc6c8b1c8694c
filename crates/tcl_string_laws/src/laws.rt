//! The laws.
ghost use Rattle.tcl_string_laws.specs.Places.{FirstPlaces, LastPlaces};
ghost use Rattle.tcl_string_laws.specs.Mapping.{MapsOneWay};
ghost use Rattle.tcl_string_laws.specs.Specifiers.{SpecifiersReadOneWay};

/// The first place is the least at which a needle stands.
pub fn first_places()
    ensures { FirstPlaces }
{}

/// The last place is the greatest at which a needle stands.
pub fn last_places()
    ensures { LastPlaces }
{}

/// At each place what stands for the first key of a mapping that fits there is put, and isn't read
/// again.
pub fn mapped_texts()
    ensures { MapsOneWay }
{}

/// A specifier of `format` is read where one is written, and what is read is what is written.
pub fn specifiers()
    ensures { SpecifiersReadOneWay }
{}
