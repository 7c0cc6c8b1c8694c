//! What the written form of lists comes to, as laws of its definition.
ghost use Rattle.tcl_value.specs.Laws.{WrittenLength, WrittenListIsRead, WrittenDictIsRead};

/// The text of a list that isn't empty has the bytes that write its elements and one between any
/// two.
pub fn written_length()
    ensures { WrittenLength }
{}

/// What is written of a list reads as that list.
pub fn written_list_is_read()
    ensures { WrittenListIsRead }
{}

/// What is written of a dict in which no key stands twice reads as that dict.
pub fn written_dict_is_read()
    ensures { WrittenDictIsRead }
{}
