//! What the operators on whole numbers mean.
ghost use Rattle.tcl_expression_evaluation.specs.WholeNumbers.{Divides, Digitwise};
ghost use Rattle.tcl_expression_evaluation.specs.Characters.{BytesOrderCharacters};

/// The quotient and the remainder are the one pair that divides.
pub fn quotients_divide()
    ensures { Divides }
{}

/// Bit operators work digit by digit on two's complement that doesn't end.
pub fn bits_are_digits()
    ensures { Digitwise }
{}

/// Texts stand in the order of the numbers of their characters, which is that of their bytes.
pub fn bytes_order_characters()
    ensures { BytesOrderCharacters }
{}
