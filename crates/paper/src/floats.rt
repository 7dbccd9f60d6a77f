// The numbers of a 64-bit float's format (binary64 of IEEE 754) that the code uses, for document 02's W-211, external
// prices. What price a float is stands in specs/Floats.antt, worked floats in specs/FloatCases.antt, and what is proved
// of that in proofs/. Each number has one name here and one in specs/Floats.antt.

// 2^52: the one that stands before a fraction of 52 bits.
pub const LEADING_ONE: u64 = 4_503_599_627_370_496;

// A significand is a number of 2^(exponent - 1,075)ths.
pub const SCALE: u64 = 1_075;
