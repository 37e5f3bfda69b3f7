//! What holds of kinds, of conversions and of the operators, whatever the numbers: each function's contract is
//! a law, and its body does nothing.
ghost use Rattle.k_num.specs.KindLaws.{
  CommonIsNotNarrower,
  CommonIsSymmetric,
  CommonIsUnsigned,
  CommonIsWider,
  CommonKeepsNatural,
  CommonKeepsValue,
  CommonLiftsNegative,
  ConvertedIsAlike,
  ConvertedIsHeld,
  ConvertedIsRemainder,
  ConvertedIsSame,
  ConvertedIsUnique,
  ConvertedKeepsHeld,
  PromotedKeepsValue,
  WiderCovers,
  WiderCoversUnsigned,
};
ghost use Rattle.k_num.specs.ArithmeticLaws.{
  ComplementIsHeld,
  NegatedIsConverted,
  NegatedIsHeld,
  NotAnswersTruth,
  NumberIsConverted,
  NumberIsHeld,
  TestAnswersTruth,
};
ghost use Rattle.k_num.specs.Combining.{
  AssignedIsCombined,
  CombinedInAnyOrder,
  CombinedInNarrower,
  CombinedIsAlike,
  CombinedIsAssociative,
  CombinedIsCommutative,
  CombinedOnBits,
  DifferenceIsSum,
  UnsignedNeverTraps,
};

/// A conversion gives the one value of the kind that equals the number modulo 2^n. So it leaves what the kind holds, and
/// depends on the number modulo 2^n alone; to an unsigned kind it gives the remainder.
pub fn conversion()
    ensures held { ConvertedIsHeld }
    ensures same { ConvertedIsSame }
    ensures unique { ConvertedIsUnique }
    ensures kept { ConvertedKeepsHeld }
    ensures alike { ConvertedIsAlike }
    ensures remainder { ConvertedIsRemainder }
{}

/// A narrower kind's values are values of a wider one that is signed alike, and those of an unsigned kind are values of
/// every wider one. So a promotion keeps the value.
pub fn promotion()
    ensures wider { WiderCovers }
    ensures unsigned { WiderCoversUnsigned }
    ensures kept { PromotedKeepsValue }
{}

/// The common kind of two operands is the wider of the two promoted kinds, and of two that are equally wide the
/// unsigned one.
pub fn common_kind()
    ensures symmetric { CommonIsSymmetric }
    ensures wider { CommonIsWider }
    ensures unsigned { CommonIsUnsigned }
    ensures not_narrower { CommonIsNotNarrower }
{}

/// An operand keeps its value in a signed common kind, and where it is not negative in each. In an unsigned one a negative
/// operand has its remainder modulo 2^n, which is the value and 2^n.
pub fn common_value()
    ensures signed { CommonKeepsValue }
    ensures natural { CommonKeepsNatural }
    ensures negative { CommonLiftsNegative }
{}

/// Where an arithmetic operator has a value, it is the exact result, converted to the kind, and so a value of the kind.
pub fn numbers()
    ensures held { NumberIsHeld }
    ensures converted { NumberIsConverted }
    ensures negated { NegatedIsHeld }
    ensures negated_converted { NegatedIsConverted }
    ensures complement { ComplementIsHeld }
{}

/// Comparisons, `&&`, `||` and `!` never trap, and give 0 or 1.
pub fn tests()
    ensures binary { TestAnswersTruth }
    ensures not { NotAnswersTruth }
{}

/// `+`, `*`, `&`, `|` and `^` combine numbers modulo 2^n in any order, and `-` combines with the negated number.
pub fn any_order()
    ensures commutative { CombinedIsCommutative }
    ensures associative { CombinedIsAssociative }
    ensures any_order { CombinedInAnyOrder }
    ensures difference { DifferenceIsSum }
{}

/// What these operators give modulo 2^n depends on the operands modulo 2^n alone, also where the operation is made in a
/// wider kind, as in a compound assignment to a narrow variable. An unsigned kind always has the value.
pub fn modulo()
    ensures alike { CombinedIsAlike }
    ensures narrower { CombinedInNarrower }
    ensures assigned { AssignedIsCombined }
    ensures unsigned { UnsignedNeverTraps }
{}

/// `&`, `|` and `^` work on the n bits of their operands, bit by bit.
pub fn bits()
    ensures { CombinedOnBits }
{}
