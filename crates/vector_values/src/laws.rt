//! What holds of numbers and their bits. The functions are for proofs alone.
ghost use Rattle.vector_values.specs.Laws.{BitsWriteTheNumber, FittedWriteTheSame, NumbersAreBits, UnfittedAreTooLarge};

/// A law: a number's bits write it, and those that are fitted to nodes, the first the highest, write the
/// same number with a bit for each node; they can't be exactly if the number has more bits than
/// there are nodes. The letters of each number that is read are bits.
#[tactic(auto, using(crate::proofs::LawLemmas::bits_number, crate::proofs::LawLemmas::unfitted_large, crate::proofs::LawLemmas::numbers_bits))]
pub fn bits_write_the_number()
    ensures bits { BitsWriteTheNumber }
    ensures fitted { FittedWriteTheSame }
    ensures unfitted { UnfittedAreTooLarge }
    ensures numbers { NumbersAreBits }
{}
