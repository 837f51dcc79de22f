//! Each part ends by itself.

ghost use Rattle.key_bytes.specs.Parts.{Ends, answer_part, flag_part, number_part, signed_part, text_part};

/// Where equal bytes begin with two parts of one kind, these are of equal values, and what comes after them is equal too.
pub fn parts_end_by_themselves()
    ensures number { Ends number_part }
    ensures flag { Ends flag_part }
    ensures signed { Ends signed_part }
    ensures text { Ends text_part }
    ensures answer { Ends answer_part }
{}
