//! What holds of the bytes of parts.
ghost use Rattle.chart_file.specs.Laws.{PartIsUnique};
ghost use Rattle.chart_file.specs.Files.{PartsAreUnique, PartsGoOn};

/// Bytes are those of one part of a column at most. So what `decode` answers to the bytes of `encode` is the part that was given.
pub fn one_part()
    ensures { PartIsUnique }
{}

/// A file has one list of parts at most.
pub fn one_list_of_parts()
    ensures { PartsAreUnique }
{}

/// A file with the records of another has its parts. One with a record more, whose body is that of a part, has this part behind
/// them. So what `Journal` says of records is said of parts of columns: at each moment of an append each image that a stop may
/// leave has the parts that were there, or those and the new one, and all of these once it is acknowledged.
pub fn parts_go_on()
    ensures { PartsGoOn }
{}
