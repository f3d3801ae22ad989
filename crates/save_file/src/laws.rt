//! What holds of the reading of bodies.
ghost use Rattle.save_file.specs.Laws.{WhatIsReadHasTheRules, EachBodyIsRead, WhatIsAddedHasTheRules, EachAdditionIsRead, BodyIsUnique, AdditionIsUnique, KindsAreApart, SquaresAreClosed};

/// Bytes that are read as a square are its body, and the rules hold.
pub fn bodies_have_the_rules()
    ensures { WhatIsReadHasTheRules }
{}

/// Where the rules hold, a body is read as its square, with its quasi-inverse if it has one.
pub fn each_body_is_read()
    ensures { EachBodyIsRead }
{}

/// Bytes that are read as a quasi-inverse, behind bodies that were read, are its body, and the rules hold.
pub fn additions_have_the_rules()
    ensures { WhatIsAddedHasTheRules }
{}

/// Where the rules hold, the body of a quasi-inverse is read as it.
pub fn each_addition_is_read()
    ensures { EachAdditionIsRead }
{}

/// A square with its quasi-inverse has one body, and so has a square without.
pub fn one_body()
    ensures { BodyIsUnique }
{}

/// A quasi-inverse of a square that is there has one body.
pub fn one_addition()
    ensures { AdditionIsUnique }
{}

/// No bytes are a square and a quasi-inverse.
pub fn kinds_are_apart()
    ensures { KindsAreApart }
{}

/// The squares of a list of bodies stand behind those that they stand on.
pub fn squares_are_closed()
    ensures { SquaresAreClosed }
{}
