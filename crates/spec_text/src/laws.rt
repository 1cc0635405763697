// Laws on tokens, lines and sections, on empty functions.
ghost use Rattle.spec_text.specs.Laws.{OneBegin, OneFile, OneOrder, OneReading, OneSection, OneSectionFault, SomeFile, SomeOrder, SomeReading, SomeRex};

/// Law: a line begins with one token at most.
pub fn one_token_begins()
    ensures { OneBegin }
{}

/// Law: a line has one reading at most.
pub fn at_most_one_reading()
    ensures { OneReading }
{}

/// Law: a file has its lines in one way.
pub fn at_most_one_file()
    ensures { OneFile }
{}

/// Law: a file has its sections in one way at most.
pub fn at_most_one_order()
    ensures { OneOrder }
{}

/// Law: a file has each section once at most.
pub fn at_most_one_section()
    ensures { OneSection }
{}

/// Law: a file has one section fault at most, and none beside its sections.
pub fn at_most_one_section_fault()
    ensures { OneSectionFault }
{}

/// Law: it can't be that a line has no reading.
pub fn some_reading()
    ensures { SomeReading }
{}

/// Law: it can't be that a file has its lines in no way.
pub fn some_file()
    ensures { SomeFile }
{}

/// Law: it can't be that a file has neither sections nor a first section fault.
pub fn some_order()
    ensures { SomeOrder }
{}

/// Law: a file that has sections has REX.
pub fn some_rex()
    ensures { SomeRex }
{}
